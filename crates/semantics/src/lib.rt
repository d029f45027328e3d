//! What plans, orders, the rules and the gate book mean, and the theorems about them.
//!
//! The definitions stand in specs/. The types here are those that the definitions share with the code, and each function
//! stands for a theorem: its contract is the statement.
#![tactic(auto)]

mod laws;
mod link;
mod phase;

pub use laws::{
    always_framed, as_listed, decomposition, judged_exactly, limits_hold, lowest_cause,
    lowest_named, needs_are_met, only_fitting, promise_holds, put_is_smallest,
    puts_are_the_closure, sequence_orders_nothing, some_step_is_next, threat_comes_true,
};
pub use link::Link;
pub use phase::Phase;
