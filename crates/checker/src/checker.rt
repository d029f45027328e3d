use plan::{Plan, Progress};
use told_domain::Domain;

/// A checker over an order keeper: the domain with its phase, the plan, its order, and how far it is carried out.
#[derive(Drop)]
pub struct Checker<K> {
    pub(super) domain: Domain,
    pub(super) plan: Plan,
    pub(super) keeper: K,
    pub(super) progress: Progress,
}
