//! A keeper of 64 steps: one bit for each pair, with every pair that follows set.
ghost use Rattle.order.specs.Tables.{relation, table_order};
ghost use Rattle.std.proofs.Common.{lit≤};

use crate::{Keeper, Refused, Table};

/// A table of 64 steps.
pub type BitTable = Table<64>;

impl Keeper for Table<64> {
    const CAPACITY: u8 = 64;

    ghost CAPACITY = { 64 };

    ghost before = { λ k. relation k };

    ghost few = { (lit≤ tt, lit≤ tt) };

    ghost never_itself = { λ k. (table_order k).strict.never_itself };

    ghost passes_on = { λ k. (table_order k).strict.passes_on };

    ghost within = { λ k. (table_order k).within };

    fn new() -> BitTable {
        Table::new()
    }

    fn before(&self, a: u8, b: u8) -> bool {
        Table::before(self, a, b)
    }

    fn put(&mut self, a: u8, b: u8) -> Result<(), Refused> {
        Table::put(self, a, b)
    }

    fn drop_step(&mut self, a: u8) {
        Table::drop_step(self, a)
    }

    fn copied(&self) -> BitTable {
        *self
    }
}
