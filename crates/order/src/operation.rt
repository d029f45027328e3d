//! Operations on a keeper, and that what any keeper answers follows from its order and its capacity alone.
ghost use Rattle.std.specs.Prelude.{◌≡◌, true};
ghost use Rattle.order.specs.Operations.{answered, LowPuts, same_answers};

use crate::keeper::Keeper;

// An enum and no closures, so that a list of operations can be given to two keepers and compared.
/// One operation on a keeper.
#[derive(Clone, Copy, PartialEq, Eq, Debug)]
pub enum Operation {
    /// Put the first step before the second.
    Put(u8, u8),
    /// Drop the step.
    DropStep(u8),
    /// Whether the first step is before the second.
    Ask(u8, u8),
}

/// Does the operation. The answer to a put is whether it was not refused, to a question whether the step is before, and to a
/// drop yes.
pub fn apply<K: Keeper>(keeper: &mut K, operation: Operation) -> bool
    ensures { (result, K.before keeper.new) ≡ answered K.CAPACITY (K.before keeper.old) operation }
{
    match operation {
        Operation::Put(a, b) => keeper.put(a, b).is_ok(),
        Operation::DropStep(a) => {
            keeper.drop_step(a);
            true
        }
        Operation::Ask(a, b) => keeper.before(a, b),
    }
}

/// Does the operations on two keepers, until they answer one differently, and says whether they answered all alike. Two
/// keepers of one order do, if their capacities are equal or all numbers that are put are below both.
pub fn agree<K: Keeper, L: Keeper>(one: &mut K, other: &mut L, operations: &[Operation]) -> bool
    ensures is { result ≡ same_answers K.CAPACITY L.CAPACITY (K.before one.old) (L.before other.old) operations.now }
    ensures equal { K.CAPACITY ≡ L.CAPACITY → K.before one.old ≡ L.before other.old → result ≡ true }
    ensures below { LowPuts K.CAPACITY operations.now → LowPuts L.CAPACITY operations.now → K.before one.old ≡ L.before other.old → result ≡ true }
{
    for operation in operations {
        if apply(one, *operation) != apply(other, *operation) {
            return false;
        }
    }
    true
}
