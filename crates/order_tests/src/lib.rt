//! Both keepers put to the same operations, and examples written down from what an order is.
#![tactic(auto)]

ghost use Rattle.std.specs.Prelude.{◌≡◌, ◌+◌, ◌*◌, ◌%◌, ◌^◌};
ghost use Rattle.order.specs.Operations.{LowPut};

use order::Operation;

/// The next number of a fixed sequence that looks random.
pub fn scrambled(seed: u32) -> u32
    ensures { result ≡ (seed * 1664525 % 2 ^ 32 + 1013904223) % 2 ^ 32 }
{
    seed.wrapping_mul(1664525).wrapping_add(1013904223)
}

/// An operation on steps below 32, chosen by the number: mostly puts, some questions and a few drops.
pub fn operation(seed: u32) -> Operation
    ensures { LowPut 32 result }
{
    let a = (seed / 256 % 32) as u8;
    let b = (seed / 65536 % 32) as u8;
    match seed / 16777216 % 16 {
        0 => Operation::DropStep(a),
        1..=9 => Operation::Put(a, b),
        _ => Operation::Ask(a, b),
    }
}

#[cfg(test)]
mod tests {
    use super::*;
    use order::{BitTable, Keeper, PairList, Refused, agree, apply, put_all};
    use std::process::Abort;
    use std::test::Fail;

    // Whether two keepers give the same answer to every question below 32.
    fn same_order<K: Keeper, L: Keeper>(one: &K, other: &L) -> bool {
        (0..32u8).all(|a| (0..32u8).all(|b| one.before(a, b) == other.before(a, b)))
    }

    // How many of the pairs below 32 are in the order.
    fn size<K: Keeper>(keeper: &K) -> usize {
        (0..1024u16)
            .filter(|place| keeper.before((place / 32 % 32) as u8, (place % 32) as u8))
            .count()
    }

    fn replay(rt: &impl Abort, first: u32) {
        let mut table = BitTable::new();
        let mut list = PairList::new();
        let mut seed = first;
        for _ in 0..300u16 {
            seed = scrambled(seed);
            let next = operation(seed);
            assert_eq!(rt; apply(&mut table, next), apply(&mut list, next));
        }
        assert!(rt; same_order(&table, &list));
        assert!(rt; same_order(&table, &list.copied()));
        assert!(rt; same_order(&table.copied(), &list));
        assert!(rt; size(&table) > 20);
    }

    #[test]
    fn replays_from_1(rt: HostRuntime) {
        replay(&rt, 1);
    }

    #[test]
    fn replays_from_2026(rt: HostRuntime) {
        replay(&rt, 2026);
    }

    #[test]
    fn replays_from_a_large_seed(rt: HostRuntime) {
        replay(&rt, 3735928559);
    }

    #[test]
    fn agree_on_a_list(rt: HostRuntime) {
        let operations = [
            Operation::Put(3, 1),
            Operation::Put(1, 2),
            Operation::Put(2, 3),
            Operation::Ask(3, 2),
            Operation::DropStep(1),
            Operation::Ask(3, 2),
            Operation::Put(2, 3),
        ];
        let mut table = BitTable::new();
        let mut list = PairList::new();
        assert!(rt; agree(&mut table, &mut list, &operations));
        assert!(rt; same_order(&table, &list));
    }

    fn chain_of<K: Keeper>(rt: &impl Abort) -> Result<(), Fail> {
        let mut keeper = K::new();
        for x in (0..31u8).rev() {
            keeper.put(x, x + 1)?;
        }
        assert!(rt; keeper.before(0, 31));
        assert!(rt; !keeper.before(31, 0));
        assert_eq!(rt; size(&keeper), 496);
        keeper.drop_step(7);
        assert!(rt; keeper.before(6, 8));
        assert!(rt; keeper.before(0, 31));
        assert!(rt; !keeper.before(6, 7));
        assert!(rt; !keeper.before(7, 8));
        assert_eq!(rt; size(&keeper), 465);
        Ok(())
    }

    #[test]
    fn chain(rt: HostRuntime) -> Result<(), Fail> {
        chain_of::<BitTable>(&rt)?;
        chain_of::<PairList>(&rt)
    }

    fn circle_at<K: Keeper>(rt: &impl Abort) -> Result<(), Fail> {
        let mut keeper = K::new();
        assert_eq!(rt; keeper.put(5, 5), Err(Refused));
        keeper.put(5, 6)?;
        keeper.put(6, 9)?;
        keeper.put(5, 9)?;
        let before = keeper.copied();
        assert_eq!(rt; keeper.put(9, 5), Err(Refused));
        assert_eq!(rt; keeper.put(6, 5), Err(Refused));
        assert!(rt; same_order(&before, &keeper));
        assert_eq!(rt; size(&keeper), 3);
        Ok(())
    }

    #[test]
    fn circle_is_refused(rt: HostRuntime) -> Result<(), Fail> {
        circle_at::<BitTable>(&rt)?;
        circle_at::<PairList>(&rt)
    }

    fn row_at<K: Keeper>(rt: &impl Abort) -> Result<(), Fail> {
        let mut keeper = K::new();
        keeper.put(2, 5)?;
        keeper.put(5, 7)?;
        let mut row = K::new();
        row.put_row(&keeper, 2);
        assert!(rt; row.before(2, 5));
        assert!(rt; row.before(2, 7));
        assert!(rt; !row.before(5, 7));
        row.put_row(&keeper, 5);
        assert!(rt; same_order(&row, &keeper));
        Ok(())
    }

    #[test]
    fn rows_are_copied(rt: HostRuntime) -> Result<(), Fail> {
        row_at::<BitTable>(&rt)?;
        row_at::<PairList>(&rt)
    }

    fn past<K: Keeper>(rt: &impl Abort) -> Result<(), Fail> {
        let mut keeper = K::new();
        let over = K::CAPACITY;
        assert_eq!(rt; keeper.put(over, 0), Err(Refused));
        assert_eq!(rt; keeper.put(0, over), Err(Refused));
        assert_eq!(rt; keeper.put(255, 254), Err(Refused));
        keeper.put(0, over - 1)?;
        assert!(rt; !keeper.before(0, over));
        assert!(rt; !keeper.before(255, 0));
        keeper.drop_step(over);
        keeper.drop_step(255);
        assert!(rt; keeper.before(0, over - 1));
        Ok(())
    }

    #[test]
    fn numbers_past_the_capacity(rt: HostRuntime) -> Result<(), Fail> {
        past::<BitTable>(&rt)?;
        past::<PairList>(&rt)
    }

    fn put_all_at<K: Keeper>(rt: &impl Abort) {
        let mut keeper = K::new();
        assert_eq!(rt; put_all(&mut keeper, &[(0, 4), (4, 2), (2, 1)]), Ok(()));
        assert!(rt; keeper.before(0, 1));
        assert_eq!(rt;
            put_all(&mut keeper, &[(3, 0), (1, 4), (8, 9)]),
            Err(Refused)
        );
        assert!(rt; keeper.before(3, 1));
        assert!(rt; !keeper.before(8, 9));
        assert_eq!(rt; put_all(&mut keeper, &[]), Ok(()));
        assert_eq!(rt; size(&keeper), 10);
    }

    #[test]
    fn many_pairs(rt: HostRuntime) {
        put_all_at::<BitTable>(&rt);
        put_all_at::<PairList>(&rt);
    }
}
