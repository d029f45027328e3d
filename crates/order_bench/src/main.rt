//! How quick the keepers are: puts and questions each second, and what one put costs as the order grows.
#![tactic(auto)]

ghost use Rattle.std.specs.Prelude.{◌<◌};

use order::{BitTable, Keeper, PairList};
use std::time::{Duration, Instant};
use std::{env, io};

/// An order between 32 steps, by the pairs that are put.
#[derive(Clone, Copy)]
enum Shape {
    /// Each step before the next.
    Chain,
    /// Pairs that look random, the lower step first.
    Random,
    /// Every step before every higher one, each pair put.
    Full,
}

// An enum and no closures: a shape is a count and its pairs, and each is read off one table.

/// How many pairs are put for an order of the shape.
fn puts_of(shape: Shape) -> u32
    ensures { result < 1000 }
{
    match shape {
        Shape::Chain => 31,
        Shape::Random => 60,
        Shape::Full => 992,
    }
}

/// The pair of the two numbers below 32, the lower first.
fn rising(a: u8, b: u8) -> (u8, u8)
    requires one { a < 32 }
    requires other { b < 32 }
    ensures { result.1 < 32 }
{
    if a < b { (a, b) } else { (b, a) }
}

/// The pair that is put at place `i`.
fn pair_at(shape: Shape, i: u32) -> (u8, u8)
    ensures { result.1 < 32 }
{
    match shape {
        Shape::Chain => rising((i % 31) as u8, (i % 31 + 1) as u8),
        Shape::Random => {
            let seed = i.wrapping_mul(2654435761).wrapping_add(1013904223);
            rising((seed / 4096 % 32) as u8, (seed / 1048576 % 32) as u8)
        }
        Shape::Full => rising((i / 31 % 32) as u8, ((i / 31 + 1 + i % 31) % 32) as u8),
    }
}

/// How many of `count` came in a second, where they took `spent`.
fn rate(count: u32, spent: Duration) -> u128 {
    let nanos = spent.as_nanos().max(1);
    u128::from(count) * 1_000_000_000 / nanos
}

/// Puts all pairs of the shape into a new keeper, and says how many were put.
fn filled<K: Keeper>(shape: Shape) -> (K, u32) {
    let mut keeper = K::new();
    let mut put = 0u32;
    for i in 0..puts_of(shape) {
        let (a, b) = pair_at(shape, i);
        if keeper.put(a, b).is_ok() {
            put = put.wrapping_add(1);
        }
    }
    (keeper, put)
}

/// How many of the questions on 32 steps are answered by yes.
fn asked<K: Keeper>(keeper: &K) -> usize {
    (0..1024u16)
        .filter(|place| keeper.before((place / 32 % 32) as u8, (place % 32) as u8))
        .count()
}

/// The puts in a second, over `rounds` new keepers filled to the shape.
fn puts_a_second<K: Keeper>(rt: &HostRuntime, shape: Shape, rounds: u32) -> io::Result<u128> {
    let start = Instant::now(rt)?;
    let mut put = 0u32;
    for _ in 0..rounds {
        let (_keeper, more) = filled::<K>(shape);
        put = put.wrapping_add(more);
    }
    Ok(rate(put, start.elapsed(rt)?))
}

/// The questions in a second, all pairs of steps asked `rounds` times, and how many were answered by yes.
fn questions_a_second<K: Keeper>(
    rt: &HostRuntime,
    shape: Shape,
    rounds: u32,
) -> io::Result<(u128, usize)> {
    let (keeper, _put) = filled::<K>(shape);
    let start = Instant::now(rt)?;
    let mut yes = 0usize;
    for _ in 0..rounds {
        yes = yes.wrapping_add(asked(&keeper));
    }
    Ok((rate(rounds.wrapping_mul(1024), start.elapsed(rt)?), yes))
}

/// The nanoseconds of one put from the first step of a chain to its last.
fn nanos_of_a_put<K: Keeper>(rt: &HostRuntime, last: u8, rounds: u32) -> io::Result<u128> {
    let mut keeper = K::new();
    for x in 0..last {
        let _ = keeper.put(x, x + 1);
    }
    let start = Instant::now(rt)?;
    let mut put = 0u32;
    for _ in 0..rounds {
        if keeper.put(0, last).is_ok() {
            put = put.wrapping_add(1);
        }
    }
    Ok(start.elapsed(rt)?.as_nanos() / u128::from(put.max(1)))
}

fn report<K: Keeper>(rt: &HostRuntime, name: &str, shape: Shape, rounds: u32) -> io::Result<()> {
    let puts = puts_a_second::<K>(rt, shape, rounds)?;
    let (questions, yes) = questions_a_second::<K>(rt, shape, rounds)?;
    println!(rt; "| {name} | {puts} | {questions} | {yes} |")
}

fn report_growth(rt: &HostRuntime, last: u8) -> io::Result<()> {
    let table = nanos_of_a_put::<BitTable>(rt, last, 200000)?;
    let list = nanos_of_a_put::<PairList>(rt, last, 20000)?;
    println!(rt; "| {last} | {table} | {list} |")
}

fn measure(rt: &HostRuntime) -> io::Result<()> {
    println!(rt; "| keeper and order | puts a second | questions a second | yes |")?;
    println!(rt; "|---|---|---|---|")?;
    report::<BitTable>(rt, "bit table, chain", Shape::Chain, 20000)?;
    report::<BitTable>(rt, "bit table, random", Shape::Random, 20000)?;
    report::<BitTable>(rt, "bit table, full", Shape::Full, 2000)?;
    report::<PairList>(rt, "pair list, chain", Shape::Chain, 2000)?;
    report::<PairList>(rt, "pair list, random", Shape::Random, 2000)?;
    report::<PairList>(rt, "pair list, full", Shape::Full, 100)?;
    println!(rt; "")?;
    println!(rt; "| pairs in the chain | bit table, ns a put | pair list, ns a put |")?;
    println!(rt; "|---|---|---|")?;
    for quarter in 1..9u8 {
        report_growth(rt, quarter * 4 - 1)?;
    }
    Ok(())
}

fn main(rt: HostRuntime) -> io::Result<()> {
    let mut words = env::args(&rt)?;
    let _name = words.next();
    let wanted = match words.next() {
        Some(word) => word.as_str() == "measure",
        None => false,
    };
    if wanted {
        measure(&rt)
    } else {
        println!(rt; "order_bench: run it with the argument measure")
    }
}
