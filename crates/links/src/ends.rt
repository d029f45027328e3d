//! The ends of a link: a step and an add of it, and a step and a need of it.
ghost use Rattle.std.specs.Prelude.{◌≡◌, is_some};
ghost use Rattle.links.specs.Parts.{ends, first_cause, refused};

use page::Refusal;

/// Whether the fields of a link name a link's ends, which name one fact. `producer` and `consumer` say whether there are such
/// steps, and `given` and `wanted` are the facts that the labels name at them.
pub fn check_ends(
    producer: bool,
    given: Option<u8>,
    consumer: bool,
    wanted: Option<u8>,
) -> Result<(), Refusal>
    ensures { refused result ≡ first_cause (ends producer (is_some given) consumer (is_some wanted) given wanted) }
{
    if !producer {
        return Err(Refusal::NoSuchName { field: 1 });
    }
    let fact = given.ok_or(Refusal::NoSuchName { field: 2 })?;
    if !consumer {
        return Err(Refusal::NoSuchName { field: 3 });
    }
    let other = wanted.ok_or(Refusal::NoSuchName { field: 4 })?;
    if fact != other {
        return Err(Refusal::FactsDiffer);
    }
    Ok(())
}
