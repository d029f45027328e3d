//! What a line is answered, and the row that says it.

/// What a line is answered: the number that its command gives back, or why the line is refused.
pub type Answer = Result<u64, Refusal>;

/// Why a line is refused.
///
/// Fields, places and labels are counted from 0; field 0 is the letter, and a label is an entry's place in its list.
#[derive(Clone, Copy, PartialEq, Eq, Debug)]
pub enum Refusal {
    /// The first byte that no line may hold stands at this place.
    BadByte {
        place: usize,
    },
    /// The first field is not the letter of a command.
    NoLetter,
    /// The line has this many fields, and its command takes another count.
    FieldCount {
        count: usize,
    },
    /// This is the first field that is not a number as the lines write them.
    NoNumber {
        field: usize,
    },
    /// The letter has no place in the present phase.
    WrongPhase,
    /// This is the first field whose number names nothing.
    NoSuchName {
        field: u8,
    },
    /// What is named is not of the kind that the command works on.
    WrongKind,
    /// The entry was given before, or the step was taken before.
    AlreadyGiven,
    /// The two ends name different facts.
    FactsDiffer,
    /// A limit would be passed.
    LimitPassed,
    /// A step would come before itself, or a link joins a step to itself.
    Circle,
    /// The method cannot be closed: this entry of its task is the first that goes to no step.
    EntryMissing {
        side: Side,
        label: u8,
    },
    /// This step comes before the one to be taken, and is not taken yet.
    StepWaiting {
        step: u8,
    },
    /// This step is still compound.
    CompoundStep {
        step: u8,
    },
    /// No link serves this need of this step.
    OpenNeed {
        step: u8,
        label: u8,
    },
    /// A permitted order lets this step undo the fact of a link, between the link's producer and its consumer.
    Threatened {
        threat: u8,
        producer: u8,
        consumer: u8,
    },
}

/// Which list of a task an entry stands on.
#[derive(Clone, Copy, PartialEq, Eq, Debug)]
pub enum Side {
    /// The facts that the task needs.
    Need,
    /// The facts that the task adds.
    Add,
}

/// An answer as numbers: its code, 0 where the line is accepted, and three more. Those that say nothing are 0.
// Numbers and no enum, since a row is what a terminal written in C is given to read.
#[derive(Clone, Copy, PartialEq, Eq, Debug)]
pub struct Row {
    pub code: u8,
    pub a: u64,
    pub b: u64,
    pub c: u64,
}
