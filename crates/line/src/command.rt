/// What a line tells, with its numbers as they stand: one variant for each letter.
#[derive(Clone, Copy, PartialEq, Eq, Debug)]
pub enum Command {
    /// P: a new primitive task.
    NewPrimitive,
    /// C: a new compound task.
    NewCompound,
    /// N: a fact ends the needs of a task.
    AppendNeed {
        task: u8,
        fact: u8,
    },
    /// A: a fact ends the adds of a task.
    AppendAdd {
        task: u8,
        fact: u8,
    },
    /// D: a fact ends the deletes of a task.
    AppendDelete {
        task: u8,
        fact: u8,
    },
    /// E: the next phase.
    EndPhase,
    /// M: a method for a task is opened.
    OpenMethod {
        task: u8,
    },
    /// S: a new step of a task.
    NewStep {
        task: u8,
    },
    /// O: one step before another.
    PutOrder {
        earlier: u8,
        later: u8,
    },
    /// L: a link from an add of the producer to a need of the consumer, each by its label.
    PutLink {
        producer: u8,
        add: u8,
        consumer: u8,
        need: u8,
    },
    /// U: a need of the method's task goes to a need of a step of the method.
    RouteNeed {
        need: u8,
        step: u8,
        label: u8,
    },
    /// V: an add of the method's task goes to an add of a step of the method.
    RouteAdd {
        add: u8,
        step: u8,
        label: u8,
    },
    /// K: the open method is closed.
    CloseMethod,
    /// X: a step is decomposed by a method.
    Decompose {
        step: u8,
        method: u8,
    },
    /// J: the plan is judged.
    Judge,
    /// R: a step is taken.
    Take {
        step: u8,
    },
}

/// Why a line is no command: the causes 1 to 4.
#[derive(Clone, Copy, PartialEq, Eq, Debug)]
pub enum Refusal {
    /// 1: the first byte outside 0x20 to 0x7E, or double quote mark, stands at this place.
    BadByte { place: usize },
    /// 2: the first field is no letter of the table.
    NoLetter,
    /// 3: the letter wants another count of fields than these, its own counted.
    FieldCount { count: usize },
    /// 4: this field is the first that is no number from 0 to 255 without leading zeros.
    NoNumber { field: usize },
}
