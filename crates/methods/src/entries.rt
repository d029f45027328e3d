ghost use Rattle.std.specs.Prelude.{◌≡◌, length};

/// Labels are the numbers below this one.
pub const LABELS: usize = 32;

/// Where a need or an add of a method's task goes: to a need or an add of a step of the method, by its label.
#[derive(Clone, Copy, PartialEq, Eq, Debug)]
pub struct Entry {
    pub step: u8,
    pub label: u8,
}

// An array with a place for each label, since the libraries use no heap and a label is a small number.
/// Where the needs or the adds of a method's task go, by their labels: for each at most one entry.
#[derive(Clone, Copy)]
pub struct Entries {
    pub(super) places: [Option<Entry>; LABELS],
    ghost whole: { length places ≡ 32 },
}
