//! Answers as rows, and rows on a page.
ghost use Rattle.std.specs.Prelude.{◌≡◌, ◌+◌, ◌<◌, ◌≤◌, length, if◌then◌else◌, is_ok, Some, None, decimal, MatchOption, ◌==◌};
ghost use Rattle.page.specs.Answers.{as_row, refusal_row, row, side_number, unread};
ghost use Rattle.page.specs.declared.answer.Refusal.TheVariants as refused;
ghost use Rattle.page.specs.Rows.{RowsEndInBreaks, fits, number_text, numbers_text, row_text, written};

use crate::answer::{Answer, Refusal, Row, Side};
use fixed::Full;
use itoa::Buffer;
use std::fmt;

/// No row is longer than this, so where this much is free, any row can be written.
const ROW_ROOM: usize = 28;

/// Whether any row can be written at this place of the page: at least 28 bytes are free from there on.
pub fn has_room(page: &[u8], at: usize) -> bool
    ensures { result ≡ fits page.now at }
{
    page.len().saturating_sub(at) >= ROW_ROOM
}

/// Writes an answer's row at a place of the page, and answers the place after it.
///
/// Where fewer than 28 bytes are free from there on, it answers `None` and leaves the page as it is.
pub fn write(answer: Answer, page: &mut [u8], at: usize) -> Option<usize>
    ensures page { page.new ≡ (if fits page.old at then written page.old at (row_text (row answer)) else page.old) }
    ensures place { result ≡ (if fits page.old at then Some (at + length (row_text (row answer))) else None) }
    ensures within { MatchOption result (length page.old < at + 28) (λ end. (end ≤ at + 28) × (end ≤ length page.old)) }
{
    if !has_room(page, at) {
        return None;
    }
    Some(put_row(page, at, Row::from(answer)))
}

/// The row that says an answer. Its text is at most 28 bytes long, and its code is 0 exactly where the answer is no refusal.
impl From<Answer> for Row {
    ghost from_gives = { λ answer r. (r ≡ row answer) × (length (row_text r) ≤ 28) × ((r.code == 0) ≡ is_ok answer) };

    fn from(answer: Answer) -> Row {
        match answer {
            Ok(number) => Row::of_number(0, number),
            Err(refusal) => Row::from(refusal),
        }
    }
}

/// The row that says why a line is refused. Its text is at most 28 bytes long.
impl From<Refusal> for Row {
    ghost from_gives = { λ refusal r. (r ≡ refusal_row refusal) × (length (row_text r) ≤ 28) };

    fn from(refusal: Refusal) -> Row {
        match refusal {
            Refusal::BadByte { place } => Row::of_number(1, place as u64),
            Refusal::NoLetter => Row::of_bytes(2, 0, 0, 0),
            Refusal::FieldCount { count } => Row::of_number(3, count as u64),
            Refusal::NoNumber { field } => Row::of_number(4, field as u64),
            Refusal::WrongPhase => Row::of_bytes(5, 0, 0, 0),
            Refusal::NoSuchName { field } => Row::of_bytes(6, field, 0, 0),
            Refusal::WrongKind => Row::of_bytes(7, 0, 0, 0),
            Refusal::AlreadyGiven => Row::of_bytes(8, 0, 0, 0),
            Refusal::FactsDiffer => Row::of_bytes(9, 0, 0, 0),
            Refusal::LimitPassed => Row::of_bytes(10, 0, 0, 0),
            Refusal::Circle => Row::of_bytes(11, 0, 0, 0),
            Refusal::EntryMissing { side, label } => Row::of_bytes(12, u8::from(side), label, 0),
            Refusal::StepWaiting { step } => Row::of_bytes(13, step, 0, 0),
            Refusal::CompoundStep { step } => Row::of_bytes(14, step, 0, 0),
            Refusal::OpenNeed { step, label } => Row::of_bytes(15, step, label, 0),
            Refusal::Threatened {
                threat,
                producer,
                consumer,
            } => Row::of_bytes(16, threat, producer, consumer),
        }
    }
}

/// A line that is no command is refused for the cause that its reading gives.
impl From<line::Refusal> for Refusal {
    ghost from_gives = { λ why refusal. refusal ≡ unread why };

    fn from(why: line::Refusal) -> Refusal {
        match why {
            line::Refusal::BadByte { place } => Refusal::BadByte { place },
            line::Refusal::NoLetter => Refusal::NoLetter,
            line::Refusal::FieldCount { count } => Refusal::FieldCount { count },
            line::Refusal::NoNumber { field } => Refusal::NoNumber { field },
        }
    }
}

/// What finds no place in a full list would pass a limit.
impl From<Full> for Refusal {
    ghost from_gives = { λ full refusal. refusal ≡ refused.LimitPassed };

    fn from(_full: Full) -> Refusal {
        Refusal::LimitPassed
    }
}

/// The number that stands for a side in a row.
impl From<Side> for u8 {
    ghost from_gives = { λ side n. n ≡ side_number side };

    fn from(side: Side) -> u8 {
        match side {
            Side::Need => 0,
            Side::Add => 1,
        }
    }
}

/// The row's four numbers with commas between them, and no break.
impl fmt::Display for Row {
    ghost output = { λ r. Some (numbers_text r) };

    fn fmt<W: fmt::Write>(&self, f: &mut fmt::Formatter<W>) -> fmt::Result {
        write!(f, "{},{},{},{}", self.code, self.a, self.b, self.c)
    }
}

impl Row {
    /// A row of a code of one digit and any one number.
    fn of_number(code: u8, a: u64) -> Row
        requires { code < 10 }
        ensures is { result ≡ as_row code a 0 0 }
        ensures short { length (row_text result) ≤ 28 }
    {
        Row {
            code,
            a,
            b: 0,
            c: 0,
        }
    }

    /// A row of a code and three numbers, none of which is above 255.
    fn of_bytes(code: u8, a: u8, b: u8, c: u8) -> Row
        ensures is { result ≡ as_row code a b c }
        ensures short { length (row_text result) ≤ 28 }
    {
        Row {
            code,
            a: a as u64,
            b: b as u64,
            c: c as u64,
        }
    }
}

// Page and place are two parameters here: a terminal in C lends the page, and how much of it is written is part of its answer.

/// Writes a text, and answers the place after it.
fn put(page: &mut [u8], at: usize, text: &[u8]) -> usize
    requires { at + length text.now ≤ length page.old }
    ensures page { page.new ≡ written page.old at text.now }
    ensures place { result ≡ at + length text.now }
{
    let end = at + text.len();
    page[at..end].copy_from_slice(text);
    end
}

/// Writes the digits of a number, and answers the place after them.
// Not inlined, so that short numbers need not make room for its buffer.
#[inline(never)]
fn put_digits(page: &mut [u8], at: usize, n: u64) -> usize
    requires { at + length (decimal n) ≤ length page.old }
    ensures page { page.new ≡ written page.old at (decimal n) }
    ensures place { result ≡ at + length (decimal n) }
{
    let mut digits = Buffer::new();
    put(page, at, digits.format(n).as_bytes())
}

/// Writes the number in decimal, and answers the place after it.
fn put_decimal(page: &mut [u8], at: usize, n: u64) -> usize
    requires { at + length (decimal n) ≤ length page.old }
    ensures page { page.new ≡ written page.old at (decimal n) }
    ensures place { result ≡ at + length (decimal n) }
{
    // Nearly all numbers of rows have one digit or two, and a buffer for them would cost more than the rest of the row.
    if n < 10 {
        page[at] = b'0' + n as u8;
        return at + 1;
    }
    if n < 100 {
        page[at] = b'0' + (n / 10) as u8;
        page[at + 1] = b'0' + (n % 10) as u8;
        return at + 2;
    }
    put_digits(page, at, n)
}

/// Writes the number in decimal and a byte after it, and answers the place after both.
fn put_number(page: &mut [u8], at: usize, n: u64, after: u8) -> usize
    requires { at + length (number_text n after) ≤ length page.old }
    ensures page { page.new ≡ written page.old at (number_text n after) }
    ensures place { result ≡ at + length (number_text n after) }
{
    let end = put_decimal(page, at, n);
    page[end] = after;
    end + 1
}

/// Writes the row with its line break, and answers the place after it.
fn put_row(page: &mut [u8], at: usize, row: Row) -> usize
    requires { at + length (row_text row) ≤ length page.old }
    ensures page { page.new ≡ written page.old at (row_text row) }
    ensures place { result ≡ at + length (row_text row) }
{
    let code = put_number(page, at, row.code as u64, b',');
    let a = put_number(page, code, row.a, b',');
    let b = put_number(page, a, row.b, b',');
    let c = put_number(page, b, row.c, b'\r');
    page[c] = b'\n';
    c + 1
}

/// The text of a row is what the row prints, and the line break.
pub fn rows_end_in_breaks()
    ensures { RowsEndInBreaks }
{}
