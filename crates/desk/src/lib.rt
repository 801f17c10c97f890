// The posting desk's records (RULES 11), and a theory: what the posting of a day for a whole book is, and what it comes
// to one entry and one case at a time. Types, definitions and theorems in specs/, no function.
#![tactic(auto)]

use checks::refusal::Refusal;

// The most cases in a book, and the bytes that a record has for a configuration.
pub const CASES: usize = 64;

pub const WIDTH: usize = layout::limits::CHARTS;

// The last row number: four bytes have no higher one.
pub const LAST_ROW: u32 = 4294967295;

// What a row has: its number; the output, the mark, the refusal and the configuration, as a row of a run has them.
pub const ROW: usize = 4;

pub const MARK: usize = layout::row::MARK;

pub const REFUSAL: usize = layout::row::REFUSAL;

pub const STATES: usize = layout::row::STATES;

// A case's record: what it carries, the number of its last row, and its configuration, which has `length` bytes at the
// front of `config`.
#[repr(C)]
#[derive(Clone, Copy)]
pub struct Case {
    pub carried: u64,
    pub last: u32,
    pub length: u8,
    pub config: [u8; WIDTH],
}

// An entry of a day: the number of a case, and the signals that arrived for it.
#[repr(C)]
#[derive(Clone, Copy)]
pub struct Entry {
    pub number: u64,
    pub signals: u64,
}

// What the entries come to: the joined set of each case that a book may have, and whether one entry is for a case that
// is not in the book.
#[derive(Clone, Copy)]
pub struct Day {
    pub sets: [u64; CASES],
    pub outside: bool,
}

// What an accepted file and the cases looked at say: 20 or 21 of the first bad case, if there is one; how many charts
// the file has, and how many states each of them has; whether a row number is at its end.
#[derive(Clone, Copy)]
pub struct Seen {
    pub tested: Result<(), Refusal>,
    pub charts: u8,
    pub states: [u8; layout::limits::CHARTS],
    pub ended: bool,
}

// What a step gave, and the bytes of the record after it. A refused step leaves them as they were.
#[derive(Clone, Copy)]
pub struct Reply {
    pub output: u64,
    pub mark: bool,
    pub next: [u8; WIDTH],
}
