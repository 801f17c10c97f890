// A day's entries, typed: a line for each, the number of a case and a set, as `7 s0,s3`. The first line may be the
// day's number, as `day 12`.
ghost use Rattle.std.specs.Prelude.{◌≡◌, ◌+◌, ◌*◌, ◌<◌, ◌≤◌, length};

use desk::{Day, Entry};
use std::env::Env;

// What is wrong with a line.
#[derive(Clone, Copy)]
pub enum Fault {
    Nothing,
    // It is the last, and no line feed follows.
    NoFeed,
    // A carriage return stands before its line feed.
    Return,
    Blank,
    // It has the day's number, and is not the first.
    LateDay,
    // It begins with `day`, and no number of a day follows.
    BadDay,
    // It does not begin with the number of a case,
    BadCase,
    // or no set follows.
    BadSet,
}

// The first entry for a case that is not in the book: its line, counted from 1, or 0 if there is no such entry; and the
// number of the case.
#[derive(Clone, Copy)]
pub struct Outside {
    pub line: u64,
    pub case: u64,
}

// The entries joined; the day's number, 0 if it has none; the first entry outside the book; or what is wrong, and in
// which line, counted from 1.
#[derive(Clone, Copy)]
pub struct Entered {
    pub fault: Fault,
    pub line: u64,
    pub number: u64,
    pub day: Day,
    pub outside: Outside,
}

// A line that was read: an entry, or the day's number.
#[derive(Clone, Copy)]
pub struct Line {
    pub fault: Fault,
    pub is_day: bool,
    pub number: u64,
    pub signals: u64,
}

// A number of at most nine digits.
pub fn decimal(word: &[u8]) -> Option<u64> {
    if word.len() == 0 {
        return None;
    }
    let mut v: u64 = 0;
    for b in word {
        if *b < b'0' {
            return None;
        }
        if *b > b'9' {
            return None;
        }
        if v > 99999999 {
            return None;
        }
        v = 10 * v + (*b - b'0') as u64;
    }
    Some(v)
}

// The number that is typed as word i of the command.
pub fn count(rt: &impl Env, i: usize) -> Option<u64> {
    let mut word = console::word_room();
    let n = console::word(rt, i, &mut word);
    decimal(&word[..n])
}

fn line_of(fault: Fault, is_day: bool, number: u64, signals: u64) -> Line {
    Line {
        fault,
        is_day,
        number,
        signals,
    }
}

fn wrong(fault: Fault) -> Line {
    line_of(fault, false, 0, 0)
}

// A line whose two words stand before and behind its first space.
fn words(first: &[u8], second: &[u8]) -> Line {
    if typed::is(first, b"day") {
        let Some(n) = decimal(second) else {
            return wrong(Fault::BadDay);
        };
        if n == 0 {
            return wrong(Fault::BadDay);
        }
        return line_of(Fault::Nothing, true, n, 0);
    }
    let Some(n) = decimal(first) else {
        return wrong(Fault::BadCase);
    };
    let Some(s) = typed::set(second) else {
        return wrong(Fault::BadSet);
    };
    line_of(Fault::Nothing, false, n, s)
}

// Without a space, the second word is empty.
fn read_line(line: &[u8]) -> Line {
    let n = line.len();
    if n == 0 {
        return wrong(Fault::Blank);
    }
    if line[n - 1] == b'\r' {
        return wrong(Fault::Return);
    }
    let space = typed::end(line, 0, b' ');
    if space >= n {
        return words(line, b"");
    }
    let behind = space + 1;
    words(&line[..space], &line[behind..])
}

fn entries_of(fault: Fault, line: u64, number: u64, day: Day, outside: Outside) -> Entered {
    Entered {
        fault,
        line,
        number,
        day,
        outside,
    }
}

// The first entry outside a book of n cases: the one found before; or else this one, if it is outside.
fn first_outside(found: Outside, line: u64, case: u64, n: usize) -> Outside {
    if found.line != 0 {
        return found;
    }
    if case as usize >= n {
        return Outside { line, case };
    }
    found
}

// All entries, for a book of n cases. Each line ends in byte 10.
pub fn entries(text: &[u8], n: usize) -> Entered {
    let mut d = deciding::no_day();
    let mut outside = Outside { line: 0, case: 0 };
    let mut number: u64 = 0;
    let mut line: u64 = 1;
    let mut at: usize = 0;
    while at < text.len() {
        let e = typed::end(text, at, b'\n');
        if e >= text.len() {
            return entries_of(Fault::NoFeed, line, 0, d, outside);
        }
        let r = read_line(&text[at..e]);
        let f = r.fault;
        let Fault::Nothing = f else {
            return entries_of(f, line, 0, d, outside);
        };
        if r.is_day {
            if line > 1 {
                return entries_of(Fault::LateDay, line, 0, d, outside);
            }
            number = r.number;
        } else {
            outside = first_outside(outside, line, r.number, n);
            d = deciding::take_one(
                d,
                Entry {
                    number: r.number,
                    signals: r.signals,
                },
                n,
            );
        }
        at = e + 1;
        line = std::num::wrapping_add_u64(line, 1);
    }
    entries_of(Fault::Nothing, line, number, d, outside)
}
