// The posting desk's program (RULES 11): makes a book, posts a day to it, shows it. A book is a file (docs/FORMAT.md).
// What is wrong with a command or a file goes to standard error; rows, and the refusal of a day, go to standard output.
// A day that is refused for a case outside the book has both: the refusal, and which line it is.
#![tactic(auto)]

mod book;
mod day;
mod files;
mod tell;

ghost use Rattle.std.specs.Prelude.{◌≡◌, ◌≤◌, length};

use checks::refusal::Refusal;
use console::Console;
use day::{Fault, Outside};
use desk::Day;
use std::io;

// Where the words of a command stand.
const CHART: usize = 2;

const COUNT: usize = 3;

const NEW_BOOK: usize = 4;

const BOOK: usize = 3;

const ENTRIES: usize = 4;

const SHOWN: usize = 2;

// Room for a chart file or a day's entries, and for the rows of 64 cases of sixteen charts. Only the lengths are
// promised, so that no proof looks at so many zeros.
fn file_room() -> [u8; 65536]
    ensures { 65536 ≡ length result }
{
    [0; 65536]
}

fn row_room() -> [u8; 1920]
    ensures { 1920 ≡ length result }
{
    [0; 1920]
}

// The new record of a case at its first configuration.
fn first_case(file: &[u8]) -> Result<desk::Case, Refusal> {
    let s = engine::file::states(file)?;
    let mut config = [0u8; desk::WIDTH];
    engine::file::first(file, &mut config)?;
    Ok(desk::Case {
        carried: 0,
        last: 0,
        length: s.charts,
        config,
    })
}

// Makes a book of n cases.
fn make(rt: &impl Console, file: &[u8], n: usize)
    requires { n ≤ 64 }
{
    let case = match first_case(file) {
        Ok(case) => case,
        Err(r) => {
            tell::refused(rt, b"file", r);
            return;
        }
    };
    let mut book = files::book_room();
    book::fill(&mut book, case, n);
    if files::replace(rt, NEW_BOOK, &book, book::size(n)).is_err() {
        files::failed(rt, NEW_BOOK);
    }
}

fn new_book(rt: &impl Console, file: &[u8]) {
    if files::is_there(rt, NEW_BOOK) {
        tell::complain(rt, b"post: the book is there already.\n");
        return;
    }
    let Some(n) = day::count(rt, COUNT) else {
        tell::complain(rt, b"post: COUNT is a number from 1 to 64.\n");
        return;
    };
    if n == 0 {
        tell::complain(rt, b"post: COUNT is a number from 1 to 64.\n");
        return;
    }
    if n > 64 {
        tell::complain(rt, b"post: COUNT is a number from 1 to 64.\n");
        return;
    }
    make(rt, file, n as usize);
}

// The rows are written first, then the book takes its new bytes; last, the rows are printed.
fn write(rt: &impl Console, rows: &[u8], w: usize, n: usize, book: &[u8])
    requires { (14 ≤ w) × (w ≤ 30) × (n ≤ 64) × (length rows.now ≡ 1920) × (length book.now ≡ 2112) }
{
    if files::write_rows(rt, ENTRIES, rows, w, n).is_err() {
        files::failed(rt, ENTRIES);
        return;
    }
    if files::replace(rt, BOOK, book, book::size(n)).is_err() {
        files::failed(rt, BOOK);
        return;
    }
    // The day is posted: whether its rows could be printed changes nothing.
    let _ = tell::lines(&mut io::writer(rt), rows, w, n);
}

// What is decided of a day for the first n records: how many charts a row has, or the refusal.
fn decided(
    file: &[u8],
    book: &[u8],
    n: usize,
    is_outside: bool,
    room: usize,
) -> Result<usize, Refusal>
    requires { (n ≤ 64) × (length book.now ≡ 2112) }
{
    let s = book::looked(file, book, n)?;
    deciding::decide(s, is_outside, n, room)?;
    Ok(s.charts as usize)
}

// A day that is read, posted to a book of n cases; or its refusal, and with 61 the first entry outside the book.
fn post_day(
    rt: &impl Console,
    file: &[u8],
    book: &mut [u8],
    n: usize,
    d: Day,
    outside: Outside,
    number: u64,
)
    requires { (n ≤ 64) × (length book.old ≡ 2112) }
{
    let mut rows = row_room();
    let charts = match decided(file, book, n, d.outside, rows.len()) {
        Ok(charts) => charts,
        Err(refusal) => {
            tell::refused(rt, b"day", refusal);
            if let Refusal::NoSuchCase = refusal {
                tell::no_such_case(rt, outside, n as u64);
            }
            return;
        }
    };
    if charts > desk::WIDTH {
        return;
    }
    book::post_cases(file, book, d, n, charts, &mut rows);
    book::put_day(book, number);
    write(rt, &rows, 14 + charts, n, book);
}

// The number of the day: the one that it carries, which no earlier day may have had; or the next.
fn number_of(given: u64, last: u64) -> u64 {
    if given == 0 {
        if last == 18446744073709551615 {
            return 0;
        }
        return last + 1;
    }
    if given > last { given } else { 0 }
}

fn day_of(rt: &impl Console, file: &[u8], book: &mut [u8], n: usize, text: &[u8])
    requires { (n ≤ 64) × (length book.old ≡ 2112) }
{
    let e = day::entries(text, n);
    let f = e.fault;
    let Fault::Nothing = f else {
        tell::wrong_line(rt, f, e.line);
        return;
    };
    let last = book::last_day(book);
    let number = number_of(e.number, last);
    if number == 0 {
        tell::posted_already(rt, e.number, last);
        return;
    }
    let d = e.day;
    let outside = e.outside;
    post_day(rt, file, book, n, d, outside, number);
}

fn read_day(rt: &impl Console, file: &[u8]) {
    let mut book = files::book_room();
    let count = files::load(rt, BOOK, &mut book).unwrap_or(0);
    let n = book::cases(&book, count);
    if n == 0 {
        files::no_book(rt, BOOK);
        return;
    }
    let mut text = file_room();
    let Some(k) = files::load(rt, ENTRIES, &mut text) else {
        return;
    };
    day_of(rt, file, &mut book, n, &text[..k]);
}

fn show(rt: &impl Console) {
    let mut book = files::book_room();
    let count = files::load(rt, SHOWN, &mut book).unwrap_or(0);
    let n = book::cases(&book, count);
    if n == 0 {
        files::no_book(rt, SHOWN);
        return;
    }
    tell::show_book(rt, &book, n);
}

// A command on a chart file.
fn on_file(rt: &impl Console, is_new: bool) {
    let mut file = file_room();
    let Some(k) = files::load(rt, CHART, &mut file) else {
        return;
    };
    if is_new {
        new_book(rt, &file[..k]);
    } else {
        read_day(rt, &file[..k]);
    }
}

fn main(rt: HostRuntime) {
    let mut word = console::word_room();
    let k = console::word(&rt, 1, &mut word);
    let count = console::word_count(&rt);
    if count == 5 {
        if typed::is(&word[..k], b"new") {
            on_file(&rt, true);
            return;
        }
        if typed::is(&word[..k], b"day") {
            on_file(&rt, false);
            return;
        }
    }
    if count == 3 {
        if typed::is(&word[..k], b"show") {
            show(&rt);
            return;
        }
    }
    tell::help(&rt);
}
