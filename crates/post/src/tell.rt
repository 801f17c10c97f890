// What the program prints: rows as lines, a book, refusals, and what is wrong.
ghost use Rattle.std.specs.Prelude.{◌≡◌, ◌+◌, ◌*◌, ◌≤◌, length};

use crate::book;
use crate::day::{Fault, Outside};
use checks::refusal::Refusal;
use console::Errors;
use std::io;
use std::io::Write;

// Room for a line, or for a set as signals.
fn text_room() -> [u8; 256]
    ensures { 256 ≡ length result }
{
    [0; 256]
}

// What cannot be printed is let go: a day is posted by then, or refused, and an installed command's exit status says
// whether all was passed on (tools/command).
fn say(out: &impl Print, text: &[u8]) {
    let _ = out.write_all(text);
}

pub fn complain(rt: &impl Errors, text: &[u8]) {
    say(&rt.errors(), text);
}

// A number in a message.
fn complain_number(rt: &impl Errors, n: u64) {
    console::say_decimal(&rt.errors(), n);
}

// The refusal of a chart file or of a day.
pub fn refused(out: &impl Print, what: &[u8], refusal: Refusal) {
    say(out, what);
    say(out, b" refused ");
    console::say_decimal(out, refusal.number() as u64);
    say(out, b"\n");
}

// What is wrong with a line of the day's entries, and what was expected.
pub fn wrong_line(rt: &impl Errors, fault: Fault, line: u64) {
    complain(rt, b"post: line ");
    complain_number(rt, line);
    match fault {
        Fault::Nothing => complain(rt, b" is right.\n"),
        Fault::NoFeed => complain(
            rt,
            b" does not end with a line feed. Expected: a line feed behind every line, also the last.\n",
        ),
        Fault::Return => complain(
            rt,
            b" ends with a carriage return and a line feed. Expected: a line feed alone.\n",
        ),
        Fault::Blank => complain(
            rt,
            b" is blank. Expected: the number of a case and a set, as 7 s0,s3.\n",
        ),
        Fault::LateDay => complain(
            rt,
            b" has the day's number. Expected: only the first line has it.\n",
        ),
        Fault::BadDay => complain(
            rt,
            b" has no number of a day behind its first word. Expected: 1 to 999999999, as day 12.\n",
        ),
        Fault::BadCase => complain(
            rt,
            b" does not begin with the number of a case. Expected: a number and a set, as 7 s0,s3; \
              or, first, day 12.\n",
        ),
        Fault::BadSet => complain(
            rt,
            b" has no set behind the number of its case. Expected: one space and a set, as 7 s0,s3; \
              or 7 - for none.\n",
        ),
    }
}

// Which entry is for a case that a book of n cases does not have, and what was expected.
pub fn no_such_case(rt: &impl Errors, entry: Outside, n: u64) {
    complain(rt, b"post: line ");
    complain_number(rt, entry.line);
    complain(rt, b" has case ");
    complain_number(rt, entry.case);
    if n < 2 {
        complain(rt, b", but the book has 1 case. Expected: 0.\n");
        return;
    }
    complain(rt, b", but the book has ");
    complain_number(rt, n);
    complain(rt, b" cases. Expected: 0 to ");
    complain_number(rt, n - 1);
    complain(rt, b".\n");
}

// The day's number is not above that of the last day, or there is none left.
pub fn posted_already(rt: &impl Errors, number: u64, last: u64) {
    if number == 0 {
        complain(
            rt,
            b"post: the book has posted the last day that there can be.\n",
        );
        return;
    }
    complain(rt, b"post: line 1 has day ");
    complain_number(rt, number);
    complain(rt, b", but the book has posted day ");
    complain_number(rt, last);
    complain(rt, b" already. Expected: a higher number.\n");
}

pub fn help(rt: &impl Errors) {
    complain(
        rt,
        b"usage: post new CHART COUNT BOOK   makes a book of COUNT cases, 1 to 64, at their first \
          configuration\n       \
          post day CHART BOOK DAY     posts a day's entries, and writes its rows to DAY.rows\n       \
          post show BOOK              shows the cases of a book\n",
    );
}

// The line of case k: its number, the row's number, and the row as the day program prints it.
fn row_line<W: Write>(out: &mut W, k: usize, row: &[u8]) -> io::Result<()>
    requires { (14 ≤ length row.now) × (length row.now ≤ 30) }
{
    let number = layout::number::le32(row, 0);
    let mut text = text_room();
    let n = line::line(number as u64, &row[4..], &mut text);
    write!(out, "{k} ")?;
    out.write_all(&text[..n])
}

// The lines of n rows of w bytes each.
pub fn lines<W: Write>(out: &mut W, rows: &[u8], w: usize, n: usize) -> io::Result<()>
    requires { (14 ≤ w) × (w ≤ 30) × (n ≤ 64) × (length rows.now ≡ 1920) }
{
    let mut at: usize = 0;
    for k in 0..n {
        let e = at + w;
        row_line(out, k, &rows[at..e])?;
        at = e;
    }
    Ok(())
}

// A set as signals, to the line's end.
fn signals(out: &impl Print, set: u64) {
    let mut text = text_room();
    let n = typed::show(set, &mut text);
    say(out, b" ");
    say(out, &text[..n]);
    say(out, b"\n");
}

// A case: its number, the number of its last row, its configuration, what it carries.
fn show_case(out: &impl Print, k: usize, c: desk::Case) {
    console::say_decimal(out, k as u64);
    say(out, b" ");
    console::say_decimal(out, c.last as u64);
    let config = c.config;
    let n = c.length as usize;
    for (j, state) in config.iter().take(n).enumerate() {
        if j > 0 {
            say(out, b".");
        } else {
            say(out, b" ");
        }
        console::say_decimal(out, u64::from(*state));
    }
    signals(out, c.carried);
}

// A book of n cases.
pub fn show_book(out: &impl Print, book: &[u8], n: usize)
    requires { (n ≤ 64) × (length book.now ≡ 2112) }
{
    say(out, b"day ");
    console::say_decimal(out, book::last_day(book));
    say(out, b"\n");
    for k in 0..n {
        show_case(out, k, book::case_at(book, k));
    }
}
