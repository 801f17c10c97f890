// A place of a typed text, shown to a person: line and column, the line with a caret below the place, and what could
// stand there; and the charts of a text to which 52 applies.
#![tactic(auto)]

ghost use Rattle.std.specs.Prelude.{◌≡◌, ◌+◌, ◌≤◌, ◌<◌, length, drop};
ghost use Rattle.tokens.specs.Tokens.{blanks};

use recogniser::Wrong;

// The longest beginning of a text behind which it is tried what could stand.
const MOST_BEGUN: usize = 65535;

// So much of a line is shown before and behind the place.
const BEFORE: usize = 60;

const BEHIND: usize = 30;

const LINE_END: u8 = 10;

// What cannot be printed is let go: nothing that is found out here depends on it.
fn say(out: &impl Print, text: &[u8]) {
    let _ = out.write_all(text);
}

// Room for the part of a line that is shown.
fn line_room() -> [u8; BEFORE + BEHIND]
    ensures { 90 ≡ length result }
{
    [b' '; BEFORE + BEHIND]
}

// Where the line begins that a place is in, or right behind whose last byte it is.
fn line_start(text: &[u8], at: usize) -> usize
    requires { at ≤ length text.now }
    ensures { result ≤ at }
{
    match text[..at].iter().rposition(|b| *b == LINE_END) {
        Some(k) => k + 1,
        None => 0,
    }
}

// Which line a place is in, counted from 1.
fn line_number(text: &[u8], at: usize) -> usize
    requires { at ≤ length text.now }
    ensures { result ≤ at + 1 }
{
    text[..at].iter().filter(|b| **b == LINE_END).count() + 1
}

// A byte as it is shown: what is no printable character of ASCII as a question mark.
fn shown(b: u8) -> u8 {
    if b < b' ' {
        return b'?';
    }
    if b > b'~' {
        return b'?';
    }
    b
}

// The bytes of a line from a place on, up to its end or as many as there is room for; how many there are.
fn copy_line(text: &[u8], from: usize, out: &mut [u8]) -> usize
    requires { from ≤ length text.now }
    ensures { result ≤ length out.new }
{
    let rest = &text[from..];
    let most = rest.len().min(out.len());
    for n in 0..most {
        if rest[n] == LINE_END {
            return n;
        }
        out[n] = shown(rest[n]);
    }
    most
}

// Where the part of a line begins that is shown.
fn shown_from(start: usize, at: usize) -> usize
    requires { start ≤ at }
    ensures { (result ≤ at) × (at ≤ result + 60) }
{
    if at - start > BEFORE {
        return at - BEFORE;
    }
    start
}

// The line that a place is in, and a caret below the place.
fn show_line(out: &impl Print, text: &[u8], start: usize, at: usize)
    requires { (start ≤ at) × (at ≤ length text.now) }
{
    let from = shown_from(start, at);
    let mut line = line_room();
    let n = copy_line(text, from, &mut line);
    say(out, &line[..n]);
    say(out, b"\n");
    let blanks = line_room();
    let k = at - from;
    say(out, &blanks[..k]);
    say(out, b"^\n");
}

// Line and column of a place, both counted from 1, and the line itself.
pub fn show_place(out: &impl Print, text: &[u8], at: usize)
    requires { at ≤ length text.now }
{
    let start = line_start(text, at);
    say(out, b"line ");
    console::say_decimal(out, line_number(text, at) as u64);
    say(out, b", column ");
    console::say_decimal(out, (at - start) as u64 + 1);
    say(out, b":\n");
    show_line(out, text, start, at);
}

// The token that a byte begins.
fn token(out: &impl Print, b: u8) {
    if b == b'D' {
        say(out, b" Dec");
        return;
    }
    if b == b'b' {
        say(out, b" by");
        return;
    }
    if b == b'0' {
        say(out, b" a digit");
        return;
    }
    let one = [b' ', b];
    say(out, &one);
}

// Room for the beginning of a text and one byte more.
fn begun_room() -> [u8; MOST_BEGUN + 1]
    ensures { 65536 ≡ length result }
{
    [0; MOST_BEGUN + 1]
}

// Whether a byte could stand behind the first bytes of `begun`.
fn could_stand(begun: &mut [u8], at: usize, b: u8) -> bool
    requires { at < length begun.old }
{
    begun[at] = b;
    let end = at + 1;
    match recogniser::recognise(&begun[..end]) {
        Ok(()) => true,
        Err(Wrong(k)) => k != at,
    }
}

// The token that a byte begins, if it could stand there, and whether it could.
fn try_token(out: &impl Print, begun: &mut [u8], at: usize, b: u8) -> bool
    requires { at < length begun.old }
{
    let can = could_stand(begun, at, b);
    if can {
        token(out, b);
    }
    can
}

// All tokens that could stand behind the first bytes of `begun`, and the parts of one that is begun; whether there is
// one.
fn try_all(out: &impl Print, begun: &mut [u8], at: usize, bytes: &[u8]) -> bool
    requires { at < length begun.old }
{
    let mut some = false;
    for b in bytes {
        some = try_token(out, begun, at, *b) | some;
    }
    some
}

// What could stand at a place.
pub fn show_possible(out: &impl Print, text: &[u8], at: usize)
    requires { at ≤ length text.now }
{
    if at > MOST_BEGUN {
        return;
    }
    let mut begun = begun_room();
    begun[..at].copy_from_slice(&text[..at]);
    say(out, b"here could stand:");
    if !try_all(out, &mut begun, at, b"()[]{},|/&-Deby0cqs") {
        say(out, b" nothing more");
    }
    say(out, b"\n");
}

// Passes a chart of a text, or a token that begins none. A chart is shown if 52 applies to it.
fn pass(out: &impl Print, text: &[u8], at: usize) -> usize
    requires { at + blanks (drop at text.now) < length text.now }
    ensures { (at < result) × (result ≤ length text.now) }
{
    if lists::begins_chart(text, at) {
        let s = lists::sequential_at(text, at);
        if s.bad {
            say(out, b"in the chart at ");
            show_place(out, text, tokens::next_token(text, at));
        }
        return s.next;
    }
    lists::behind_token(text, at)
}

// The charts of a text to which 52 applies by themselves.
pub fn show_faults(out: &impl Print, text: &[u8]) {
    let mut at: usize = 0;
    while tokens::next_token(text, at) < text.len() {
        at = pass(out, text, at);
    }
}
