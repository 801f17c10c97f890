// What is printed in words: refusals, what was expected where something is typed wrong, and the help.
ghost use Rattle.std.specs.Prelude.{◌≤◌, length};

use checks::refusal::Refusal;
use console::Errors;
use std::io;
use std::io::{Cursor, Write};

// Prints a part of an answer. What cannot be printed is let go: no answer depends on who reads it, and an installed
// command's exit status says whether all was passed on (tools/command).
pub fn say(out: &impl Print, text: &[u8]) {
    let _ = out.write_all(text);
}

// Prints a part of a message.
pub fn complain(rt: &impl Errors, text: &[u8]) {
    say(&rt.errors(), text);
}

// Why it is refused. The day program and the posting have their own words for 30, 31 and 60 to 63.
fn say_why(out: &impl Print, refusal: Refusal) {
    match refusal {
        // A file, and what was expected (RULES 3.2).
        Refusal::TooShort => say(out, b"fewer than 12 bytes, so there is no trailer"),
        Refusal::OtherEdition => say(
            out,
            b"the edition is neither 1 nor 2 (a typed chart becomes a file by chart read)",
        ),
        Refusal::BadCounts => say(
            out,
            b"a count in the trailer is out of range: 1 to 16 charts, up to 15 slaves, 1 to 64 \
              nodes, up to 1024 transitions",
        ),
        Refusal::BadDistance => say(
            out,
            b"the distance in the trailer is not the size of the body, or the file is too short \
              for it",
        ),
        Refusal::NotZero => say(out, b"a byte that has to be zero is not"),
        Refusal::BadChart => say(
            out,
            b"a chart needs 1 to 16 states, an initial state among them and at most 64 \
              transitions, and all transitions have to add up to the trailer's number",
        ),
        Refusal::BadTransition => say(
            out,
            b"a transition leaves or enters a state that its chart does not have, or more than 8 \
              leave one state",
        ),
        Refusal::BadSlave => say(
            out,
            b"a slave names a chart, a state or a node that does not exist, or the slaves are not \
              in order of chart and state",
        ),
        Refusal::BadNode => say(
            out,
            b"a node has a kind above 2, holds a chart that does not exist, names a node that is \
              not lower, or fills a field that its kind does not use",
        ),
        Refusal::BadNaming => say(
            out,
            b"the nodes do not make one tree: every chart is in one node, every node but the last \
              has one name, and a slave's node is lower than its master's",
        ),
        Refusal::BadInside => say(
            out,
            b"a chart inside a slave has a number that is not above that of the slave's master",
        ),
        // A configuration, a step or a run (RULES 3.3).
        Refusal::WrongLength => say(out, b"there is not exactly one state for each chart"),
        Refusal::BadState => say(out, b"a state is not one of its chart's"),
        Refusal::ShortBuffer => say(out, b"the buffer is shorter than a configuration"),
        Refusal::NoStep => say(out, b"no choice is permitted"),
        Refusal::ManyOpen => say(out, b"more than 16777216 choices are open"),
        Refusal::NoSuchChart => say(
            out,
            b"the file has no chart of this number; they are counted from 0",
        ),
        Refusal::NoSuchPlace => say(
            out,
            b"the chart's list has no such place; they are counted from 0",
        ),
        Refusal::ShortRun => say(out, b"the buffer is shorter than a row for each input"),
        // A rewriting or a clearing (RULES 3.5).
        Refusal::NoFreeSignal => say(out, b"there are fewer free signals than slaves"),
        Refusal::ManyFromState => say(out, b"more than 8 transitions would leave one state"),
        Refusal::ManyInChart => say(out, b"a chart would have more than 64 transitions"),
        Refusal::ManyNodes => say(out, b"there would be more than 64 nodes"),
        Refusal::ShortOut => say(out, b"the buffer is shorter than the result"),
        Refusal::MayStay => say(
            out,
            b"edition 2, in which charts may stay; only edition 1 can be rewritten, cleared or written as text",
        ),
        // A text (RULES 14).
        Refusal::NotNotation => say(out, b"not the notation of charts"),
        Refusal::TooDeep => say(out, b"charts are nested more than 16 deep"),
        Refusal::BadName => say(
            out,
            b"a name is out of range (c0 to c15, q0 to q15, s0 to s63), a chart or a state of a \
              list is given twice, a number below the highest is left out, an initial state is \
              not the first of its list, or a state is used that its chart lacks",
        ),
        Refusal::OddFront
        | Refusal::TooLong
        | Refusal::BadBook
        | Refusal::NoSuchCase
        | Refusal::RowsEnd
        | Refusal::ShortRows => {}
    }
}

// A refusal's words, to the line's end.
pub fn end_refused(out: &impl Print, refusal: Refusal) {
    say(out, b": ");
    say_why(out, refusal);
    say(out, b"\n");
}

// A whole line of a refusal.
fn refused(out: &impl Print, what: &[u8], refusal: Refusal) {
    say(out, what);
    say(out, b" refused ");
    console::say_decimal(out, refusal.number() as u64);
    end_refused(out, refusal);
}

// Whether the file itself is refused (RULES 3.2), or else what was asked of it.
fn is_of_file(refusal: Refusal) -> bool {
    match refusal {
        Refusal::TooShort
        | Refusal::OtherEdition
        | Refusal::BadCounts
        | Refusal::BadDistance
        | Refusal::NotZero
        | Refusal::BadChart
        | Refusal::BadTransition
        | Refusal::BadSlave
        | Refusal::BadNode
        | Refusal::BadNaming
        | Refusal::BadInside => true,
        _ => false,
    }
}

// The line of a refusal of a file, or else of what was asked of it: its number, its words.
fn file_or(out: &impl Print, what: &[u8], refusal: Refusal) {
    if is_of_file(refusal) {
        refused(out, b"file", refusal);
    } else {
        refused(out, what, refusal);
    }
}

// The line of a refusal of a call: what was refused, its number, its words.
pub fn refusal(out: &impl Print, r: Refusal) {
    match r {
        Refusal::WrongLength
        | Refusal::BadState
        | Refusal::ShortBuffer
        | Refusal::NoStep
        | Refusal::ManyOpen
        | Refusal::NoSuchChart
        | Refusal::NoSuchPlace
        | Refusal::ShortRun => refused(out, b"configuration", r),
        _ => file_or(out, b"rewriting", r),
    }
}

// The same where a file was to be cleared.
pub fn clearing_refusal(out: &impl Print, r: Refusal) {
    file_or(out, b"clearing", r);
}

// The same where a text was to be read; 1 to 11 are those of the file that it means.
pub fn text_refusal(out: &impl Print, r: Refusal) {
    refused(out, b"text", r);
}

// The same where a file was to be written as text.
pub fn writing_refusal(out: &impl Print, r: Refusal) {
    file_or(out, b"writing", r);
}

// The same of a question about a transition.
pub fn question_refusal(out: &impl Print, r: Refusal) {
    file_or(out, b"question", r);
}

// A word that is not what was expected there.
pub fn wrong(rt: &impl Errors, word: &[u8], text: &[u8]) {
    complain(rt, b"chart: \"");
    complain(rt, word);
    complain(rt, text);
}

// Room for an error's words and its number.
const REASON: usize = 128;

// Where the words end: the library puts the system's number behind them, as ` (os error 21)`, and zeros are left of the
// room.
fn reason_end(text: &[u8]) -> usize
    ensures { result ≤ length text.now }
{
    for at in 0..text.len() {
        if text[at] == 0 || text[at..].starts_with(b" (os error ") {
            return at;
        }
    }
    text.len()
}

// The system's words for why a file could not be read or written.
pub fn failed(rt: &impl Errors, path: &[u8], error: &io::Error) {
    let mut reason = Cursor::new([0u8; REASON]);
    let _ = write!(reason, "{error}");
    let text = reason.into_inner();
    let n = reason_end(&text);
    complain(rt, b"chart: ");
    complain(rt, path);
    complain(rt, b": ");
    complain(rt, &text[..n]);
    complain(rt, b"\n");
}

pub fn help(out: &impl Print) {
    say(
        out,
        b"chart: answers questions about a chart file, or about the chart at the end of a longer file.\n\
          \n  \
          chart check FILE               whether the file is in order\n  \
          chart first FILE               the first configuration\n  \
          chart interface FILE           the signals that it looks at, and those that it can output\n  \
          chart plain FILE               whether it is plain: no step of a plain file is marked n\n  \
          chart step FILE CONFIG SET     one step from a configuration, what each chart did, and how many choices \
          are open\n  \
          chart run FILE CONFIG SET..    one step for each set, in order\n  \
          chart rewrite FILE OUT         writes the same chart without slaves to the file OUT\n  \
          chart clear FILE OUT           writes the same chart without dead transitions to the file OUT\n  \
          chart edition FILE N OUT       writes the file under edition N, which is 1 or 2, to the file OUT\n  \
          chart lacking FILE CHART PLACE SET  whether a transition's guard is met when its chart is offered the set, \
          or what it lacks\n  \
          chart why FILE CONFIG SET      the same of each transition from the present states, under the input alone\n  \
          chart read TEXT OUT            writes the file that a typed text means (docs/NOTATION.md) to the file OUT\n  \
          chart write FILE               the chart as such a text, without blanks\n  \
          chart show FILE                the same text laid out, a transition a line\n\
          \n\
          CONFIG is the state of each chart, such as 0.1. SET is a list of signals, such as s0,s3; a number in \
          hex, such as 0x9; or - for none.\n\
          A step is shown as its number, its output in hex, the configuration after it, y if all permitted choices \
          agree or else n, and its\n\
          output as signals; or as its number and why it is refused. A run adds the signals of a refused step to \
          the next set, and shows what\n\
          is carried after the last. CHART and PLACE are numbers: a transition's place in its chart's list, \
          both counted from 0.\n\
          docs/RULES.md has the exact rules.\n",
    );
}
