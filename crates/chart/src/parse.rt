// A typed text: the file that it means is written, or it is said why there is none, and where the text goes wrong.
use crate::{ask, tell, words};
use checks::refusal::Refusal;
use console::Console;

// Why a text is refused, and where.
fn refused(out: &impl Print, text: &[u8], refusal: Refusal, place: usize) {
    words::text_refusal(out, refusal);
    if refusal == Refusal::BadName {
        caret::show_faults(out, text);
    }
    if refusal != Refusal::NotNotation {
        return;
    }
    if engine::file::check(text).is_ok() {
        words::say(
            out,
            b"this is a chart file already: all other commands take it as it is\n",
        );
        return;
    }
    if place > text.len() {
        return;
    }
    caret::show_place(out, text, place);
    caret::show_possible(out, text, place);
}

// The file is written to where it was asked for, and it is said how long it is.
pub fn read(rt: &impl Console, text: &[u8]) {
    let mut out = tell::out_room();
    match texts::read(text, &mut out) {
        Ok(n) => tell::save(rt, ask::OUT, &out[..n]),
        Err(r) => refused(rt, text, r.refusal, r.place),
    }
}
