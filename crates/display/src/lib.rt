// A file as text on standard output: in one line, or laid out (docs/NOTATION.md 6 and 7).
#![tactic(auto)]

ghost use Rattle.std.specs.Prelude.{◌≡◌, length};

use checks::refusal::Refusal;

// Room for the longest text. Only the length is promised, so that no proof looks at so many zeros.
fn text_room() -> [u8; writer::MOST_TEXT]
    ensures { 874514 ≡ length result }
{
    [0; writer::MOST_TEXT]
}

// What cannot be printed is let go: whether a file has a text does not depend on who reads it.
fn say(out: &impl Print, text: &[u8]) {
    let _ = out.write_all(text);
}

// The byte at a place; behind the last one, none of the signs.
fn byte_at(text: &[u8], i: usize) -> u8 {
    text.get(i).copied().unwrap_or(0)
}

// A line's end, and two blanks a level.
fn next_line(out: &impl Print, level: u8) {
    say(out, b"\n");
    for _ in 0..level {
        say(out, b"  ");
    }
}

// The text, with a line's end behind the bytes that have one.
fn lay_out(out: &impl Print, text: &[u8]) {
    let mut p = indent::start();
    let mut from: usize = 0;
    for at in 0..text.len() {
        p = indent::behind(p, text[at], byte_at(text, at + 1));
        if p.breaks {
            let end = at + 1;
            say(out, &text[from..end]);
            next_line(out, p.level);
            from = end;
        }
    }
    say(out, &text[from..]);
}

// The text of a file, and a line's end; or why there is none.
pub fn show(out: &impl Print, file: &[u8], laid_out: bool) -> Result<(), Refusal> {
    let mut text = text_room();
    let n = writer::write(file, &mut text)?;
    if laid_out {
        lay_out(out, &text[..n]);
    } else {
        say(out, &text[..n]);
    }
    say(out, b"\n");
    Ok(())
}
