// The command line tool. crates/typed reads what is typed, the public calls answer, and the answer is printed here, in
// lines of the day program's form. Answers and refusals go to standard output; what is wrong with a command or a file's
// name goes to standard error.
#![tactic(auto)]

mod ask;
mod edition;
mod parse;
mod tell;
mod why;
mod words;

ghost use Rattle.std.specs.Prelude.{◌≡◌, length};

use ask::Command;
use console::Console;

// The longest file: as long as the day program's input may be (RULES 3.4).
const MOST_BYTES: usize = 65536;

// Room for that and one byte more, which tells that a file is longer. Only the length is promised, so that no proof
// looks at so many zeros.
fn file_room() -> [u8; 65537]
    ensures { 65537 ≡ length result }
{
    [0; 65537]
}

// The longest text that is read: it has room for the longest that `write` and `show` print.
const MOST_TEXT: usize = 1048576;

fn text_room() -> [u8; 1048577]
    ensures { 1048577 ≡ length result }
{
    [0; 1048577]
}

// The answer to a command on its file.
fn answer(rt: &impl Console, c: Command, file: &mut [u8]) {
    match c {
        Command::Check => tell::check(rt, file),
        Command::First => tell::first(rt, file),
        Command::Interface => tell::interface(rt, file),
        Command::Plain => tell::plain(rt, file),
        Command::Step => tell::run(rt, file, true),
        Command::Run => tell::run(rt, file, false),
        Command::Rewrite => tell::rewrite(rt, file),
        Command::Clear => tell::clear(rt, file),
        Command::Edition => edition::change(rt, file),
        Command::Lacking => why::lacking(rt, file),
        Command::Why => why::why(rt, file),
        Command::Write => tell::write(rt, file, false),
        Command::Show => tell::write(rt, file, true),
        Command::Read => {}
        Command::Other => {}
    }
}

// A command on a file.
fn on_file(rt: &impl Console, c: Command) {
    let mut file = file_room();
    let l = ask::load(rt, &mut file);
    if !l.is_read {
        return;
    }
    let n = l.count;
    if n > MOST_BYTES {
        words::complain(rt, b"chart: the file is longer than 65,536 bytes.\n");
        return;
    }
    answer(rt, c, &mut file[..n]);
}

// The command on a text.
fn on_text(rt: &impl Console) {
    let mut text = text_room();
    let l = ask::load(rt, &mut text);
    if !l.is_read {
        return;
    }
    let n = l.count;
    if n > MOST_TEXT {
        words::complain(rt, b"chart: the text is longer than 1,048,576 bytes.\n");
        return;
    }
    parse::read(rt, &text[..n]);
}

fn main(rt: HostRuntime) {
    if console::word_count(&rt) < 2 {
        words::help(&rt);
        return;
    }
    let c = ask::which(&rt);
    match c {
        Command::Other => {}
        Command::Read => on_text(&rt),
        _ => on_file(&rt, c),
    }
}
