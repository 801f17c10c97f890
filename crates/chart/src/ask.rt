// What was typed: the command, the file's bytes, a configuration, sets. What is wrong is said on standard error.
ghost use Rattle.std.specs.Prelude.{◌≡◌, ◌≤◌, length, IfOk};
ghost use Rattle.console.specs.Counts.{IsPrefixLen};

use crate::words;
use checks::limits;
use console::{Console, Errors};
use std::env::{Env, FillError};
use std::fs::Files;
use std::io;
use typed::Configuration;

#[derive(Clone, Copy)]
pub enum Command {
    Check,
    First,
    Interface,
    Plain,
    Step,
    Run,
    Rewrite,
    Clear,
    Edition,
    Lacking,
    Why,
    Read,
    Write,
    Show,
    Other,
}

// Whether a file was read, and how many bytes it has.
#[derive(Clone, Copy)]
pub struct Loaded {
    pub is_read: bool,
    pub count: usize,
}

// Where the words stand that follow the command.
const FILE: usize = 2;

const CONFIG: usize = 3;

pub const OUT: usize = 3;

const EDITION: usize = 3;

pub const CHANGED: usize = 4;

const SETS: usize = 4;

pub const CHART: usize = 3;

pub const PLACE: usize = 4;

pub const OFFERED: usize = 5;

pub const INPUT: usize = 4;

// The command's word as a command.
fn command_of(word: &[u8]) -> Command {
    if typed::is(word, b"check") {
        return Command::Check;
    }
    if typed::is(word, b"first") {
        return Command::First;
    }
    if typed::is(word, b"interface") {
        return Command::Interface;
    }
    if typed::is(word, b"plain") {
        return Command::Plain;
    }
    if typed::is(word, b"step") {
        return Command::Step;
    }
    if typed::is(word, b"run") {
        return Command::Run;
    }
    if typed::is(word, b"rewrite") {
        return Command::Rewrite;
    }
    if typed::is(word, b"clear") {
        return Command::Clear;
    }
    if typed::is(word, b"edition") {
        return Command::Edition;
    }
    if typed::is(word, b"lacking") {
        return Command::Lacking;
    }
    if typed::is(word, b"why") {
        return Command::Why;
    }
    if typed::is(word, b"read") {
        return Command::Read;
    }
    if typed::is(word, b"write") {
        return Command::Write;
    }
    if typed::is(word, b"show") {
        return Command::Show;
    }
    Command::Other
}

// A word, at the front of a buffer.
pub fn word(rt: &(impl Env + Errors), i: usize, buffer: &mut [u8]) -> usize
    ensures { IsPrefixLen result buffer.new }
{
    match rt.arg(i, buffer) {
        Ok(n) => n,
        Err(FillError::NotPresent) => 0,
        Err(FillError::TooLong) => {
            words::complain(rt, b"chart: a word is longer than 4,096 bytes.\n");
            0
        }
    }
}

// How many words a command has, at least.
fn fewest(c: Command) -> usize {
    match c {
        Command::Step => 5,
        Command::Run => 5,
        Command::Rewrite => 4,
        Command::Clear => 4,
        Command::Edition => 5,
        Command::Read => 4,
        Command::Lacking => 6,
        Command::Why => 5,
        _ => 3,
    }
}

// Whether a command with so many words is whole: a run may have more than the fewest.
fn is_whole(c: Command, count: usize) -> bool {
    if let Command::Run = c {
        return count >= fewest(c);
    }
    count == fewest(c)
}

// Which command was typed; if there is none of this name, or its words are too few or too many, the help is printed.
pub fn which(rt: &(impl Env + Errors)) -> Command {
    let mut buffer = console::word_room();
    let n = word(rt, 1, &mut buffer);
    let c = command_of(&buffer[..n]);
    if let Command::Other = c {
        words::wrong(rt, &buffer[..n], b"\" is no command.\n\n");
        words::help(&rt.errors());
        return c;
    }
    if is_whole(c, console::word_count(rt)) {
        return c;
    }
    words::wrong(rt, &buffer[..n], b"\" has too few words, or too many.\n\n");
    words::help(&rt.errors());
    Command::Other
}

fn unread() -> Loaded
    ensures { result.count ≡ 0 }
{
    Loaded {
        is_read: false,
        count: 0,
    }
}

// Reads until a file ends or the buffer is full; how many bytes came.
fn read_all<R: io::Read>(stream: &mut R, file: &mut [u8]) -> io::Result<usize>
    ensures { IfOk result (λ count. IsPrefixLen count file.new) }
{
    console::read_full(stream, file)
}

// Reads the file of this name, as far as the buffer goes.
fn read_file(rt: &impl Files, path: &[u8], file: &mut [u8]) -> io::Result<usize>
    ensures { IfOk result (λ count. IsPrefixLen count file.new) }
{
    let mut stream = console::open(rt, path)?;
    read_all(&mut stream, file)
}

// Reads the file that was named.
pub fn load(rt: &impl Console, file: &mut [u8]) -> Loaded
    ensures { IsPrefixLen result.count file.new }
{
    let mut path = console::word_room();
    let n = word(rt, FILE, &mut path);
    match read_file(rt, &path[..n], file) {
        Ok(count) => Loaded {
            is_read: true,
            count,
        },
        Err(error) => {
            words::failed(rt, &path[..n], &error);
            unread()
        }
    }
}

// The configuration that was typed; none if it was typed wrong.
pub fn config(rt: &(impl Env + Errors)) -> Configuration
    ensures { IsPrefixLen result.count result.states }
{
    let mut buffer = console::word_room();
    let n = word(rt, CONFIG, &mut buffer);
    let c = typed::config(&buffer[..n]);
    if c.count == 0 {
        words::wrong(
            rt,
            &buffer[..n],
            b"\" is no configuration. Expected: the state of each chart, 0 to 255, with dots between, as 0.1; \
              at most 64 of them.\n",
        );
    }
    c
}

// No edition has this number.
pub const NO_EDITION: u8 = 0;

// The edition that was typed; none if it was typed wrong.
pub fn edition(rt: &(impl Env + Errors)) -> u8 {
    let mut buffer = console::word_room();
    let n = word(rt, EDITION, &mut buffer);
    if typed::is(&buffer[..n], b"1") {
        return limits::FIRST_EDITION;
    }
    if typed::is(&buffer[..n], b"2") {
        return limits::STAY_EDITION;
    }
    words::wrong(rt, &buffer[..n], b"\" is no edition. Expected: 1 or 2.\n");
    NO_EDITION
}

// How many sets were typed.
pub fn set_count(rt: &impl Env) -> usize {
    let count = console::word_count(rt);
    if count < SETS {
        return 0;
    }
    count - SETS
}

// The number that was typed as word i, of a chart or a place.
pub fn number(rt: &(impl Env + Errors), i: usize) -> Option<u64> {
    let mut buffer = console::word_room();
    let n = word(rt, i, &mut buffer);
    let r = typed::number(18446744073709551615, &buffer[..n]);
    if let None = r {
        words::wrong(
            rt,
            &buffer[..n],
            b"\" is no number. Expected: a chart or a place of its list, counted from 0, as 2.\n",
        );
    }
    r
}

// The set that was typed as word i.
pub fn set(rt: &(impl Env + Errors), i: usize) -> Option<u64> {
    let mut buffer = console::word_room();
    let n = word(rt, i, &mut buffer);
    let s = typed::set(&buffer[..n]);
    if let None = s {
        words::wrong(
            rt,
            &buffer[..n],
            b"\" is no set. Expected: signals s0 to s63 with commas between, as s0,s3; \
              or 0x and 1 to 16 hex digits, as 0x9; or - for none.\n",
        );
    }
    s
}

// The sets that were typed; false if one was typed wrong.
pub fn sets(rt: &(impl Env + Errors), inputs: &mut [u64]) -> bool
    requires { length inputs.old ≤ 1024 }
{
    for (i, input) in inputs.iter_mut().enumerate() {
        let Some(s) = set(rt, SETS + i) else {
            return false;
        };
        *input = s;
    }
    true
}
