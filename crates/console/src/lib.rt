// What the programs ask of the system: the bytes of a stream, the words of a command, files by the bytes of their
// names, and standard error for bytes that need not be text.
#![tactic(auto)]

ghost use Rattle.std.specs.Prelude.{◌≡◌, ◌<◌, length, take, IfOk};
ghost use Rattle.std.specs.Io.KnownBytes.{Consumes, IsAtEnd};
ghost use Rattle.console.specs.Counts.{IsPrefixLen};

use std::env::{Env, FillError};
use std::fs::Files;
use std::io::{ErrorKind, Print, Read, Stderr};
use std::{fs, io};

// Standard error. `Eprint` takes text alone, and the words of a command may be any bytes.
pub trait Errors {
    type Stream: Print + Drop;

    fn errors(&self) -> Self::Stream;
}

impl Errors for HostRuntime {
    type Stream = Stderr;

    fn errors(&self) -> Stderr {
        self.stderr()
    }
}

// All that a program of commands asks of the system.
pub trait Console: Files + Env + Print + Errors {}

impl Console for HostRuntime {}

// Reads until a buffer is full or a stream ends; how many bytes came. After an error nothing is said of either.
pub fn read_full<R: Read>(stream: &mut R, buffer: &mut [u8]) -> io::Result<usize>
    ensures within { IfOk result (λ n. IsPrefixLen n buffer.new) }
    ensures bytes { IfOk result (λ n. Consumes (R.remaining stream.old) (R.remaining stream.new)
        (take n buffer.new)) }
    ensures ended { IfOk result (λ n. n < length buffer.new → IsAtEnd (R.remaining stream.new)) }
{
    let mut at: usize = 0;
    while at < buffer.len() {
        let n = stream.read(&mut buffer[at..])?;
        if n == 0 {
            return Ok(at);
        }
        at += n;
    }
    Ok(at)
}

// How many words a command has, its own name among them. No room is lent: a word that does not fit is there all the
// same.
pub fn word_count(rt: &impl Env) -> usize {
    for i in 0..usize::MAX {
        if let Err(FillError::NotPresent) = rt.arg(i, &mut []) {
            return i;
        }
    }
    usize::MAX
}

// Word i of a command, at the front of a buffer; how many bytes it has. One that is missing or too long counts as
// empty.
pub fn word(rt: &impl Env, i: usize, buffer: &mut [u8]) -> usize
    ensures { IsPrefixLen result buffer.new }
{
    rt.arg(i, buffer).unwrap_or(0)
}

// Room for a word: the longest name that a file can have.
pub fn word_room() -> [u8; 4096]
    ensures { 4096 ≡ length result }
{
    [0; 4096]
}

// A file's name as text, since std takes no other.
fn path(name: &[u8]) -> io::Result<&str> {
    match str::from_utf8(name) {
        Ok(path) => Ok(path),
        Err(_) => Err(io::Error::from(ErrorKind::InvalidFilename)),
    }
}

// Opens a file to be read.
pub fn open<R: Files>(rt: &R, name: &[u8]) -> io::Result<R::File> {
    fs::open(rt, path(name)?)
}

// Opens a file for new bytes, whatever it had before.
pub fn create<R: Files>(rt: &R, name: &[u8]) -> io::Result<R::File> {
    fs::create(rt, path(name)?)
}

pub fn rename(rt: &impl Files, from: &[u8], to: &[u8]) -> io::Result<()> {
    fs::rename(rt, path(from)?, path(to)?)
}

// Prints a number. As where a text is said, what cannot be printed is let go.
pub fn say_decimal(out: &impl Print, n: u64) {
    let _ = out.print(n);
}

// Prints a set in sixteen hex digits.
pub fn say_hex(out: &impl Print, set: u64) {
    let _ = print!(out; "{set:016x}");
}

#[cfg(test)]
mod tests {
    use super::*;

    // Gives so many bytes, one at a time, and then fails.
    #[derive(Drop)]
    struct Broken {
        left: u8,
    }

    impl Read for Broken {
        fn read(&mut self, buf: &mut [u8]) -> io::Result<usize> {
            if self.left == 0 || buf.is_empty() {
                return Err(io::Error::from(ErrorKind::BrokenPipe));
            }
            self.left -= 1;
            buf[0] = b'x';
            Ok(1)
        }
    }

    // How many bytes are asked for where a reader fails in mid-stream.
    const WORD: usize = 4;

    #[test]
    fn a_failure_in_mid_stream_is_no_end(rt: HostRuntime) {
        let mut buffer = [0u8; WORD];
        assert!(rt; read_full(&mut Broken { left: 2 }, &mut buffer).is_err());
        assert!(rt; read_full(&mut Broken { left: 4 }, &mut buffer).is_ok());
    }

    #[test]
    fn a_name_that_is_no_text_names_no_file(rt: HostRuntime) {
        assert!(rt; open(&rt, b"\xff").is_err());
    }
}
