// The files that the words of a command name. A file is replaced whole: its new bytes go to a file beside it, which is
// flushed and then takes its name.
ghost use Rattle.std.specs.Prelude.{◌≡◌, ◌+◌, ◌*◌, ◌≤◌, length, IfOk, IfSome};
ghost use Rattle.console.specs.Counts.{IsPrefixLen};

use crate::tell;
use console::Errors;
use std::env::Env;
use std::fs::{Files, OpenFile};
use std::io;
use std::io::{Read, Write};

// A file's name.
#[derive(Clone, Copy)]
pub struct Name {
    pub bytes: [u8; 4096],
    pub count: usize,
}

// Says what is wrong with the file of word i.
fn complain_of(rt: &(impl Env + Errors), i: usize, what: &[u8]) {
    let mut path = console::word_room();
    let n = console::word(rt, i, &mut path);
    tell::complain(rt, what);
    tell::complain(rt, &path[..n]);
    tell::complain(rt, b"\n");
}

pub fn failed(rt: &(impl Env + Errors), i: usize) {
    complain_of(rt, i, b"post: cannot read or write ");
}

fn too_long(rt: &(impl Env + Errors), i: usize) {
    complain_of(rt, i, b"post: too long: ");
}

pub fn no_book(rt: &(impl Env + Errors), i: usize) {
    complain_of(rt, i, b"post: no book, or not a whole one: ");
}

// Whether there is a file of this name.
pub fn is_there(rt: &(impl Env + Files), i: usize) -> bool {
    let mut path = console::word_room();
    let n = console::word(rt, i, &mut path);
    console::open(rt, &path[..n]).is_ok()
}

// Reads the file of this name: how many bytes came, and how many of one byte more. That one tells whether the first
// ones came to its end: it is not there then.
fn read(rt: &impl Files, name: &[u8], bytes: &mut [u8]) -> io::Result<(usize, usize)>
    ensures { IfOk result (λ came. IsPrefixLen came.0 bytes.new) }
{
    let mut file = console::open(rt, name)?;
    let count = console::read_full(&mut file, bytes)?;
    let mut more = [0u8; 1];
    let behind = file.read(&mut more)?;
    Ok((count, behind))
}

// Reads the file of word i: how many bytes it has. Where it was not read, it is said why.
pub fn load(rt: &(impl Env + Files + Errors), i: usize, bytes: &mut [u8]) -> Option<usize>
    ensures { IfSome result (λ n. IsPrefixLen n bytes.new) }
{
    let mut path = console::word_room();
    let n = console::word(rt, i, &mut path);
    let Ok((count, behind)) = read(rt, &path[..n], bytes) else {
        failed(rt, i);
        return None;
    };
    if behind > 0 {
        too_long(rt, i);
        return None;
    }
    Some(count)
}

// Room for a book. Only the length is promised.
pub fn book_room() -> [u8; 2112]
    ensures { 2112 ≡ length result }
{
    [0; 2112]
}

// The name of word i with an ending; no name if it is too long.
fn named(rt: &impl Env, i: usize, ending: &[u8]) -> Name
    ensures { IsPrefixLen result.count result.bytes }
{
    let mut bytes = [0u8; 4096];
    let n = console::word(rt, i, &mut bytes);
    if ending.len() > bytes.len() - n {
        return Name { bytes, count: 0 };
    }
    let count = n + ending.len();
    bytes[n..count].copy_from_slice(ending);
    Name { bytes, count }
}

// Flushes a file that was written, closes it and gives it its name.
fn finish<R: Files>(rt: &R, file: R::File, from: Name, to: Name) -> io::Result<()>
    requires { IsPrefixLen from.count from.bytes × IsPrefixLen to.count to.bytes }
{
    file.sync_all()?;
    drop(file);
    let a = from.bytes;
    let b = to.bytes;
    let m = from.count;
    let n = to.count;
    console::rename(rt, &a[..m], &b[..n])
}

// Opens a file for new bytes.
fn open<R: Files>(rt: &R, name: Name) -> io::Result<R::File>
    requires { IsPrefixLen name.count name.bytes }
{
    let path = name.bytes;
    let n = name.count;
    console::create(rt, &path[..n])
}

// Replaces the file of word i by the first n bytes of a book.
pub fn replace(rt: &(impl Env + Files), i: usize, book: &[u8], n: usize) -> io::Result<()>
    requires { (n ≤ 2080) × (length book.now ≡ 2112) }
{
    let beside = named(rt, i, b".new");
    let mut file = open(rt, beside)?;
    file.write_all(&book[..n])?;
    finish(rt, file, beside, named(rt, i, b""))
}

// Writes n rows of w bytes, as lines, to the file of word i with the ending `.rows`.
pub fn write_rows(
    rt: &(impl Env + Files),
    i: usize,
    rows: &[u8],
    w: usize,
    n: usize,
) -> io::Result<()>
    requires { (14 ≤ w) × (w ≤ 30) × (n ≤ 64) × (length rows.now ≡ 1920) }
{
    let beside = named(rt, i, b".rows.new");
    let mut file = open(rt, beside)?;
    tell::lines(&mut file, rows, w, n)?;
    finish(rt, file, beside, named(rt, i, b".rows"))
}
