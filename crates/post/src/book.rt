// A book as bytes (docs/FORMAT.md): a head of 32 bytes with the mark, the length of the file, the number of cases and
// the number of the day last posted; then a record of 32 bytes for each case.
ghost use Rattle.std.specs.Prelude.{◌≡◌, ◌+◌, ◌*◌, ◌<◌, ◌≤◌, length};

use checks::refusal::Refusal;
use desk::{Case, Day, Seen};

// The longest book, and a record more, which tells that a file is longer.
pub const MOST: usize = 2112;

const HEAD: usize = 32;

const RECORD: usize = 32;

// The bytes of "mestbook" as a number.
const MARK: u64 = 7741528753124369773;

// Where the head has the length, the number of cases and the day.
const LENGTH: usize = 8;

const CASES: usize = 16;

const DAY: usize = 24;

// Where a record has the last row, the length and the configuration.
const LAST: usize = 8;

const LONG: usize = 12;

const CONFIG: usize = 13;

// How many cases a book of so many bytes has; 0 if they are no book.
pub fn cases(book: &[u8], count: usize) -> usize
    requires { length book.now ≡ 2112 }
    ensures { result ≤ 64 }
{
    let n = layout::number::le64(book, CASES);
    if layout::number::le64(book, 0) != MARK {
        return 0;
    }
    if layout::number::le64(book, LENGTH) != count as u64 {
        return 0;
    }
    if n > 64 {
        return 0;
    }
    let m = n as usize;
    if count != HEAD + RECORD * m {
        return 0;
    }
    m
}

// The number of the day last posted, 0 if none was.
pub fn last_day(book: &[u8]) -> u64
    requires { length book.now ≡ 2112 }
{
    layout::number::le64(book, DAY)
}

pub fn put_day(book: &mut [u8], day: u64)
    requires { length book.old ≡ 2112 }
{
    layout::number::put64(book, DAY, day);
}

// How many bytes a book of n cases has.
pub fn size(n: usize) -> usize
    requires { n ≤ 64 }
    ensures { result ≤ 2080 }
{
    HEAD + RECORD * n
}

// The head of a book of n cases, before its first day.
fn head(n: usize) -> [u8; HEAD]
    requires { n ≤ 64 }
{
    let mut b = [0u8; HEAD];
    layout::number::put64(&mut b, 0, MARK);
    layout::number::put64(&mut b, LENGTH, size(n) as u64);
    layout::number::put64(&mut b, CASES, n as u64);
    b
}

// The sixteen bytes from a place on.
fn config_at(book: &[u8], at: usize) -> [u8; desk::WIDTH]
    requires { at + 16 ≤ length book.now }
{
    let mut config = [0u8; desk::WIDTH];
    config.copy_from_slice(&book[at..at + desk::WIDTH]);
    config
}

// The record of case k.
pub fn case_at(book: &[u8], k: usize) -> Case
    requires { (k < 64) × (length book.now ≡ 2112) }
{
    let at = HEAD + RECORD * k;
    let config = config_at(book, at + CONFIG);
    Case {
        carried: layout::number::le64(book, at),
        last: layout::number::le32(book, at + LAST),
        length: book[at + LONG],
        config,
    }
}

// The bytes of a record.
fn record_of(c: Case) -> [u8; RECORD] {
    let mut r = [0u8; RECORD];
    layout::number::put64(&mut r, 0, c.carried);
    layout::number::put32(&mut r, LAST, c.last);
    r[LONG] = c.length;
    r[CONFIG..CONFIG + desk::WIDTH].copy_from_slice(&c.config);
    r
}

// 32 bytes from a place on: the head, or a record.
fn put(book: &mut [u8], at: usize, r: [u8; RECORD])
    requires { at + 32 ≤ length book.old }
{
    book[at..at + RECORD].copy_from_slice(&r);
}

// A new book of n cases that all have one record.
pub fn fill(book: &mut [u8], c: Case, n: usize)
    requires { (n ≤ 64) × (length book.old ≡ 2112) }
{
    put(book, 0, head(n));
    let r = record_of(c);
    for k in 0..n {
        put(book, HEAD + RECORD * k, r);
    }
}

// What the file and the first n records say.
pub fn looked(file: &[u8], book: &[u8], n: usize) -> Result<Seen, Refusal>
    requires { (n ≤ 64) × (length book.now ≡ 2112) }
{
    let mut s = consult::unseen(file)?;
    for k in 0..n {
        s = deciding::look_at(s, case_at(book, k));
    }
    Ok(s)
}

// Case k posted. Of an accepted day no test here applies.
fn moved(file: &[u8], c: Case, d: Day, k: usize, charts: usize, rows: &mut [u8]) -> Case
    requires { (k < 64) × (charts ≤ 16) × (length rows.old ≡ 1920) }
{
    if c.length as usize > desk::WIDTH {
        return c;
    }
    if c.last >= desk::LAST_ROW {
        return c;
    }
    advancing::post_one(file, c, d, k, charts, rows)
}

// The first n records posted, with their rows.
pub fn post_cases(file: &[u8], book: &mut [u8], d: Day, n: usize, charts: usize, rows: &mut [u8])
    requires { (n ≤ 64) × (charts ≤ 16) × (length book.old ≡ 2112) × (length rows.old ≡ 1920) }
{
    for k in 0..n {
        let c = moved(file, case_at(book, k), d, k, charts, rows);
        put(book, HEAD + RECORD * k, record_of(c));
    }
}
