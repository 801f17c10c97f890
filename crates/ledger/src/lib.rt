// The posting of a day for a whole book (RULES 11): cases of one chart file, a row for each. Here are the functions
// over slices of records; what is done with one record is in deciding and advancing.
#![tactic(auto)]

ghost use Rattle.std.specs.Prelude.{◌≡◌, length};
ghost use Rattle.meaning.specs.Check.{refusal_of};
ghost use Rattle.meaning.specs.Calls.{laid_over};
ghost use Rattle.checks.specs.Refusals.{Answers};
ghost use Rattle.desk.specs.Posting.{PostSays};
ghost use Rattle.desk.specs.Turns.{no_day, all_taken, unseen_of, all_seen, turn_cases, turn_rows, Postable};

use checks::refusal::Refusal;
use desk::{Case, Day, Entry, Seen};

// What all entries come to, in a book of n cases.
pub fn all_entries(entries: &[Entry], n: usize) -> Day
    ensures { result ≡ all_taken n no_day entries.now }
{
    let mut d = deciding::no_day();
    for entry in entries {
        d = deciding::take_one(d, *entry, n);
    }
    d
}

// What the file and all cases say.
pub fn look_through(file: &[u8], cases: &[Case]) -> Result<Seen, Refusal>
    ensures { Answers (refusal_of file.now) (all_seen (unseen_of file.now) cases.now) result }
{
    let mut s = consult::unseen(file)?;
    for case in cases {
        s = deciding::look_at(s, *case);
    }
    Ok(s)
}

// The first n cases posted.
fn post_all(file: &[u8], cases: &mut [Case], d: Day, n: usize, charts: usize, rows: &mut [u8])
    requires { Postable cases.old n charts (length rows.old) }
    ensures { (cases.new ≡ turn_cases file.now d n 0 cases.old)
        × (rows.new
        ≡ laid_over (turn_rows file.now d charts n 0 cases.old) rows.old) }
{
    for i in 0..n {
        cases[i] = advancing::post_one(file, cases[i], d, i, charts, rows);
    }
}

// The day posted: each case's row, in order, at the front of `rows`, and its record moved on; or a refusal, which
// changes nothing.
pub fn post(
    file: &[u8],
    cases: &mut [Case],
    entries: &[Entry],
    rows: &mut [u8],
) -> Result<(), Refusal>
    ensures { PostSays file.now cases.old entries.now rows.old
        result cases.new rows.new }
{
    let s = look_through(file, cases)?;
    let n = cases.len();
    let d = all_entries(entries, n);
    deciding::decide(s, d.outside, n, rows.len())?;
    post_all(file, cases, d, n, s.charts as usize, rows);
    Ok(())
}
