// What a day's posting is decided by (RULES 11): its entries joined case by case, its cases looked at, and then
// the refusal, if there is one. One record at a time, by value.
#![tactic(auto)]

ghost use Rattle.std.specs.Prelude.{◌≡◌, ◌≤◌, get_or};
ghost use Rattle.meaning.specs.Numbers.{most_charts};
ghost use Rattle.meaning.specs.Sums.{any_up_to};
ghost use Rattle.meaning.specs.Check.{not_below};
ghost use Rattle.checks.specs.Refusals.{told};
ghost use Rattle.desk.specs.Turns.{joined_at, taken_of, no_day, bad_of, seen_of, verdict_of, decided_of};

use checks::refusal::Refusal;
use desk::{Case, Day, Entry, Seen};

// ── the entries ──

pub fn no_day() -> Day
    ensures { result ≡ no_day }
{
    Day {
        sets: [0u64; desk::CASES],
        outside: false,
    }
}

// A set joined to that of a case; past the cases that a book may have, nothing is kept.
fn joined_at(sets: [u64; desk::CASES], at: usize, signals: u64) -> [u64; desk::CASES]
    ensures { result ≡ joined_at sets at signals }
{
    if at >= desk::CASES {
        return sets;
    }
    let mut next = sets;
    next[at] = sets[at] | signals;
    next
}

// One entry more, in a book of n cases.
pub fn take_one(d: Day, e: Entry, n: usize) -> Day
    ensures { result ≡ taken_of n d e }
{
    let old = d.sets;
    let sets = joined_at(old, e.number as usize, e.signals);
    let outside = d.outside || e.number as usize >= n;
    Day { sets, outside }
}

// ── a case looked at ──

// 21: one of n states that its chart lacks.
fn bad_state(config: [u8; desk::WIDTH], states: [u8; layout::limits::CHARTS], n: usize) -> bool
    requires { n ≤ most_charts }
    ensures { result ≡ any_up_to n (λ k. not_below (get_or config k 0) (get_or states k 0)) }
{
    for k in 0..n {
        if config[k] >= states[k] {
            return true;
        }
    }
    false
}

// 20 and 21 of a case.
fn test(s: Seen, c: Case) -> Result<(), Refusal>
    ensures { result ≡ bad_of s c }
{
    let n = c.length as usize;
    if n > layout::limits::CHARTS {
        return Err(Refusal::WrongLength);
    }
    if n != s.charts as usize {
        return Err(Refusal::WrongLength);
    }
    let config = c.config;
    let states = s.states;
    if bad_state(config, states, n) {
        return Err(Refusal::BadState);
    }
    Ok(())
}

// One case more is looked at.
pub fn look_at(s: Seen, c: Case) -> Seen
    ensures { result ≡ seen_of s c }
{
    let tested = s.tested.and(test(s, c));
    let ended = s.ended || c.last >= desk::LAST_ROW;
    let states = s.states;
    Seen {
        tested,
        charts: s.charts,
        states,
        ended,
    }
}

// ── what is decided ──

// 60 to 63 of a day over n cases, with room for so many bytes of rows.
fn verdict(s: Seen, outside: bool, n: usize, room: usize) -> Result<(), Refusal>
    ensures { told result ≡ verdict_of s outside n room }
{
    if n == 0 {
        return Err(Refusal::BadBook);
    }
    if n > desk::CASES {
        return Err(Refusal::BadBook);
    }
    if outside {
        return Err(Refusal::NoSuchCase);
    }
    let ended = s.ended;
    if ended {
        return Err(Refusal::RowsEnd);
    }
    let charts = s.charts as usize;
    if room < n * (desk::ROW + desk::STATES + charts) {
        return Err(Refusal::ShortRows);
    }
    Ok(())
}

// Whether the day is posted: 20 or 21 of the first bad case goes before 60 to 63.
pub fn decide(s: Seen, outside: bool, n: usize, room: usize) -> Result<(), Refusal>
    ensures { told result ≡ decided_of s outside n room }
{
    s.tested.and(verdict(s, outside, n, room))
}
