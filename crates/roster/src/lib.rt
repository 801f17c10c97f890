// The sequential charts of a text that spells a chart, by number: a walk from one to the next finds where each stands,
// and counts. Then their records, laid down in the order of their numbers (records). What is answered is right if the
// text spells a chart; the functions are safe on every text.
#![tactic(auto)]

ghost use Rattle.std.specs.Prelude.{◌≡◌, ◌+◌, ◌<◌, length, drop};
ghost use Rattle.tokens.specs.Tokens.{blanks};
ghost use Rattle.roster.specs.Roster.{cut, RosterAt};
ghost use Rattle.roster.specs.Walk.{Placed, Enters, Begun, Steps, Closes};

use checks::limits;

pub mod records;

// Charts are c0 to c15.
const CHARTS: u64 = reading::NAMED_CHARTS as u64;

// As many places as a file may have charts.
pub const PLACES: usize = layout::limits::CHARTS;

// Counts are cut here.
const MOST_COUNTED: usize = 65535;

// The charts found so far, or all of them: the mask of their names, whether the names are refused, how many charts
// there are and how many transitions, whether one has too many of them, whether one is refused, the place of each by
// its number, and the place behind the last.
#[derive(Clone, Copy)]
pub struct Roster {
    pub mask: u64,
    pub bad: bool,
    pub charts: usize,
    pub transitions: usize,
    pub crowded: bool,
    pub refused: bool,
    pub places: [usize; PLACES],
    pub next: usize,
}

// A sum as far as it matters.
fn counted(a: usize, b: usize) -> usize
    ensures { result ≡ cut (a + b) }
{
    a.saturating_add(b).min(MOST_COUNTED)
}

// The place of the chart n is noted, if there is room for it.
fn placed(places: [usize; PLACES], n: u64, at: usize) -> [usize; PLACES]
    ensures { Placed places n at result }
{
    let mut noted = places;
    if n < PLACES as u64 {
        noted[n as usize] = at;
    }
    noted
}

// One chart more, which stands at a place.
fn entered(r: Roster, s: lists::Sequential, at: usize) -> Roster
    ensures { Enters r s at result }
{
    let l = lists::with_name(r.mask, r.bad, s.name, CHARTS);
    let before = r.places;
    let places = placed(before, s.name, at);
    Roster {
        mask: l.mask,
        bad: l.bad,
        charts: counted(r.charts, 1),
        transitions: counted(r.transitions, s.transitions),
        crowded: r.crowded | (s.transitions > limits::MOST_IN_CHART as usize),
        refused: r.refused | s.bad,
        places: places,
        next: s.next,
    }
}

// Before the first token.
fn begun() -> Roster
    ensures { Begun result }
{
    Roster {
        mask: 0,
        bad: false,
        charts: 0,
        transitions: 0,
        crowded: false,
        refused: false,
        places: [0usize; PLACES],
        next: 0,
    }
}

// One chart further, or one token.
fn step(text: &[u8], r: Roster) -> Roster
    requires { r.next + blanks (drop r.next text.now) < length text.now }
    ensures { Steps text.now r result }
{
    let at = r.next;
    if lists::begins_chart(text, at) {
        return entered(r, lists::sequential_at(text, at), at);
    }
    let next = lists::behind_token(text, at);
    Roster { next, ..r }
}

// Behind the last token: a number may be left out below the highest.
fn closed(r: Roster) -> Roster
    ensures { Closes r result }
{
    Roster {
        bad: r.bad | lists::left_out(r.mask),
        ..r
    }
}

// The sequential charts of a text.
pub fn of_text(text: &[u8]) -> Roster
    ensures { RosterAt text.now result }
{
    let mut r = begun();
    while tokens::next_token(text, r.next) < text.len() {
        r = step(text, r);
    }
    closed(r)
}
