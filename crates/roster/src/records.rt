// The records of the sequential charts of a text, laid down in the order of their numbers: heads, transitions. Without
// room nothing is written.
ghost use Rattle.std.specs.Prelude.{◌≡◌, ◌≤◌, ◌%◌, length};
ghost use Rattle.roster.specs.Records.{PlaceOf, HeadAt, record_of, LinesMore, LinesFrom, LinesAt};
ghost use Rattle.roster.specs.Records.{HeadsPut, TransitionsPut};

use crate::Roster;
use layout::record::{Head, Transition};

// A number that is small is itself.
fn byte(n: u64) -> u8
    ensures { result ≡ n % 256 }
{
    (n % 256) as u8
}

// The place of the chart c.
fn place(text: &[u8], r: Roster, c: usize) -> usize
    ensures { PlaceOf text.now r c result }
{
    if c >= crate::PLACES {
        return 0;
    }
    let places = r.places;
    let at = places[c];
    if at < text.len() {
        return at;
    }
    text.len()
}

// ── heads ──

// The head of the chart that stands at a place.
fn head_at(text: &[u8], at: usize) -> Head
    requires { at ≤ length text.now }
    ensures { HeadAt text.now at result }
{
    let s = lists::sequential_at(text, at);
    Head {
        states: byte(s.states as u64),
        initial: byte(s.initial),
        transitions: byte(s.transitions as u64),
        feedback: s.feedback,
        extra: s.extra,
    }
}

// The heads of all charts.
pub fn heads(text: &[u8], r: Roster, out: &mut [u8], at: usize) -> usize
    ensures { HeadsPut text.now r out.old at out.new result }
{
    let charts = r.charts;
    let mut p = at;
    for c in 0..charts {
        p = laying::room::put_head(out, p, head_at(text, place(text, r, c)));
    }
    p
}

// ── transitions ──

// The record of a transition.
fn record_of(t: fields::Passage) -> Transition
    ensures { result ≡ record_of t }
{
    Transition {
        from: byte(t.from),
        to: byte(t.to),
        needed: t.needed,
        barred: t.barred,
        action: t.action,
    }
}

// The transitions that stand behind commas.
fn lines_more(text: &[u8], at: usize, out: &mut [u8], to: usize) -> usize
    requires { at ≤ length text.now }
    ensures { LinesMore text.now at out.old to out.new result }
{
    let mut p = to;
    let mut i = at;
    while tokens::peek(text, i) == b',' {
        let t = fields::transition_at(text, tokens::behind_sign(text, i, 1));
        p = laying::room::put_transition(out, p, record_of(t));
        i = t.next;
    }
    p
}

// The transitions from the first of a list on.
fn lines_from(text: &[u8], at: usize, out: &mut [u8], to: usize) -> usize
    requires { at ≤ length text.now }
    ensures { LinesFrom text.now at out.old to out.new result }
{
    let t = fields::transition_at(text, at);
    let p = laying::room::put_transition(out, to, record_of(t));
    lines_more(text, t.next, out, p)
}

// The transitions of the chart that stands at a place.
fn lines_at(text: &[u8], at: usize, out: &mut [u8], to: usize) -> usize
    requires { at ≤ length text.now }
    ensures { LinesAt text.now at out.old to out.new result }
{
    let h = lists::heading_at(text, at);
    let i = tokens::behind_sign(text, tokens::behind_sign(text, h.next, 1), 1);
    if tokens::peek(text, i) == b'}' {
        return to;
    }
    lines_from(text, i, out, to)
}

// The transitions of all charts.
pub fn transitions(text: &[u8], r: Roster, out: &mut [u8], at: usize) -> usize
    ensures { TransitionsPut text.now r out.old at out.new result }
{
    let charts = r.charts;
    let mut p = at;
    for c in 0..charts {
        p = lines_at(text, place(text, r, c), out, p);
    }
    p
}
