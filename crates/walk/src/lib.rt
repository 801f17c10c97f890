// The nodes and slaves of a text that spells a chart, laid down as records: brackets that are counted (brackets),
// records written where there is room (room), slaves in the order of a file (order), and the walk over the text, which
// lays down nodes, and slaves as it meets them. What is written is right if the text is there and has no fault, and
// there is room; the functions are safe on every text and every buffer.
#![tactic(auto)]

ghost use Rattle.std.specs.Prelude.{◌≡◌, List, ℕ, ◌+◌, ◌-◌, ◌≤◌, ◌<◌, length};
ghost use Rattle.reading.specs.Numbers.{named_states};
ghost use Rattle.walk.specs.Walk.{sheet, one_node, one_slave, Writes, WritesChart, SequentialAt, ChartAt, PartAt};
ghost use Rattle.walk.specs.Walk.{HiddenAt, BracketedAt, MasterAt, SlavesAt, StateAt, PairAt};
ghost use Rattle.walk.specs.Walk.{TextLaid};

use forms::Form;
use layout::record::{Kind, Node, Slave};

pub mod brackets;
pub mod order;

// A chart is nested so deep at most.
const MOST_DEPTH: usize = reading::MOST_DEPTH as usize;

// Where the walk stands: the place in the text, the number of the next node, and the places of the next records of a
// node and of a slave.
#[derive(Clone, Copy)]
pub struct Cursor {
    pub place: usize,
    pub node: u8,
    pub at: usize,
    pub slaves: usize,
}

// The number behind a node's.
fn one_more(n: u8) -> u8
    ensures { n < 255 → result ≡ n + 1 }
{
    n.saturating_add(1)
}

// The number before a node's.
fn one_less(n: u8) -> u8
    ensures { result ≡ n - 1 }
{
    n.saturating_sub(1)
}

// A number that fits a byte.
fn small(n: u64) -> u8
    ensures { n < 256 → result ≡ n }
{
    u8::try_from(n).unwrap_or(0)
}

// One node more.
fn add_node(c: Cursor, n: Node, out: &mut [u8]) -> Cursor
    ensures { (l : List ℕ) → Writes c.place result.place (sheet c out.old l)
        (sheet result out.new l) (one_node n) }
{
    Cursor {
        node: one_more(c.node),
        at: laying::room::put_node(out, c.at, n),
        ..c
    }
}

// One slave more.
fn add_slave(c: Cursor, s: Slave, list: &mut [u8]) -> Cursor
    ensures { (o : List ℕ) → Writes c.place result.place (sheet c o list.old)
        (sheet result o list.new) (one_slave s) }
{
    Cursor {
        slaves: laying::room::put_slave(list, c.slaves, s),
        ..c
    }
}

// The node of a sequential chart, by its name.
fn add_chart(c: Cursor, name: u64, out: &mut [u8]) -> Cursor
    ensures { (l : List ℕ) → WritesChart c.place result.place name (sheet c out.old l)
        (sheet result out.new l) }
{
    let n = Node {
        kind: Kind::Holds as u8,
        a: small(name),
        b: 0,
        x: 0,
        y: 0,
    };
    add_node(c, n, out)
}

// A sequential chart.
fn sequential(text: &[u8], from: Cursor, out: &mut [u8]) -> Cursor
    requires { from.place ≤ length text.now }
    ensures { (l : List ℕ) → SequentialAt text.now from.place result.place
        (sheet from out.old l) (sheet result out.new l) }
{
    let s = lists::sequential_at(text, from.place);
    let c = Cursor {
        place: s.next,
        ..from
    };
    add_chart(c, s.name, out)
}

// A chart by itself: a part, or two of them with the feedback between them.
#[cycle(descent)]
fn chart(text: &[u8], from: Cursor, left: usize, out: &mut [u8], list: &mut [u8]) -> Cursor
    requires { from.place ≤ length text.now }
    ensures { ChartAt text.now left from.place result.place
        (sheet from out.old list.old) (sheet result out.new list.new) }
{
    let p = part(text, from, left, out, list);
    if tokens::peek(text, p.place) != b'|' {
        return p;
    }
    let x = fields::set(text, tokens::behind_sign(text, p.place, 1));
    let c = Cursor {
        place: tokens::behind_sign(text, x.next, 1),
        ..p
    };
    let q = part(text, c, left, out, list);
    let n = Node {
        kind: Kind::Composes as u8,
        a: one_less(p.node),
        b: one_less(q.node),
        x: x.mask,
        y: 0,
    };
    add_node(q, n, out)
}

// A part of a composition.
#[cycle(descent)]
fn part(text: &[u8], from: Cursor, left: usize, out: &mut [u8], list: &mut [u8]) -> Cursor
    requires { from.place ≤ length text.now }
    ensures { PartAt text.now left from.place result.place
        (sheet from out.old list.old) (sheet result out.new list.new) }
{
    if left == 0 {
        return from;
    }
    let f = forms::form_at(text, from.place);
    match f {
        Form::Sequential => sequential(text, from, out),
        Form::Decomposed => master(text, from, left - 1, out, list),
        Form::Hidden => hidden(text, from, left - 1, out, list),
        Form::Bracketed => bracketed(text, from, left - 1, out, list),
    }
}

// A chart between two hiding sets, either of which may be left out.
#[cycle(descent)]
fn hidden(text: &[u8], from: Cursor, left: usize, out: &mut [u8], list: &mut [u8]) -> Cursor
    requires { from.place ≤ length text.now }
    ensures { HiddenAt text.now left from.place result.place
        (sheet from out.old list.old) (sheet result out.new list.new) }
{
    let x = forms::optional_set_at(text, from.place);
    let inside = Cursor {
        place: tokens::behind_sign(text, x.next, 1),
        ..from
    };
    let c = chart(text, inside, left, out, list);
    let y = forms::optional_set_at(text, tokens::behind_sign(text, c.place, 1));
    let behind = Cursor { place: y.next, ..c };
    let n = Node {
        kind: Kind::Hides as u8,
        a: one_less(c.node),
        b: 0,
        x: x.mask,
        y: y.mask,
    };
    add_node(behind, n, out)
}

// A chart in round brackets.
#[cycle(descent)]
fn bracketed(text: &[u8], from: Cursor, left: usize, out: &mut [u8], list: &mut [u8]) -> Cursor
    requires { from.place ≤ length text.now }
    ensures { BracketedAt text.now left from.place result.place
        (sheet from out.old list.old) (sheet result out.new list.new) }
{
    let inside = Cursor {
        place: tokens::behind_sign(text, from.place, 1),
        ..from
    };
    let c = chart(text, inside, left, out, list);
    Cursor {
        place: tokens::behind_sign(text, c.place, 1),
        ..c
    }
}

// A master behind its slaves: Dec master by {slaves}.
#[cycle(descent)]
fn master(text: &[u8], from: Cursor, left: usize, out: &mut [u8], list: &mut [u8]) -> Cursor
    requires { from.place ≤ length text.now }
    ensures { MasterAt text.now left from.place result.place
        (sheet from out.old list.old) (sheet result out.new list.new) }
{
    let s = lists::sequential_at(text, tokens::behind_sign(text, from.place, 3));
    let by = tokens::behind_sign(text, s.next, 2);
    let inside = Cursor {
        place: tokens::behind_sign(text, by, 1),
        ..from
    };
    let last = slaves(text, inside, small(s.name), left, out, list);
    let behind = Cursor {
        place: tokens::behind_sign(text, last.place, 1),
        ..last
    };
    add_chart(behind, s.name, out)
}

// The slaves of a master, by state, up to the brace behind them.
#[cycle(descent)]
fn slaves(
    text: &[u8],
    from: Cursor,
    name: u8,
    left: usize,
    out: &mut [u8],
    list: &mut [u8],
) -> Cursor
    requires { from.place ≤ length text.now }
    ensures { SlavesAt text.now name left from.place result.place
        (sheet from out.old list.old) (sheet result out.new list.new) }
{
    let mut c = from;
    for state in 0..order::STATES {
        let first = Cursor {
            place: from.place,
            ..c
        };
        c = of_state(text, first, name, state, left, out, list);
    }
    Cursor {
        place: brackets::close_at(text, from.place),
        ..c
    }
}

// The slaves of one state of a master, in their order, up to the brace behind all slaves.
#[cycle(descent)]
fn of_state(
    text: &[u8],
    from: Cursor,
    name: u8,
    state: u8,
    left: usize,
    out: &mut [u8],
    list: &mut [u8],
) -> Cursor
    requires { (from.place ≤ length text.now) × (state < named_states) }
    ensures { StateAt text.now name state left from.place result.place
        (sheet from out.old list.old) (sheet result out.new list.new) }
{
    let mut c = pair(text, from, name, state, left, out, list);
    while tokens::peek(text, c.place) == b',' {
        let next = Cursor {
            place: tokens::behind_sign(text, c.place, 1),
            ..c
        };
        c = pair(text, next, name, state, left, out, list);
    }
    c
}

// A slave of a master, if it is of a state.
#[cycle(descent)]
fn pair(
    text: &[u8],
    from: Cursor,
    name: u8,
    state: u8,
    left: usize,
    out: &mut [u8],
    list: &mut [u8],
) -> Cursor
    requires { (from.place ≤ length text.now) × (state < named_states) }
    ensures { PairAt text.now name state left from.place result.place
        (sheet from out.old list.old) (sheet result out.new list.new) }
{
    let q = tokens::name_at(text, tokens::behind_sign(text, from.place, 1));
    let first = tokens::behind_sign(text, q.next, 1);
    let behind = tokens::behind_sign(text, brackets::close_at(text, first), 1);
    if q.value != state as u64 {
        return Cursor {
            place: behind,
            ..from
        };
    }
    let inside = Cursor {
        place: first,
        ..from
    };
    let c = chart(text, inside, left, out, list);
    let s = Slave {
        chart: name,
        state: state,
        node: one_less(c.node),
    };
    let end = Cursor { place: behind, ..c };
    add_slave(end, s, list)
}

// The nodes of a text, at a place of a buffer, and its slaves as they are met, from the beginning of another.
pub fn lay(text: &[u8], out: &mut [u8], at: usize, list: &mut [u8]) -> Cursor
    ensures { TextLaid text.now at out.old list.old out.new
        list.new result }
{
    let from = Cursor {
        place: 0,
        node: 0,
        at: at,
        slaves: 0,
    };
    chart(text, from, MOST_DEPTH, out, list)
}
