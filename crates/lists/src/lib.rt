// A sequential chart in a text that spells one, read into numbers: its list of states and its heading, its list of
// transitions, all of it; and whether refusal 52 applies to it. Then what the walk from chart to chart needs: where a
// sequential chart begins, and the place behind a token. What is answered is right if it is there; the functions are
// safe on every text.
#![tactic(auto)]

ghost use Rattle.std.specs.Prelude.{◌≡◌, ◌||◌, ◌≤◌, length};
ghost use Rattle.lists.specs.Lists.{gap, Lists, StatesFrom, StatesAt, HeadingAt};
ghost use Rattle.lists.specs.Found.{letter?, width, TokenAt, BeginsAt};
ghost use Rattle.lists.specs.Lists.{lacks, TransitionsFrom, TransitionsAt, ExtraAt, SequentialAt};

// States are q0 to q15.
const STATES: u64 = reading::NAMED_STATES as u64;

// Names read so far.
#[derive(Clone, Copy)]
pub struct Listed {
    pub mask: u64,
    pub bad: bool,
}

// A list of states: its first state as far as it matters, how many there are, their mask, whether the list is refused,
// and the place behind it.
#[derive(Clone, Copy)]
pub struct StateList {
    pub first: u64,
    pub count: usize,
    pub mask: u64,
    pub bad: bool,
    pub next: usize,
}

// One name more, of names below a limit: it is bad if it is out of range or given before.
pub fn with_name(mask: u64, bad: bool, n: u64, limit: u64) -> Listed
    requires { limit ≤ 64 }
    ensures { Lists limit mask bad n result }
{
    if n < limit {
        return Listed {
            mask: signals::with(mask, n as u32),
            bad: bad | signals::has(mask, n as u32),
        };
    }
    Listed {
        mask: mask,
        bad: true,
    }
}

// A number is left out below the highest.
pub fn left_out(mask: u64) -> bool
    ensures { result ≡ gap mask }
{
    !signals::within(mask / 2, mask)
}

// The states from the first name of a list on.
fn states_from(text: &[u8], at: usize) -> StateList
    requires { at ≤ length text.now }
    ensures { StatesFrom text.now at result }
{
    let n = tokens::name_at(text, at);
    let mut so_far = with_name(0, false, n.value, STATES);
    let mut i = n.next;
    let mut commas: usize = 0;
    while tokens::peek(text, i) == b',' {
        let m = tokens::name_at(text, tokens::behind_sign(text, i, 1));
        so_far = with_name(so_far.mask, so_far.bad, m.value, STATES);
        i = m.next;
        commas += 1;
    }
    StateList {
        first: n.value,
        count: commas + 1,
        mask: so_far.mask,
        bad: so_far.bad | left_out(so_far.mask),
        next: tokens::behind_sign(text, i, 1),
    }
}

// A list of states in braces.
pub fn states(text: &[u8], at: usize) -> StateList
    requires { at ≤ length text.now }
    ensures { StatesAt text.now at result }
{
    states_from(text, tokens::behind_sign(text, at, 1))
}

// The heading of a chart: its name and its initial state as far as they matter, how many states there are and their
// mask, the feedback set, whether the heading is refused, and the place behind it.
#[derive(Clone, Copy)]
pub struct Heading {
    pub name: u64,
    pub initial: u64,
    pub count: usize,
    pub mask: u64,
    pub feedback: u64,
    pub bad: bool,
    pub next: usize,
}

// The fields of a chart before its transitions. The initial state has to be the first of the list.
pub fn heading_at(text: &[u8], at: usize) -> Heading
    requires { at ≤ length text.now }
    ensures { HeadingAt text.now at result }
{
    let c = tokens::name_at(text, tokens::behind_sign(text, at, 1));
    let l = states(text, tokens::behind_sign(text, c.next, 1));
    let q = tokens::name_at(text, tokens::behind_sign(text, l.next, 1));
    let x = fields::set(text, tokens::behind_sign(text, q.next, 1));
    Heading {
        name: c.value,
        initial: q.value,
        count: l.count,
        mask: l.mask,
        feedback: x.mask,
        bad: l.bad | ((q.value != l.first) | x.bad),
        next: x.next,
    }
}

// The mask of a chart's states lacks a state.
pub fn lacks(mask: u64, n: u64) -> bool
    ensures { result ≡ lacks mask n }
{
    if n < STATES {
        return !signals::has(mask, n as u32);
    }
    true
}

// A transition is refused: it uses a state that its chart lacks, or a signal out of range.
fn refused(mask: u64, from: u64, to: u64, bad: bool) -> bool
    ensures { result ≡ (lacks mask from || (lacks mask to || bad)) }
{
    lacks(mask, from) | (lacks(mask, to) | bad)
}

// A list of transitions: how many there are, whether one is refused, and the place behind it.
#[derive(Clone, Copy)]
pub struct TransitionList {
    pub count: usize,
    pub bad: bool,
    pub next: usize,
}

// The transitions of a chart with the states of a mask, from the first of a list on.
fn transitions_from(text: &[u8], at: usize, mask: u64) -> TransitionList
    requires { at ≤ length text.now }
    ensures { TransitionsFrom text.now at mask result }
{
    let p = fields::transition_at(text, at);
    let mut bad = refused(mask, p.from, p.to, p.bad);
    let mut i = p.next;
    let mut commas: usize = 0;
    while tokens::peek(text, i) == b',' {
        let q = fields::transition_at(text, tokens::behind_sign(text, i, 1));
        let more = refused(mask, q.from, q.to, q.bad);
        bad = bad | more;
        i = q.next;
        commas += 1;
    }
    TransitionList {
        count: commas + 1,
        bad: bad,
        next: tokens::behind_sign(text, i, 1),
    }
}

// A list of transitions in braces.
pub fn transitions(text: &[u8], at: usize, mask: u64) -> TransitionList
    requires { at ≤ length text.now }
    ensures { TransitionsAt text.now at mask result }
{
    let i = tokens::behind_sign(text, at, 1);
    if tokens::peek(text, i) == b'}' {
        return TransitionList {
            count: 0,
            bad: false,
            next: tokens::behind_sign(text, i, 1),
        };
    }
    transitions_from(text, i, mask)
}

// The extra set, which may be left out, with the comma before it.
fn extra_at(text: &[u8], at: usize) -> fields::SignalSet
    requires { at ≤ length text.now }
    ensures { ExtraAt text.now at result }
{
    if tokens::peek(text, at) == b',' {
        return fields::set(text, tokens::behind_sign(text, at, 1));
    }
    fields::SignalSet {
        mask: 0,
        bad: false,
        next: at,
    }
}

// A sequential chart: its name as far as it matters, what its record in the file says, the mask of its states, whether
// it is refused, and the place behind it.
#[derive(Clone, Copy)]
pub struct Sequential {
    pub name: u64,
    pub states: usize,
    pub initial: u64,
    pub transitions: usize,
    pub feedback: u64,
    pub extra: u64,
    pub mask: u64,
    pub bad: bool,
    pub next: usize,
}

// A sequential chart in round brackets.
pub fn sequential_at(text: &[u8], at: usize) -> Sequential
    requires { at ≤ length text.now }
    ensures { SequentialAt text.now at result }
{
    let h = heading_at(text, at);
    let l = transitions(text, tokens::behind_sign(text, h.next, 1), h.mask);
    let x = extra_at(text, l.next);
    Sequential {
        name: h.name,
        states: h.count,
        initial: h.initial,
        transitions: l.count,
        feedback: h.feedback,
        extra: x.mask,
        mask: h.mask,
        bad: h.bad | (l.bad | x.bad),
        next: tokens::behind_sign(text, x.next, 1),
    }
}

// A byte begins a name.
fn is_letter(b: u8) -> bool
    ensures { result ≡ letter? b }
{
    (b == b'c') | ((b == b'q') | (b == b's'))
}

// How many bytes a sign has, by its first byte.
#[tactic(auto, unfolding(crate::specs::Found::width))]
fn width(b: u8) -> usize
    ensures { result ≡ width b }
{
    match b {
        b'D' => 3,
        b'b' => 2,
        _ => 1,
    }
}

// The place behind the next token.
pub fn behind_token(text: &[u8], at: usize) -> usize
    requires { at ≤ length text.now }
    ensures { TokenAt text.now at result }
{
    let b = tokens::peek(text, at);
    if is_letter(b) {
        return tokens::name_at(text, at).next;
    }
    tokens::behind_sign(text, at, width(b))
}

// A sequential chart begins with the next token: a bracket, and behind it a chart's name.
pub fn begins_chart(text: &[u8], at: usize) -> bool
    requires { at ≤ length text.now }
    ensures { BeginsAt text.now at result }
{
    if tokens::peek(text, at) == b'(' {
        return tokens::peek(text, tokens::behind_sign(text, at, 1)) == b'c';
    }
    false
}
