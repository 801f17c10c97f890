// The fields of a chart in a text that spells one, read into numbers: sets of signals, guards, transitions. What is
// answered is right if the field is there; the functions are safe on every text.
#![tactic(auto)]

ghost use Rattle.std.specs.Prelude.{◌≤◌, length};
ghost use Rattle.fields.specs.Fields.{Joins, SetAt, MembersAt, LiteralAt, LiteralsAt, GuardAt};
ghost use Rattle.fields.specs.Fields.{TransitionAt};

// A set of signals: its mask, whether a signal is out of range, and the place behind it.
#[derive(Clone, Copy)]
pub struct SignalSet {
    pub mask: u64,
    pub bad: bool,
    pub next: usize,
}

// Signals read so far. A guard has two masks and one flag, so a mask and a flag are passed one by one.
#[derive(Clone, Copy)]
pub struct Joined {
    pub mask: u64,
    pub bad: bool,
}

// One signal more.
fn with_signal(mask: u64, bad: bool, n: u64) -> Joined
    ensures { Joins mask bad n result }
{
    if n < 64 {
        return Joined {
            mask: signals::with(mask, n as u32),
            bad: bad,
        };
    }
    Joined {
        mask: mask,
        bad: true,
    }
}

// The signals from the first name of a set on.
fn members(text: &[u8], at: usize) -> SignalSet
    requires { at ≤ length text.now }
    ensures { MembersAt text.now at result }
{
    let n = tokens::name_at(text, at);
    let mut so_far = with_signal(0, false, n.value);
    let mut i = n.next;
    while tokens::peek(text, i) == b',' {
        let m = tokens::name_at(text, tokens::behind_sign(text, i, 1));
        so_far = with_signal(so_far.mask, so_far.bad, m.value);
        i = m.next;
    }
    SignalSet {
        mask: so_far.mask,
        bad: so_far.bad,
        next: tokens::behind_sign(text, i, 1),
    }
}

// A set in braces.
pub fn set(text: &[u8], at: usize) -> SignalSet
    requires { at ≤ length text.now }
    ensures { SetAt text.now at result }
{
    let i = tokens::behind_sign(text, at, 1);
    if tokens::peek(text, i) == b'}' {
        return SignalSet {
            mask: 0,
            bad: false,
            next: tokens::behind_sign(text, i, 1),
        };
    }
    members(text, i)
}

// A guard: the masks of the needed and of the barred signals, whether a signal is out of range, and the place behind
// it.
#[derive(Clone, Copy)]
pub struct Guard {
    pub needed: u64,
    pub barred: u64,
    pub bad: bool,
    pub next: usize,
}

// One literal more, behind what is read of a guard.
fn literal(text: &[u8], at: usize, g: Guard) -> Guard
    requires { at ≤ length text.now }
    ensures { LiteralAt text.now at g result }
{
    if tokens::peek(text, at) == b'-' {
        let n = tokens::name_at(text, tokens::behind_sign(text, at, 1));
        let j = with_signal(g.barred, g.bad, n.value);
        return Guard {
            barred: j.mask,
            bad: j.bad,
            next: n.next,
            ..g
        };
    }
    let n = tokens::name_at(text, at);
    let j = with_signal(g.needed, g.bad, n.value);
    Guard {
        needed: j.mask,
        bad: j.bad,
        next: n.next,
        ..g
    }
}

// The literals of a guard, and the slash behind them.
fn literals(text: &[u8], at: usize) -> Guard
    requires { at ≤ length text.now }
    ensures { LiteralsAt text.now at result }
{
    let mut g = literal(
        text,
        at,
        Guard {
            needed: 0,
            barred: 0,
            bad: false,
            next: at,
        },
    );
    let mut i = g.next;
    while tokens::peek(text, i) == b'&' {
        g = literal(text, tokens::behind_sign(text, i, 1), g);
        i = g.next;
    }
    let next = tokens::behind_sign(text, i, 1);
    Guard { next, ..g }
}

// A guard, which may be left out, and the slash behind it.
pub fn guard_at(text: &[u8], at: usize) -> Guard
    requires { at ≤ length text.now }
    ensures { GuardAt text.now at result }
{
    if tokens::peek(text, at) == b'/' {
        return Guard {
            needed: 0,
            barred: 0,
            bad: false,
            next: tokens::behind_sign(text, at, 1),
        };
    }
    literals(text, at)
}

// A transition: its states as far as they matter, its masks, whether a signal is out of range, and the place behind it.
#[derive(Clone, Copy)]
pub struct Passage {
    pub from: u64,
    pub to: u64,
    pub needed: u64,
    pub barred: u64,
    pub action: u64,
    pub bad: bool,
    pub next: usize,
}

// A transition in round brackets.
pub fn transition_at(text: &[u8], at: usize) -> Passage
    requires { at ≤ length text.now }
    ensures { TransitionAt text.now at result }
{
    let a = tokens::name_at(text, tokens::behind_sign(text, at, 1));
    let b = tokens::name_at(text, tokens::behind_sign(text, a.next, 1));
    let g = guard_at(text, tokens::behind_sign(text, b.next, 1));
    let s = set(text, g.next);
    Passage {
        from: a.value,
        to: b.value,
        needed: g.needed,
        barred: g.barred,
        action: s.mask,
        bad: g.bad | s.bad,
        next: tokens::behind_sign(text, s.next, 1),
    }
}
