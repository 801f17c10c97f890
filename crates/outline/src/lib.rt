// The outline of a chart in a text that spells one: whether it is nested too deep, how deep it is, whether 52 applies
// to it, and how many nodes and slaves it has. What is answered is right if a chart is there; the functions are safe on
// every text. A chart stands in a chart at most sixteen times, so that the recursion ends; slaves of a master, of which
// there may be many, are read by a loop.
#![tactic(auto)]

ghost use Rattle.std.specs.Prelude.{◌≡◌, ◌+◌, ◌≤◌, ◌<◌, length, Ok};
ghost use Rattle.tokens.specs.Tokens.{cap};
ghost use Rattle.forms.specs.declared.Form.TheVariants.{Sequential, Decomposed, Hidden, Bracketed};
ghost use Rattle.outline.specs.Outline.{Joins, Composes, ChartAt, PartAt, FormedAt, PairAt, SlavesAt, OutlineOf};

// A chart is nested so deep at most.
const MOST_DEPTH: usize = reading::MOST_DEPTH as usize;

// Counts are right below this number, which stands for all from there on.
const MOST_COUNT: usize = 1000;

// How deep a chart is, whether it is refused, how many nodes and slaves it has, and the place behind it.
#[derive(Clone, Copy)]
pub struct Outline {
    pub depth: usize,
    pub bad: bool,
    pub nodes: usize,
    pub slaves: usize,
    pub next: usize,
}

// A chart is deeper than it may be. It is not read further.
#[derive(Clone, Copy)]
pub struct TooDeep;

// The sum of two counts as far as it matters.
fn plus(a: usize, b: usize) -> usize
    ensures { result ≡ cap (a + b) }
{
    a.saturating_add(b).min(MOST_COUNT)
}

// Two charts side by side, one behind the other; bad tells whether what joins them is.
fn joined(p: Outline, bad: bool, q: Outline) -> Outline
    ensures { Joins p bad q result }
{
    Outline {
        depth: p.depth.max(q.depth),
        bad: p.bad | (bad | q.bad),
        nodes: plus(p.nodes, q.nodes),
        slaves: plus(p.slaves, q.slaves),
        next: q.next,
    }
}

// A composition that may be so deep; bad tells whether its feedback set is.
fn composed(left: usize, p: Outline, bad: bool, q: Outline) -> Result<Outline, TooDeep>
    ensures { Composes left p bad q result }
{
    let j = joined(p, bad, q);
    if left <= j.depth {
        return Err(TooDeep);
    }
    Ok(Outline {
        depth: j.depth + 1,
        nodes: plus(j.nodes, 1),
        ..j
    })
}

// A chart that may be so deep: a part, or two with their feedback set between bars.
#[cycle(descent)]
fn chart(text: &[u8], at: usize, left: usize) -> Result<Outline, TooDeep>
    requires { at ≤ length text.now }
    ensures { ChartAt text.now at left result }
{
    let p = part(text, at, left)?;
    if tokens::peek(text, p.next) != b'|' {
        return Ok(p);
    }
    let x = fields::set(text, tokens::behind_sign(text, p.next, 1));
    let q = part(text, tokens::behind_sign(text, x.next, 1), left)?;
    composed(left, p, x.bad, q)
}

// A part of a composition, or a chart that is none.
#[cycle(descent)]
fn part(text: &[u8], at: usize, left: usize) -> Result<Outline, TooDeep>
    requires { at ≤ length text.now }
    ensures { PartAt text.now at left result }
{
    if left == 0 {
        return Err(TooDeep);
    }
    let f = forms::form_at(text, at);
    match f {
        forms::Form::Sequential => Ok(sequential(text, at, left)),
        forms::Form::Decomposed => master(text, at, left),
        forms::Form::Hidden => hidden(text, at, left),
        forms::Form::Bracketed => bracketed(text, at, left),
    }
}

// A sequential chart.
fn sequential(text: &[u8], at: usize, left: usize) -> Outline
    requires { (at ≤ length text.now) × (0 < left) }
    ensures { FormedAt Sequential text.now at left (Ok result) }
{
    let s = lists::sequential_at(text, at);
    Outline {
        depth: 1,
        bad: s.bad,
        nodes: 1,
        slaves: 0,
        next: s.next,
    }
}

// A composition in round brackets, which are no level of their own: what it is a part of is.
#[cycle(descent)]
fn bracketed(text: &[u8], at: usize, left: usize) -> Result<Outline, TooDeep>
    requires { (at ≤ length text.now) × (0 < left) }
    ensures { FormedAt Bracketed text.now at left result }
{
    let both = chart(text, tokens::behind_sign(text, at, 1), left - 1)?;
    let next = tokens::behind_sign(text, both.next, 1);
    Ok(Outline { next, ..both })
}

// A chart in square brackets, with its hiding sets.
#[cycle(descent)]
fn hidden(text: &[u8], at: usize, left: usize) -> Result<Outline, TooDeep>
    requires { (at ≤ length text.now) × (0 < left) }
    ensures { FormedAt Hidden text.now at left result }
{
    let x = forms::optional_set_at(text, at);
    let p = chart(text, tokens::behind_sign(text, x.next, 1), left - 1)?;
    let y = forms::optional_set_at(text, tokens::behind_sign(text, p.next, 1));
    Ok(Outline {
        depth: p.depth + 1,
        bad: x.bad | (p.bad | y.bad),
        nodes: plus(p.nodes, 1),
        slaves: p.slaves,
        next: y.next,
    })
}

// A master with its slaves.
#[cycle(descent)]
fn master(text: &[u8], at: usize, left: usize) -> Result<Outline, TooDeep>
    requires { (at ≤ length text.now) × (0 < left) }
    ensures { FormedAt Decomposed text.now at left result }
{
    let s = lists::sequential_at(text, tokens::behind_sign(text, at, 3));
    let i = tokens::behind_sign(text, tokens::behind_sign(text, s.next, 2), 1);
    let all = slaves(text, i, s.mask, left - 1)?;
    Ok(Outline {
        depth: all.depth + 1,
        bad: s.bad | all.bad,
        nodes: plus(all.nodes, 1),
        ..all
    })
}

// The slaves of a master with the states of a mask, and the brace behind them.
#[cycle(descent)]
fn slaves(text: &[u8], at: usize, mask: u64, left: usize) -> Result<Outline, TooDeep>
    requires { at ≤ length text.now }
    ensures { SlavesAt text.now at mask left result }
{
    let mut all = pair(text, at, mask, left)?;
    while tokens::peek(text, all.next) == b',' {
        let p = pair(text, tokens::behind_sign(text, all.next, 1), mask, left)?;
        all = joined(all, false, p);
    }
    let next = tokens::behind_sign(text, all.next, 1);
    Ok(Outline { next, ..all })
}

// A slave with its state, in round brackets.
#[cycle(descent)]
fn pair(text: &[u8], at: usize, mask: u64, left: usize) -> Result<Outline, TooDeep>
    requires { at ≤ length text.now }
    ensures { PairAt text.now at mask left result }
{
    let q = tokens::name_at(text, tokens::behind_sign(text, at, 1));
    let p = chart(text, tokens::behind_sign(text, q.next, 1), left)?;
    Ok(Outline {
        depth: p.depth,
        bad: lists::lacks(mask, q.value) | p.bad,
        nodes: p.nodes,
        slaves: plus(p.slaves, 1),
        next: tokens::behind_sign(text, p.next, 1),
    })
}

// The outline of the chart that a text spells, unless it is too deep.
pub fn outline_of(text: &[u8]) -> Result<Outline, TooDeep>
    ensures { OutlineOf text.now result }
{
    chart(text, 0, MOST_DEPTH)
}
