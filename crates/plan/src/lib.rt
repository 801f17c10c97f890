// The wiring of a file: its tree folded into masks, once, so that a step looks at no tree. It goes from node 0 up, in
// one table: a node's parts are lower than it and share no chart, so what a part has there stays until the node that
// names it. What the masks are is in the crate wiring (Reach, and after the first nodes Latest), and that a step may go
// by them too.
#![tactic(auto)]

ghost use Rattle.std.specs.Prelude.{◌≡◌, ◌+◌, ◌≤◌, ◌<◌, length, get_or};
ghost use Rattle.signals.specs.Mask.{◌∪◌, ◌∩◌};
ghost use Rattle.meaning.specs.Numbers.{most_charts};
ghost use Rattle.meaning.specs.File.{tree_of, file_at};
ghost use Rattle.cells.specs.Table.{back_row, masks_for, back_at, small_size};
ghost use Rattle.nesting.specs.Known.{Wirable};
ghost use Rattle.nesting.specs.Nearest.{Right};
ghost use Rattle.layout.specs.Row.{RowAt};
ghost use Rattle.plan.specs.ByNode.{Blank, down_in, DownRow, Feeds, Hides, Inside, Charted, ChartsOf, Sets};
ghost use Rattle.plan.specs.ByNode.{WiredTo};
ghost use Rattle.plan.specs.Noted.{Notes, NotedNone, NearestIn};
ghost use Rattle.plan.specs.Plan.{Wired};

use cells::{CHARTS, masks, small};
use layout::body::Shape;
use layout::limits::NODES;
use layout::record::Kind;
use nesting::NONE;

// Each chart is offered of chart d's action what is in m and in its entry of `offered`. Most rows have nothing to feed.
fn feed_row(masks: &mut [u64], charts: usize, d: usize, m: u64, offered: &[u64; CHARTS])
    requires { (masks_for charts ≤ length masks.old) × (charts ≤ most_charts) × (d < charts) }
    ensures { RowAt (back_row d) charts
        (λ c. back_at masks.old c d ∪ (m ∩ get_or offered.now c 0))
        masks.old masks.new }
{
    if m == 0 {
        return;
    }
    for c in 0..charts {
        let all = masks::back(masks, c, d) | (m & offered[c]);
        masks::put_back(masks, c, d, all);
    }
}

// What gets down to chart c, if it is in the set; else nothing.
fn down_in(set: u64, down: &[u64; CHARTS], c: usize) -> u64
    requires { c < most_charts }
    ensures { result ≡ down_in set down.now c }
{
    if signals::has(set, c as u32) {
        return down[c];
    }
    0
}

// The same for all charts. Rows are fed from it without a test for each mask, many masks at a time.
fn down_row(set: u64, down: &[u64; CHARTS], charts: usize) -> [u64; CHARTS]
    requires { charts ≤ most_charts }
    ensures { DownRow set down.now charts result }
{
    let mut row = [0u64; CHARTS];
    for c in 0..charts {
        row[c] = down_in(set, down, c);
    }
    row
}

// Feedback of x over the charts of a part: what gets up from d, is in x and gets down to c. Many parts have none.
fn feed(masks: &mut [u64], charts: usize, set: u64, x: u64, down: &[u64; CHARTS])
    requires { (masks_for charts ≤ length masks.old) × (charts ≤ most_charts) }
    ensures { Feeds charts set x down.now masks.old masks.new }
{
    if x == 0 {
        return;
    }
    let offered = down_row(set, down, charts);
    for d in 0..charts {
        if signals::has(set, d as u32) {
            let m = masks::up(masks, d) & x;
            feed_row(masks, charts, d, m, &offered);
        }
    }
}

// Hides x on the way into a part with these charts, and y on the way out.
fn hide(masks: &mut [u64], charts: usize, set: u64, x: u64, y: u64, down: &mut [u64; CHARTS])
    requires { (masks_for charts ≤ length masks.old) × (charts ≤ most_charts) × (length down.old ≡ most_charts) }
    ensures { Hides charts set x y down.old down.new masks.old
        masks.new }
{
    for c in 0..charts {
        if signals::has(set, c as u32) {
            down[c] = signals::less(down[c], x);
            let up = signals::less(masks::up(masks, c), y);
            masks::put_up(masks, c, up);
        }
    }
}

// A set of charts has a bit for each.
fn wide(set: u16) -> u64
    ensures { result ≡ set }
{
    set as u64
}

// The charts inside chart c's slaves. `sets` has those of each node's part.
fn inside(n: Shape, body: &[u8], c: u8, sets: &[u16; NODES]) -> u64
    requires { Wirable n body.now }
    ensures { Inside (file_at n body.now) c sets.now n.slaves result }
{
    let mut set: u64 = 0;
    for i in 0..n.slaves {
        let slave = layout::body::slave_at(n, body, i);
        if slave.chart == c {
            let k = slave.node as usize;
            set = set | wide(sets[k]);
        }
    }
    set
}

// A chart and its slaves: everything gets down to the chart itself, and up from it, and its feedback goes over them
// all. Most charts have no slaves. The result is the set of these charts.
fn wire_chart(
    n: Shape,
    body: &[u8],
    a: u8,
    sets: &[u16; NODES],
    masks: &mut [u64],
    down: &mut [u64; CHARTS],
) -> u64
    requires { Wirable n body.now × (a < n.charts) × (masks_for n.charts ≤ length masks.old)
        × (length down.old ≡ most_charts) }
    ensures { Charted (file_at n body.now) a sets.now result down.old
        down.new
        masks.old masks.new }
{
    let d = a as usize;
    let head = layout::body::head_at(n, body, d);
    let inner = inside(n, body, a, sets);
    let set = signals::with(inner, a as u32);
    down[d] = signals::ALL;
    masks::put_up(masks, d, signals::ALL);
    if inner == 0 {
        let offered = masks::back(masks, d, d) | (signals::ALL & head.feedback);
        masks::put_back(masks, d, d, offered);
        return set;
    }
    feed(masks, n.charts, set, head.feedback, down);
    set
}

// Wires node j, after all lower nodes. The result is the set of the charts in its part.
fn wire_node(
    n: Shape,
    body: &[u8],
    j: usize,
    sets: &[u16; NODES],
    masks: &mut [u64],
    down: &mut [u64; CHARTS],
) -> u64
    requires { Wirable n body.now × (j < n.nodes) × (masks_for n.charts ≤ length masks.old)
        × Sets (file_at n body.now) j sets.now × WiredTo (file_at n body.now) j down.old masks.old }
    ensures { ChartsOf result (tree_of (file_at n body.now) j)
        × WiredTo (file_at n body.now) (j + 1) down.new masks.new }
{
    let node = layout::body::node_at(n, body, j);
    let a = node.a as usize;
    let b = node.b as usize;
    match Kind::of(node.kind) {
        Kind::Holds => wire_chart(n, body, node.a, sets, masks, down),
        Kind::Composes => {
            let set = wide(sets[a]) | wide(sets[b]);
            feed(masks, n.charts, set, node.x, down);
            set
        }
        Kind::Hides => {
            let set = wide(sets[a]);
            hide(masks, n.charts, set, node.x, node.y, down);
            set
        }
    }
}

// A chart stands in the slave that its node stands in: its master and state are noted in a search's small numbers.
fn note(n: Shape, body: &[u8], j: usize, near: &[u8], small: &mut [u8])
    requires { Wirable n body.now × (j < n.nodes) × (length near.now ≡ 64)
        × Right (file_at n body.now) near.now j × (length small.old ≡ small_size) }
    ensures { Notes (file_at n body.now) j small.old small.new }
{
    let node = layout::body::node_at(n, body, j);
    if let Kind::Holds = Kind::of(node.kind) {
        let slave = nesting::enclosing(n, body, j, near);
        let c = node.a as usize;
        small::put_nearest(small, c, slave.chart, slave.state);
    }
}

// Every chart stands outside all slaves.
fn note_none(small: &mut [u8])
    requires { length small.old ≡ small_size }
    ensures { NotedNone most_charts small.new }
{
    for c in 0..CHARTS {
        small::put_nearest(small, c, NONE, 0);
    }
}

// Of each chart the master and the state of its nearest enclosing slave, in a search's small numbers. Many files have
// no slave.
pub fn nearest(n: Shape, body: &[u8], small: &mut [u8])
    requires { Wirable n body.now × (length small.old ≡ small_size) }
    ensures { NearestIn (file_at n body.now) small.new }
{
    if n.slaves == 0 {
        note_none(small);
        return;
    }
    let near = nesting::enclosers(n, body);
    let nodes = n.nodes;
    for j in 0..nodes {
        note(n, body, j, &near, small);
    }
}

// Wires a file that passed its check, into tables that are new: the feedback and `up` go into a search's masks, the
// nearest slaves into its small numbers. The result is what of the input gets down to each chart.
pub fn wired(n: Shape, body: &[u8], masks: &mut [u64], small: &mut [u8]) -> [u64; CHARTS]
    requires { Wirable n body.now × (masks_for n.charts ≤ length masks.old) × Blank masks.old
        × (length small.old ≡ small_size) }
    ensures { Wired (file_at n body.now) result masks.new small.new }
{
    let mut down = [0u64; CHARTS];
    let mut sets = [0u16; NODES];
    let nodes = n.nodes;
    for j in 0..nodes {
        let set = wire_node(n, body, j, &sets, masks, &mut down);
        sets[j] = set as u16;
    }
    nearest(n, body, small);
    down
}
