// Charts from typed text: which file a text means, or why there is none (docs/NOTATION.md). The call has no
// `requires`: what is wrong is refused.
#![tactic(auto)]

ghost use Rattle.std.specs.Prelude.{◌≡◌, ◌+◌, ◌≤◌, length};
ghost use Rattle.layout.specs.Put.{Put};
ghost use Rattle.reading.specs.Read.{read_file};
ghost use Rattle.texts.specs.Promises.{ReadSays, Delivers};
ghost use Rattle.texts.specs.Shapes.{over?, shape_with};
ghost use Rattle.texts.specs.Ready.{Spelt, Ready};

use checks::limits;
use checks::refusal::Refusal;
use layout::body::Shape;
use outline::Outline;
use recogniser::Wrong;
use roster::Roster;

// Bytes of the slaves, of the nodes and of a whole file, at the most.
const SLAVES: usize = limits::MOST_SLAVES as usize * limits::SLAVE_BYTES;

const NODES: usize = limits::MOST_NODES as usize * limits::NODE_BYTES;

pub const MOST_FILE: usize = limits::MOST_CHARTS as usize * limits::HEAD_BYTES
    + limits::MOST_TRANSITIONS as usize * limits::TRANSITION_BYTES
    + SLAVES
    + NODES
    + limits::TRAILER_BYTES;

// Why a text means no file; and with 50 the place of the first byte that no text could have there, 0 with any other.
#[derive(Clone, Copy, Debug, PartialEq, Eq)]
pub struct Refused {
    pub refusal: Refusal,
    pub place: usize,
}

impl From<Refusal> for Refused {
    ghost from_gives = { λ r e. e ≡ record { refusal = r; place = 0 } };

    fn from(refusal: Refusal) -> Refused {
        Refused { refusal, place: 0 }
    }
}

// The last tests, on the file that the text means: 1 to 11, and 45. If none applies, the file is written to `out`.
fn deliver(file: &[u8], out: &mut [u8]) -> Result<usize, Refused>
    ensures { Delivers file.now out.old result out.new }
{
    opening::opened(file)?;
    if out.len() < file.len() {
        return Err(Refusal::ShortOut.into());
    }
    line::put_word(out, 0, file);
    Ok(file.len())
}

// How many records of each kind a text means; a count is cut where it no longer matters.
fn shape(s: Roster, o: Outline) -> Shape
    ensures { result ≡ shape_with s o }
{
    Shape {
        charts: s.charts,
        transitions: s.transitions,
        slaves: o.slaves,
        nodes: o.nodes,
        edition: limits::FIRST_EDITION as usize,
    }
}

// 3, of numbers that need not fit into their bytes.
fn is_over(m: Shape) -> bool
    ensures { result ≡ over? m }
{
    ((m.charts == 0) | (m.charts > limits::MOST_CHARTS as usize))
        | (m.slaves > limits::MOST_SLAVES as usize)
        | ((m.nodes == 0) | (m.nodes > limits::MOST_NODES as usize))
        | (m.transitions > limits::MOST_TRANSITIONS as usize)
}

fn slave_room() -> [u8; SLAVES]
    ensures { 60 ≡ length result }
{
    [0; SLAVES]
}

fn node_room() -> [u8; NODES]
    ensures { 1280 ≡ length result }
{
    [0; NODES]
}

fn file_room() -> [u8; MOST_FILE]
    ensures { 30408 ≡ length result }
{
    [0; MOST_FILE]
}

// The file that a text means, at the front of `file`, and how long it is. Nodes and slaves are found in one walk, each
// in a room of their own: in the file the slaves stand before the nodes, and sorted.
fn lay(text: &[u8], s: Roster, m: Shape, file: &mut [u8]) -> usize
    requires { Ready text.now s m × (30408 ≤ length file.old) }
    ensures { Put file.old 0 (read_file text.now) file.new result }
{
    let mut tree = node_room();
    let mut list = slave_room();
    let c = walk::lay(text, &mut tree, 0, &mut list);
    let behind_heads = roster::records::heads(text, s, file, 0);
    let behind_lines = roster::records::transitions(text, s, file, behind_heads);
    let behind_slaves = walk::order::put_sorted(&list, c.slaves, file, behind_lines);
    let k = c.at;
    let end = line::put_word(file, behind_slaves, &tree[..k]);
    laying::trailer(m, limits::FIRST_EDITION, file, end);
    end + limits::TRAILER_BYTES
}

// A text to which 51, 52, and 3 and 6 on its own numbers, do not apply.
fn of_ready(text: &[u8], s: Roster, m: Shape, out: &mut [u8]) -> Result<usize, Refused>
    requires { Ready text.now s m }
    ensures { ReadSays text.now out.old result out.new }
{
    let mut file = file_room();
    let n = lay(text, s, m, &mut file);
    deliver(&file[..n], out)
}

// A text that spells a chart.
fn of_chart(text: &[u8], out: &mut [u8]) -> Result<usize, Refused>
    requires { Spelt text.now }
    ensures { ReadSays text.now out.old result out.new }
{
    let Ok(o) = outline::outline_of(text) else {
        return Err(Refusal::TooDeep.into());
    };
    let s = roster::of_text(text);
    if s.bad | o.bad {
        return Err(Refusal::BadName.into());
    }
    let m = shape(s, o);
    if is_over(m) {
        return Err(Refusal::BadCounts.into());
    }
    if s.crowded {
        return Err(Refusal::BadChart.into());
    }
    of_ready(text, s, m, out)
}

// The file that a text means, over the front of `out`, and its length; or why there is none.
pub fn read(text: &[u8], out: &mut [u8]) -> Result<usize, Refused>
    ensures { ReadSays text.now out.old result out.new }
{
    match recogniser::recognise(text) {
        Ok(()) => of_chart(text, out),
        Err(Wrong(place)) => Err(Refused {
            refusal: Refusal::NotNotation,
            place,
        }),
    }
}
