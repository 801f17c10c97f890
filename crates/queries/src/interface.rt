// The interface of a file's whole: the sets of signals that it takes in and puts out.
ghost use Rattle.std.specs.Prelude.{◌≡◌, ◌+◌, ◌≤◌, ◌<◌};
ghost use Rattle.signals.specs.Mask.{◌∪◌};
ghost use Rattle.layout.specs.Body.{from, transition_at};
ghost use Rattle.meaning.specs.Meaning.{guards, actions, in_face, out_face};
ghost use Rattle.meaning.specs.File.{file_at, whole_of};
ghost use Rattle.meaning.specs.Check.Nodes.{Treed};
ghost use Rattle.checks.specs.Known.{Sized, Summed};
ghost use Rattle.queries.specs.Promises.{InterfaceSays};
ghost use Rattle.queries.specs.Faces.{OwnOf};

use checks::limits::MOST_CHARTS;
use checks::refusal::Refusal;
use layout::body::Shape;

#[derive(Clone, Copy)]
pub struct Faces {
    pub input: u64,
    pub output: u64,
}

// Of each chart alone, both interfaces.
#[derive(Clone, Copy)]
struct Own {
    input: [u64; MOST_CHARTS as usize],
    output: [u64; MOST_CHARTS as usize],
}

// The extra set, and what the guards of `count` transitions from `start` on name.
fn guards(n: Shape, body: &[u8], start: usize, count: usize, extra: u64) -> u64
    requires { Sized n body.now × (start + count ≤ n.transitions) }
    ensures { result ≡ guards (from (transition_at n body.now) start count) ∪ extra }
{
    let mut all = extra;
    for k in 0..count {
        let t = layout::body::transition_at(n, body, start + k);
        all = all | t.needed | t.barred;
    }
    all
}

// The actions of `count` transitions from `start` on.
fn actions(n: Shape, body: &[u8], start: usize, count: usize) -> u64
    requires { Sized n body.now × (start + count ≤ n.transitions) }
    ensures { result ≡ actions (from (transition_at n body.now) start count) }
{
    let mut all: u64 = 0;
    for k in 0..count {
        let t = layout::body::transition_at(n, body, start + k);
        all = all | t.action;
    }
    all
}

fn charts(n: Shape, body: &[u8]) -> Own
    requires { Sized n body.now × Summed n body.now }
    ensures { OwnOf (file_at n body.now) result.input result.output n.charts }
{
    let mut input = [0u64; MOST_CHARTS as usize];
    let mut output = [0u64; MOST_CHARTS as usize];
    let mut start: usize = 0;
    for c in 0..n.charts {
        let h = layout::body::head_at(n, body, c);
        let count = h.transitions as usize;
        input[c] = guards(n, body, start, count, h.extra);
        output[c] = actions(n, body, start, count);
        start += count;
    }
    Own { input, output }
}

// Of a body that no check refuses.
fn of_body(n: Shape, body: &[u8]) -> Faces
    requires { Sized n body.now × (Summed n body.now × Treed (file_at n body.now)) }
    ensures { result ≡ record {
      input = in_face (file_at n body.now).chart (whole_of (file_at n body.now));
      output = out_face (file_at n body.now).chart (whole_of (file_at n body.now));
    } }
{
    let own = charts(n, body);
    let input = own.input;
    let output = own.output;
    let inputs = parts::table(n, body, &input, parts::Off::Input);
    let outputs = parts::table(n, body, &output, parts::Off::Output);
    let last = n.nodes - 1;
    Faces {
        input: inputs[last],
        output: outputs[last],
    }
}

pub fn interface(file: &[u8]) -> Result<Faces, Refusal>
    ensures { InterfaceSays file.now result }
{
    let o = opening::opened(file)?;
    Ok(of_body(o.shape, o.body))
}
