// What a transition lacks (RULES 13): whether its guard is met under an offered set, and if not, the signal that is to
// blame.
#![tactic(auto)]

ghost use Rattle.std.specs.Prelude.{◌≡◌, ◌+◌, ◌<◌};
ghost use Rattle.layout.specs.Body.{head_at, transition_at, start_of};
ghost use Rattle.meaning.specs.File.{file_at};
ghost use Rattle.checks.specs.Known.{Sized, Summed};
ghost use Rattle.checks.specs.Refusals.{numbered};
ghost use Rattle.signals.specs.Guard.{case_of, signal_of};
ghost use Rattle.lacks.specs.Lacking.{test_of, lacking_in};

use checks::refusal::Refusal;
use layout::body::Shape;
use layout::record::Transition;
use signals::guard::Tested;

// The transition at a place of chart c's list.
pub fn at_place(n: Shape, body: &[u8], c: usize, place: usize) -> Transition
    requires { Sized n body.now × Summed n body.now × (c < n.charts)
        × (place < (head_at n body.now c).transitions) }
    ensures { result ≡ transition_at n body.now (start_of n body.now c + place) }
{
    let start = layout::body::start_of(n, body, c);
    layout::body::transition_at(n, body, start + place)
}

// Tests a transition of a chart with this feedback set, its own action counted.
fn test(t: Transition, feedback: u64, offered: u64) -> Tested
    ensures { result ≡ test_of feedback t offered }
{
    let all = offered | t.action & feedback;
    signals::guard::test(t.needed, t.barred, all, all)
}

// The answer for a body that passed 1 to 11.
pub fn of_body(
    n: Shape,
    body: &[u8],
    chart: usize,
    place: usize,
    offered: u64,
) -> Result<Tested, Refusal>
    requires { Sized n body.now × Summed n body.now }
    ensures { numbered result ≡ lacking_in (file_at n body.now) chart place offered }
{
    if chart >= n.charts {
        return Err(Refusal::NoSuchChart);
    }
    let head = layout::body::head_at(n, body, chart);
    if place >= head.transitions as usize {
        return Err(Refusal::NoSuchPlace);
    }
    let t = at_place(n, body, chart, place);
    Ok(test(t, head.feedback, offered))
}

// Which of the three answers a test is, as a number (RULES 13.2).
pub fn case_number(t: Tested) -> u8
    ensures { result ≡ case_of t }
{
    match t {
        Tested::Met => 0,
        Tested::Absent(_) => 1,
        Tested::Present(_) => 2,
    }
}

// The signal that is to blame; 0 where the guard is met.
pub fn signal_number(t: Tested) -> u8
    ensures { result ≡ signal_of t }
{
    match t {
        Tested::Met => 0,
        Tested::Absent(s) => s,
        Tested::Present(s) => s,
    }
}
