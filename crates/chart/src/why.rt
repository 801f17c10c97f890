// What transitions lack, in sentences: for the help desk.
ghost use Rattle.std.specs.Prelude.{◌≡◌, ◌≤◌, ◌<◌, length};
ghost use Rattle.checks.specs.Known.{Sized, Summed};

use crate::words::say;
use crate::{ask, words};
use checks::refusal::Refusal;
use console::Console;
use layout::body::Shape;
use signals::guard::Tested;

// A signal, by its number.
fn signal(out: &impl Print, s: u8) {
    say(out, b"s");
    console::say_decimal(out, s as u64);
}

// What the test of a guard shows.
fn tested(out: &impl Print, t: Tested) {
    match t {
        Tested::Met => say(out, b"met\n"),
        Tested::Absent(s) => {
            say(out, b"needs ");
            signal(out, s);
            say(out, b", which is not offered\n");
        }
        Tested::Present(s) => {
            say(out, b"bars ");
            signal(out, s);
            say(out, b", which is offered\n");
        }
    }
}

// The answer to a question.
fn answer(out: &impl Print, a: Result<Tested, Refusal>) {
    match a {
        Ok(t) => tested(out, t),
        Err(r) => words::question_refusal(out, r),
    }
}

pub fn lacking(rt: &impl Console, file: &[u8]) {
    let Some(chart) = ask::number(rt, ask::CHART) else {
        return;
    };
    let Some(place) = ask::number(rt, ask::PLACE) else {
        return;
    };
    let Some(set) = ask::set(rt, ask::OFFERED) else {
        return;
    };
    answer(
        rt,
        engine::lacking::lacking(file, chart as usize, place as usize, set),
    );
}

// One transition of a chart, at a place of its list.
fn line(out: &impl Print, n: Shape, body: &[u8], c: usize, place: usize, set: u64)
    requires { Sized n body.now × Summed n body.now }
{
    say(out, b"chart ");
    console::say_decimal(out, c as u64);
    say(out, b" transition ");
    console::say_decimal(out, place as u64);
    say(out, b" ");
    answer(out, lacks::of_body(n, body, c, place, set));
}

// The transitions of chart c that leave a state, a line each.
fn lines(out: &impl Print, n: Shape, body: &[u8], c: usize, state: u8, set: u64)
    requires { Sized n body.now × Summed n body.now × (c < n.charts) }
{
    let count = layout::body::head_at(n, body, c).transitions as usize;
    for place in 0..count {
        if lacks::at_place(n, body, c, place).from == state {
            line(out, n, body, c, place, set);
        }
    }
}

// The same of all charts, in a configuration.
fn all_lines(out: &impl Print, n: Shape, body: &[u8], config: &[u8], set: u64)
    requires { Sized n body.now × Summed n body.now × (n.charts ≤ length config.now) }
{
    for c in 0..n.charts {
        lines(out, n, body, c, config[c], set);
    }
}

// The same of a file that is in order, for a configuration of it.
fn all_of(out: &impl Print, file: &[u8], config: &[u8], set: u64) {
    let Ok(o) = opening::opened(file) else {
        return;
    };
    if config.len() < o.shape.charts {
        return;
    }
    all_lines(out, o.shape, o.body, config, set);
    say(
        out,
        b"under the input alone; what charts feed back to each other may change this\n",
    );
}

// Each transition that a chart could take from its present state. A run of no inputs tests the file and the
// configuration.
fn why_of(out: &impl Print, file: &[u8], config: &[u8], set: u64) {
    let inputs = [0u64; 0];
    let mut rows = [0u8; 0];
    match engine::run::run(file, config, 0, &inputs, &mut rows) {
        Ok(_) => all_of(out, file, config, set),
        Err(r) => words::refusal(out, r),
    }
}

pub fn why(rt: &impl Console, file: &[u8]) {
    let c = ask::config(rt);
    let k = c.count;
    if k == 0 {
        return;
    }
    let Some(set) = ask::set(rt, ask::INPUT) else {
        return;
    };
    let config = c.states;
    why_of(rt, file, &config[..k], set);
}
