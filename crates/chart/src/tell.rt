// The answers, printed on standard output.
ghost use Rattle.std.specs.Prelude.{◌≡◌, ◌+◌, ◌*◌, ◌≤◌, length, IfOk};
ghost use Rattle.layout.specs.Body.{Holds};
ghost use Rattle.meaning.specs.Numbers.{most_charts};
ghost use Rattle.stepping.specs.Step.{Checked};

use crate::words::say;
use crate::{ask, words};
use checks::limits;
use checks::refusal::Refusal;
use console::Console;
use layout::body::Shape;
use std::fs::Files;
use std::io;
use std::io::Write;
use stepping::step::{Refused, Stepped};

// The most sets of one run.
const MOST_SETS: usize = 1024;

// Room for a line or a set as signals, for the sets of a run, for their rows, and for a file that is written.
fn text_room() -> [u8; 256]
    ensures { 256 ≡ length result }
{
    [0; 256]
}

fn set_room() -> [u64; MOST_SETS]
    ensures { 1024 ≡ length result }
{
    [0; MOST_SETS]
}

fn row_room() -> [u8; MOST_SETS * layout::row::MOST_BYTES]
    ensures { 1024 * (10 + most_charts) ≡ length result }
{
    [0; MOST_SETS * layout::row::MOST_BYTES]
}

pub fn out_room() -> [u8; 65536]
    ensures { 65536 ≡ length result }
{
    [0; 65536]
}

pub fn check(out: &impl Print, file: &[u8]) {
    match engine::file::check(file) {
        Ok(()) => say(out, b"accepted\n"),
        Err(r) => words::refusal(out, r),
    }
}

// A configuration's states, with dots between.
fn states(out: &impl Print, config: &[u8])
    requires { length config.now ≤ most_charts }
{
    let mut text = text_room();
    let n = line::put_states(&mut text, 0, config);
    say(out, &text[..n]);
    say(out, b"\n");
}

// The first configuration, at the front of `config`; how many states it has.
fn put_first(file: &[u8], config: &mut [u8]) -> Result<usize, Refusal>
    ensures { IfOk result (λ n. n ≤ most_charts) }
{
    engine::file::first(file, config)?;
    let o = opening::opened(file)?;
    Ok(o.shape.charts)
}

pub fn first(out: &impl Print, file: &[u8]) {
    let mut config = [0u8; layout::limits::CHARTS];
    match put_first(file, &mut config) {
        Ok(n) => states(out, &config[..n]),
        Err(r) => words::refusal(out, r),
    }
}

// A set as signals, to the line's end.
fn signals(out: &impl Print, set: u64) {
    let mut text = text_room();
    let n = typed::show(set, &mut text);
    say(out, b"  ");
    say(out, &text[..n]);
    say(out, b"\n");
}

pub fn interface(out: &impl Print, file: &[u8]) {
    match engine::interface::interface(file) {
        Ok(f) => {
            say(out, b"in ");
            console::say_hex(out, f.input);
            signals(out, f.input);
            say(out, b"out ");
            console::say_hex(out, f.output);
            signals(out, f.output);
        }
        Err(r) => words::refusal(out, r),
    }
}

pub fn plain(out: &impl Print, file: &[u8]) {
    match engine::file::plain(file) {
        Ok(true) => say(out, b"plain\n"),
        Ok(false) => say(out, b"not plain\n"),
        Err(r) => words::refusal(out, r),
    }
}

// The refusal of a row that has one: 23 or 24 (RULES 6.3).
fn of_row(number: u8) -> Refusal {
    if number == Refusal::ManyOpen.number() {
        return Refusal::ManyOpen;
    }
    Refusal::NoStep
}

// A row as the day program's line, and behind it the output as signals, or the refusal's words.
fn row(out: &impl Print, number: u64, row: &[u8])
    requires { (10 ≤ length row.now) × (length row.now ≤ 26) }
{
    let mut text = text_room();
    let n = line::line(number, row, &mut text);
    let end = n - 1;
    say(out, &text[..end]);
    let refusal = row[layout::row::REFUSAL];
    if refusal == limits::ACCEPTED {
        signals(out, layout::number::le64(row, 0));
    } else {
        words::end_refused(out, of_row(refusal));
    }
}

// n rows of w bytes each.
fn rows(out: &impl Print, rows: &[u8], w: usize, n: usize)
    requires { (10 ≤ w) × (w ≤ 10 + most_charts) × ((10 + most_charts) * n ≤ length rows.now) }
{
    let mut at: usize = 0;
    for i in 0..n {
        let e = at + w;
        row(out, i as u64 + 1, &rows[at..e]);
        at = e;
    }
}

// A run of a file that was opened, with nothing carried into it, and what is carried after it.
fn run_of(out: &impl Print, n: Shape, body: &[u8], config: &[u8], inputs: &[u64])
    requires { Checked n body.now × (length inputs.now ≤ 1024) }
{
    let mut space = row_room();
    match running::of_body(n, body, config, 0, inputs, &mut space) {
        Ok(set) => {
            rows(out, &space, layout::row::STATES + n.charts, inputs.len());
            carried(out, set);
        }
        Err(r) => words::refusal(out, r),
    }
}

// What is carried after a run, if that is something.
fn carried(out: &impl Print, set: u64) {
    if set != 0 {
        say(out, b"carried to the next set");
        signals(out, set);
    }
}

// What a chart did: it took the transition at a place of its own list, or none, or stayed.
fn took(out: &impl Print, chart: usize, place: u8) {
    say(out, b"chart ");
    console::say_decimal(out, chart as u64);
    if place == settling::NO_PLACE {
        say(out, b" took no transition\n");
        return;
    }
    if place == settling::STAY_PLACE {
        say(out, b" stayed\n");
        return;
    }
    say(out, b" took transition ");
    console::say_decimal(out, place as u64);
    say(out, b"\n");
}

// What each of so many charts did, a line each.
fn taken(out: &impl Print, charts: usize, places: [u8; layout::limits::CHARTS])
    requires { charts ≤ most_charts }
{
    for c in 0..charts {
        took(out, c, places[c]);
    }
}

// How many choices are open.
fn open_choices(out: &impl Print, n: u64) {
    console::say_decimal(out, n);
    if n == 1 {
        say(out, b" open choice\n");
    } else {
        say(out, b" open choices\n");
    }
}

// The row of a step's answer, with the configuration after it.
fn answer_row(
    output: u64,
    mark: bool,
    refusal: u8,
    next: [u8; layout::limits::CHARTS],
) -> [u8; layout::row::MOST_BYTES] {
    let mut row = [0u8; layout::row::MOST_BYTES];
    layout::number::put64(&mut row, 0, output);
    if mark {
        row[layout::row::MARK] = 1;
    }
    row[layout::row::REFUSAL] = refusal;
    row[layout::row::STATES..].copy_from_slice(&next);
    row
}

// A step that is given: its row, what each of so many charts did, and how many choices are open.
fn given(out: &impl Print, s: Stepped, next: [u8; layout::limits::CHARTS], charts: usize)
    requires { charts ≤ most_charts }
{
    let all = answer_row(s.output, s.mark, limits::ACCEPTED, next);
    let w = layout::row::STATES + charts;
    row(out, 1, &all[..w]);
    let places = s.places;
    taken(out, charts, places);
    if s.open_choices > 0 {
        open_choices(out, s.open_choices);
    }
}

// A step that is refused: its row, and with 24 how many choices are open; or why it was not looked for.
fn not_given(out: &impl Print, r: Refused, next: [u8; layout::limits::CHARTS], charts: usize)
    requires { charts ≤ most_charts }
{
    let refusal = r.refusal;
    match refusal {
        Refusal::NoStep | Refusal::ManyOpen => {
            let all = answer_row(0, false, refusal.number(), next);
            let w = layout::row::STATES + charts;
            row(out, 1, &all[..w]);
        }
        _ => words::refusal(out, refusal),
    }
    if r.open_choices > 0 {
        open_choices(out, r.open_choices);
    }
}

// A step of a file that was opened.
fn step_of(out: &impl Print, n: Shape, body: &[u8], config: &[u8], input: u64)
    requires { Checked n body.now }
{
    let mut next = [0u8; layout::limits::CHARTS];
    match stepping::step::of_body(n, body, config, input, &mut next) {
        Ok(s) => given(out, s, next, n.charts),
        Err(r) => not_given(out, r, next, n.charts),
    }
}

// A run of the sets that were typed, as many as there is room for, and what is left to carry; or a step.
fn run_typed(
    rt: &impl Console,
    n: Shape,
    body: &[u8],
    config: &[u8],
    inputs: &mut [u64],
    is_step: bool,
)
    requires { Checked n body.now × (length inputs.old ≤ 1024) }
{
    if !ask::sets(rt, inputs) {
        return;
    }
    if !is_step {
        run_of(rt, n, body, config, inputs);
        return;
    }
    if inputs.len() > 0 {
        step_of(rt, n, body, config, inputs[0]);
    }
}

// The file is opened once.
pub fn run(rt: &impl Console, file: &[u8], is_step: bool) {
    let count = ask::set_count(rt);
    if count > MOST_SETS {
        words::complain(rt, b"chart: a run takes at most 1,024 sets.\n");
        return;
    }
    let c = ask::config(rt);
    let k = c.count;
    if k == 0 {
        return;
    }
    let config = c.states;
    let mut inputs = set_room();
    match opening::opened(file) {
        Ok(o) => run_typed(
            rt,
            o.shape,
            o.body,
            &config[..k],
            &mut inputs[..count],
            is_step,
        ),
        Err(r) => words::refusal(rt, r),
    }
}

// Writes a file of this name, whatever it had before.
fn write_file(rt: &impl Files, path: &[u8], bytes: &[u8]) -> io::Result<()> {
    let mut file = console::create(rt, path)?;
    file.write_all(bytes)
}

// Writes a file of the name that was typed as word i.
fn is_saved(rt: &impl Console, i: usize, bytes: &[u8]) -> bool {
    let mut path = console::word_room();
    let n = ask::word(rt, i, &mut path);
    match write_file(rt, &path[..n], bytes) {
        Ok(()) => true,
        Err(error) => {
            words::failed(rt, &path[..n], &error);
            false
        }
    }
}

// The same, and says how long the file is.
pub fn save(rt: &impl Console, i: usize, bytes: &[u8]) {
    if is_saved(rt, i, bytes) {
        console::say_decimal(rt, bytes.len() as u64);
        say(rt, b" bytes written\n");
    }
}

pub fn rewrite(rt: &impl Console, file: &[u8]) {
    let mut out = out_room();
    match engine::rewriting::rewriting(file, &mut out) {
        Ok(n) => save(rt, ask::OUT, &out[..n]),
        Err(r) => words::refusal(rt, r),
    }
}

// Says how many transitions chart c lost, if it had more before.
fn lost(out: &impl Print, c: usize, before: u8, after: u8) {
    if after >= before {
        return;
    }
    let n = before - after;
    say(out, b"chart ");
    console::say_decimal(out, c as u64);
    say(out, b" lost ");
    console::say_decimal(out, n as u64);
    if n == 1 {
        say(out, b" transition\n");
    } else {
        say(out, b" transitions\n");
    }
}

// The same of each chart, from the bodies of a file and of the cleared file.
fn lost_in_bodies(out: &impl Print, n: Shape, body: &[u8], m: Shape, cleared: &[u8])
    requires { Holds n body.now × Holds m cleared.now × (n.charts ≤ m.charts) }
{
    for c in 0..n.charts {
        let h = layout::body::head_at(n, body, c);
        let k = layout::body::head_at(m, cleared, c);
        lost(out, c, h.transitions, k.transitions);
    }
}

// The same of each chart, from the files.
fn lost_in_charts(out: &impl Print, file: &[u8], cleared: &[u8]) {
    let Ok(o) = opening::opened(file) else {
        return;
    };
    let Ok(p) = opening::opened(cleared) else {
        return;
    };
    if p.shape.charts < o.shape.charts {
        return;
    }
    lost_in_bodies(out, o.shape, o.body, p.shape, p.body);
}

// Nothing is said of charts that lost none.
pub fn clear(rt: &impl Console, file: &[u8]) {
    let mut out = out_room();
    match engine::clear::clear(file, &mut out) {
        Ok(n) => {
            if is_saved(rt, ask::OUT, &out[..n]) {
                lost_in_charts(rt, file, &out[..n]);
            }
        }
        Err(r) => words::clearing_refusal(rt, r),
    }
}

// The file as text, in one line or laid out.
pub fn write(out: &impl Print, file: &[u8], laid_out: bool) {
    if let Err(r) = display::show(out, file, laid_out) {
        words::writing_refusal(out, r);
    }
}
