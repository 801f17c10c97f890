// Answers recorded calls of the engine: reads commands from standard input, makes each call on buffers filled with one
// byte, and prints a line for it. docs/CASES.md has the format; reference/ makes the commands and the lines that are
// expected.
#![tactic(auto)]

ghost use Rattle.std.specs.Prelude.{◌≡◌, ◌≤◌, ◌<◌, length, IfOk};
ghost use Rattle.console.specs.Counts.{IsPrefixLen};

use checks::limits;
use checks::refusal::Refusal;
use engine::interface::Faces;
use signals::guard::Tested;
use std::io;
use std::io::Read;
use stepping::step::{Refused, Stepped};

const MOST_COMMANDS: u32 = 1000000;

const MOST_BYTES: usize = 65536;

const MOST_INPUTS: usize = 4096;

const FILL: u8 = 0xA5;

// How many places the line of a step shows that was recorded while a file had at most eight charts.
const EARLIER_PLACES: usize = 8;

// A command's header: which call, how many bytes of each kind follow it, and what is carried into a run.
#[derive(Clone, Copy)]
struct Command {
    op: u8,
    name: usize,
    config: usize,
    file: usize,
    room: usize,
    inputs: usize,
    carried: u64,
}

fn header(head: &[u8]) -> Command
    requires { length head.now ≡ 24 }
{
    Command {
        op: head[0],
        name: usize::from(head[1]),
        config: layout::number::le16(head, 2) as usize,
        file: layout::number::le32(head, 4) as usize,
        room: layout::number::le32(head, 8) as usize,
        inputs: layout::number::le16(head, 12) as usize,
        carried: layout::number::le64(head, 16),
    }
}

fn space(out: &impl Print) -> io::Result<()> {
    out.write_all(b" ")
}

// A refusal, after the name of its call.
fn print_refusal(out: &impl Print, call: &[u8], number: u8) -> io::Result<()> {
    out.write_all(call)?;
    out.print(number)
}

// 0, or the number of the refusal.
fn number_of<T: Copy>(answer: Result<T, Refusal>) -> u8 {
    match answer {
        Ok(_) => limits::ACCEPTED,
        Err(refusal) => refusal.number(),
    }
}

// A number, after a space.
fn print_number(out: &impl Print, number: u64) -> io::Result<()> {
    space(out)?;
    out.print(number)
}

fn print_set(out: &impl Print, set: u64) -> io::Result<()> {
    space(out)?;
    print!(out; "{set:016x}")
}

fn print_byte(out: &impl Print, b: u8) -> io::Result<()> {
    print!(out; "{b:02x}")
}

// A step's places, or a buffer after the call, all of it; `-` if it is empty.
fn print_buffer(out: &impl Print, buffer: &[u8]) -> io::Result<()> {
    space(out)?;
    if buffer.len() == 0 {
        out.write_all(b"-")?;
    }
    for b in buffer {
        print_byte(out, *b)?;
    }
    Ok(())
}

fn end_line(out: &impl Print) -> io::Result<()> {
    out.write_all(b"\n")
}

fn print_check(out: &impl Print, file: &[u8]) -> io::Result<()> {
    print_refusal(out, b" check ", number_of(engine::file::check(file)))?;
    end_line(out)
}

fn print_first(out: &impl Print, file: &[u8], config: &mut [u8]) -> io::Result<()> {
    print_refusal(
        out,
        b" first ",
        number_of(engine::file::first(file, config)),
    )?;
    print_buffer(out, config)?;
    end_line(out)
}

fn print_interface(out: &impl Print, file: &[u8]) -> io::Result<()> {
    let answer = engine::interface::interface(file);
    print_refusal(out, b" interface ", number_of(answer))?;
    let faces = answer.unwrap_or(Faces {
        input: 0,
        output: 0,
    });
    print_set(out, faces.input)?;
    print_set(out, faces.output)?;
    end_line(out)
}

fn print_plain(out: &impl Print, file: &[u8]) -> io::Result<()> {
    let answer = engine::file::plain(file);
    print_refusal(out, b" plain ", number_of(answer))?;
    if answer.unwrap_or(false) {
        out.write_all(b" 1")?;
    } else {
        out.write_all(b" 0")?;
    }
    end_line(out)
}

fn print_mark(out: &impl Print, mark: bool) -> io::Result<()> {
    if mark {
        out.write_all(b" y")
    } else {
        out.write_all(b" n")
    }
}

// The first n places of a step; none if there are fewer.
fn print_places(out: &impl Print, places: &[u8], n: usize) -> io::Result<()> {
    if n > places.len() {
        return Ok(());
    }
    print_buffer(out, &places[..n])
}

// A step that is refused has no output and no mark, and no chart took a transition (RULES 1.4).
fn not_given(r: Refused) -> Stepped {
    Stepped {
        places: [settling::NO_PLACE; layout::limits::CHARTS],
        output: 0,
        open_choices: r.open_choices,
        mark: false,
    }
}

// 0 or the refusal's number, and what the step shows.
fn step_told(answer: Result<Stepped, Refused>) -> (u8, Stepped) {
    match answer {
        Ok(s) => (limits::ACCEPTED, s),
        Err(r) => (r.refusal.number(), not_given(r)),
    }
}

// A step with the places of the first eight charts.
fn print_step(
    out: &impl Print,
    file: &[u8],
    config: &[u8],
    input: u64,
    next: &mut [u8],
) -> io::Result<()> {
    let (refusal, s) = step_told(engine::step::step(file, config, input, next));
    print_refusal(out, b" step ", refusal)?;
    print_set(out, s.output)?;
    print_mark(out, s.mark)?;
    let places = s.places;
    print_places(out, &places, EARLIER_PLACES)?;
    print_buffer(out, next)?;
    end_line(out)
}

// A step with all that it answers.
fn print_open(
    out: &impl Print,
    file: &[u8],
    config: &[u8],
    input: u64,
    next: &mut [u8],
) -> io::Result<()> {
    let (refusal, s) = step_told(engine::step::step(file, config, input, next));
    print_refusal(out, b" open ", refusal)?;
    print_set(out, s.output)?;
    print_mark(out, s.mark)?;
    let places = s.places;
    print_buffer(out, &places)?;
    print_number(out, s.open_choices)?;
    print_buffer(out, next)?;
    end_line(out)
}

fn print_run(
    out: &impl Print,
    file: &[u8],
    config: &[u8],
    carried: u64,
    inputs: &[u64],
    rows: &mut [u8],
) -> io::Result<()> {
    let answer = engine::run::run(file, config, carried, inputs, rows);
    print_refusal(out, b" run ", number_of(answer))?;
    print_set(out, answer.unwrap_or(0))?;
    print_buffer(out, rows)?;
    end_line(out)
}

fn print_rewriting(out: &impl Print, file: &[u8], lent: &mut [u8]) -> io::Result<()> {
    let answer = engine::rewriting::rewriting(file, lent);
    print_refusal(out, b" rewrite ", number_of(answer))?;
    print_number(out, answer.unwrap_or(0) as u64)?;
    print_buffer(out, lent)?;
    end_line(out)
}

fn print_clearing(out: &impl Print, file: &[u8], lent: &mut [u8]) -> io::Result<()> {
    let answer = engine::clear::clear(file, lent);
    print_refusal(out, b" clear ", number_of(answer))?;
    print_number(out, answer.unwrap_or(0) as u64)?;
    print_buffer(out, lent)?;
    end_line(out)
}

// An input; one that is not there is the empty set.
fn input_at(inputs: &[u64], i: usize) -> u64 {
    if i < inputs.len() { inputs[i] } else { 0 }
}

// What a transition lacks: the inputs are the chart's number, the place, and the offered set.
fn print_lacking(out: &impl Print, file: &[u8], inputs: &[u64]) -> io::Result<()> {
    let chart = input_at(inputs, 0) as usize;
    let place = input_at(inputs, 1) as usize;
    let answer = engine::lacking::lacking(file, chart, place, input_at(inputs, 2));
    print_refusal(out, b" lacking ", number_of(answer))?;
    // A refusal has 0 in both places.
    let t = answer.unwrap_or(Tested::Met);
    print_number(out, lacks::case_number(t) as u64)?;
    print_number(out, lacks::signal_number(t) as u64)?;
    end_line(out)
}

// A text, in place of the file, that is read into the buffer.
fn print_reading(out: &impl Print, text: &[u8], lent: &mut [u8]) -> io::Result<()> {
    let (refusal, length, place) = match texts::read(text, lent) {
        Ok(length) => (limits::ACCEPTED, length, 0),
        Err(e) => (e.refusal.number(), 0, e.place),
    };
    print_refusal(out, b" read ", refusal)?;
    print_number(out, length as u64)?;
    print_number(out, place as u64)?;
    print_buffer(out, lent)?;
    end_line(out)
}

fn print_writing(out: &impl Print, file: &[u8], lent: &mut [u8]) -> io::Result<()> {
    let answer = writer::write(file, lent);
    print_refusal(out, b" write ", number_of(answer))?;
    print_number(out, answer.unwrap_or(0) as u64)?;
    print_buffer(out, lent)?;
    end_line(out)
}

// The call that a command asks for, on its file, its configuration, what is carried, its inputs and a buffer.
fn print_call(
    out: &impl Print,
    op: u8,
    file: &[u8],
    config: &[u8],
    carried: u64,
    inputs: &[u64],
    lent: &mut [u8],
) -> io::Result<()> {
    match op {
        0 => print_check(out, file),
        1 => print_first(out, file, lent),
        2 => print_interface(out, file),
        3 => print_step(out, file, config, input_at(inputs, 0), lent),
        4 => print_run(out, file, config, carried, inputs, lent),
        5 => print_rewriting(out, file, lent),
        7 => print_clearing(out, file, lent),
        8 => print_open(out, file, config, input_at(inputs, 0), lent),
        9 => print_lacking(out, file, inputs),
        10 => print_reading(out, file, lent),
        11 => print_writing(out, file, lent),
        _ => print_plain(out, file),
    }
}

// Makes the call with the first n inputs, on the first `room` bytes of the buffer.
fn print_within(
    out: &impl Print,
    op: u8,
    file: &[u8],
    config: &[u8],
    carried: u64,
    inputs: &[u64],
    n: usize,
    lent: &mut [u8],
    room: usize,
) -> io::Result<()>
    requires { (n ≤ length inputs.now) × (room ≤ length lent.old) }
{
    print_call(
        out,
        op,
        file,
        config,
        carried,
        &inputs[..n],
        &mut lent[..room],
    )
}

// Reads n bytes to the front of a buffer, or as many as there are; none if they do not fit.
fn read_part<R: Read>(input: &mut R, buffer: &mut [u8], n: usize) -> io::Result<usize>
    ensures { IfOk result (λ got. IsPrefixLen got buffer.new) }
{
    if n > buffer.len() {
        return Ok(0);
    }
    console::read_full(input, &mut buffer[..n])
}

fn read_input<R: Read>(input: &mut R) -> io::Result<u64> {
    let mut word = [0u8; 8];
    console::read_full(input, &mut word)?;
    Ok(layout::number::le64(&word, 0))
}

// Reads n inputs.
fn read_inputs<R: Read>(input: &mut R, inputs: &mut [u64], n: usize) -> io::Result<()>
    requires { n ≤ length inputs.old }
{
    for slot in &mut inputs[..n] {
        *slot = read_input(input)?;
    }
    Ok(())
}

// Reads a command's name and prints it.
fn pass_name<R: Read>(input: &mut R, out: &impl Print, n: usize) -> io::Result<()> {
    let mut name = [0u8; 256];
    let got = read_part(input, &mut name, n)?;
    out.write_all(&name[..got])
}

// Reads what follows a header and answers it; false if it is too large to be read.
fn answer<R: Read>(input: &mut R, out: &impl Print, c: Command) -> io::Result<bool> {
    let size = c.file;
    let room = c.room;
    let states = c.config;
    let n = c.inputs;
    if size > MOST_BYTES {
        return Ok(false);
    }
    if room > MOST_BYTES {
        return Ok(false);
    }
    if states > MOST_BYTES {
        return Ok(false);
    }
    if n > MOST_INPUTS {
        return Ok(false);
    }
    pass_name(input, out, c.name)?;
    let mut file = [0u8; MOST_BYTES];
    let mut config = [0u8; MOST_BYTES];
    let mut lent = [FILL; MOST_BYTES];
    let got = read_part(input, &mut file, size)?;
    let had = read_part(input, &mut config, states)?;
    let mut inputs = [0u64; MOST_INPUTS];
    read_inputs(input, &mut inputs, n)?;
    print_within(
        out,
        c.op,
        &file[..got],
        &config[..had],
        c.carried,
        &inputs,
        n,
        &mut lent,
        room,
    )?;
    Ok(true)
}

// Answers the next command; false at the end of the input.
fn answer_next<R: Read>(input: &mut R, out: &impl Print) -> io::Result<bool> {
    let mut head = [0u8; 24];
    let got = console::read_full(input, &mut head)?;
    if got < 24 {
        return Ok(false);
    }
    answer(input, out, header(&head))
}

fn main(rt: HostRuntime) -> io::Result<()> {
    let mut stdin = rt.stdin();
    for _ in 0..MOST_COMMANDS {
        if !answer_next(&mut stdin, &rt)? {
            return Ok(());
        }
    }
    Ok(())
}
