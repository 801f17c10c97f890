// The day program (RULES 10): it takes a chart file with inputs in front from standard input, and prints a line for
// each input.
#![tactic(auto)]

ghost use Rattle.std.specs.Prelude.{◌≡◌, ◌+◌, ◌*◌, ◌≤◌, length};
ghost use Rattle.meaning.specs.Numbers.{most_charts};
ghost use Rattle.meaning.specs.File.{file_of};
ghost use Rattle.meaning.specs.Meaning.{∅};
ghost use Rattle.meaning.specs.Calls.{laid_over, initials, rows_of};
ghost use Rattle.line.specs.Line.{inputs_of, lines_of, day_of};
ghost use Rattle.day.specs.Day.{Opened, Accepted, Body, DaySays};

use checks::limits;
use checks::refusal::Refusal;
use layout::body::Shape;
use opening::Opening;
use std::io;

// 1 to 11, then 30; and the body, behind the inputs.
fn opened(input: &[u8]) -> Result<Opening<'_>, Refusal>
    requires { length input.now ≤ 65536 }
    ensures { Opened input.now result }
{
    let o = opening::opened(input)?;
    if o.start % 8 != 0 {
        return Err(Refusal::OddFront);
    }
    Ok(o)
}

// The most inputs: 8 bytes each.
const MOST_INPUTS: usize = limits::MOST_INPUT / 8;

// Room for what an input of 65,536 bytes can ask for: the inputs, their rows, their lines of at most 128 bytes. Only
// the lengths are promised, so that no proof looks at so many zeros.
fn input_room() -> [u64; MOST_INPUTS]
    ensures { 8192 ≡ length result }
{
    [0; MOST_INPUTS]
}

fn row_room() -> [u8; MOST_INPUTS * layout::row::MOST_BYTES]
    ensures { 8192 * (10 + most_charts) ≡ length result }
{
    [0; MOST_INPUTS * layout::row::MOST_BYTES]
}

fn line_room() -> [u8; 1048576]
    ensures { 1048576 ≡ length result }
{
    [0; 1048576]
}

// The first inputs of the front, as many as are asked for.
fn read_inputs(input: &[u8], inputs: &mut [u64])
    requires { 8 * length inputs.old ≤ length input.now }
    ensures { inputs.new ≡ inputs_of (length inputs.old) input.now }
{
    let n = inputs.len();
    for i in 0..n {
        inputs[i] = layout::number::le64(input, 8 * i);
    }
}

// The rows of all inputs, from the first configuration on, with nothing carried. The body was opened: it is not
// checked again.
fn put_rows(input: &[u8], n: Shape, body: &[u8], count: usize, rows: &mut [u8])
    requires { Accepted input.now n.charts count × Body input.now n body.now × (count ≤ 8192)
        × (count * (10 + n.charts) ≤ length rows.old) }
    ensures { rows.new ≡ laid_over (rows_of (file_of input.now) (initials input.now) ∅
        (inputs_of count input.now)) rows.old }
{
    let charts = n.charts;
    let mut config = [0u8; layout::limits::CHARTS];
    queries::file::put_initials(n, body, &mut config);
    let mut inputs = input_room();
    read_inputs(input, &mut inputs[..count]);
    // It is not refused.
    let _ = running::of_body(n, body, &config[..charts], 0, &inputs[..count], rows);
}

// The lines of n rows of w bytes each, at the front of `out`; returns their length.
fn put_lines(rows: &[u8], w: usize, n: usize, out: &mut [u8]) -> usize
    requires { (10 ≤ w) × (w ≤ 26) × (n * w ≤ length rows.now) × (128 * n ≤ length out.old) }
    ensures { (result ≡ length (lines_of w 1 n rows.now))
        × (out.new ≡ laid_over (lines_of w 1 n rows.now) out.old) }
{
    let mut at: usize = 0;
    let mut end: usize = 0;
    for i in 0..n {
        let e = at + w;
        let room = end + 128;
        let number = i as u64 + 1;
        end += line::line(number, &rows[at..e], &mut out[end..room]);
        at = e;
    }
    end
}

// What is printed for an input that is not too long, at the front of `out`; returns its length.
fn lines_for(input: &[u8], out: &mut [u8]) -> usize
    requires { (length input.now ≤ 65536) × (1048576 ≤ length out.old) }
    ensures { (result ≡ length (day_of input.now))
        × (out.new ≡ laid_over (day_of input.now) out.old) }
{
    let o = match opened(input) {
        Ok(o) => o,
        Err(r) => return line::refused_file(r.number(), out),
    };
    let count = o.start / 8;
    let mut rows = row_room();
    put_rows(input, o.shape, o.body, count, &mut rows);
    put_lines(&rows, layout::row::STATES + o.shape.charts, count, out)
}

// The same for any input: its first bytes, at most 65,536, and how many of the byte behind them came.
fn day(input: &[u8], behind: usize, out: &mut [u8]) -> usize
    requires { (length input.now ≤ 65536) × (1048576 ≤ length out.old) }
    ensures { DaySays input.now behind out.old result out.new }
{
    if behind > 0 {
        return line::refused_file(Refusal::TooLong.number(), out);
    }
    lines_for(input, out)
}

fn main(rt: HostRuntime) -> io::Result<()> {
    let mut stdin = rt.stdin();
    let mut input = [0u8; limits::MOST_INPUT];
    let n = console::read_full(&mut stdin, &mut input)?;
    let mut more = [0u8; 1];
    let behind = console::read_full(&mut stdin, &mut more)?;
    let mut out = line_room();
    let len = day(&input[..n], behind, &mut out);
    rt.write_all(&out[..len])
}
