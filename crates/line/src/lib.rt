// The making of the day program's lines (RULES 10.3), and the parts that others make lines of. Nothing here knows a
// file. Each function that writes a part of a line takes the place where it begins and returns the place behind it.
#![tactic(auto)]

ghost use Rattle.std.specs.Prelude.{◌≡◌, [], ◌∷◌, ◌+◌, ◌-◌, ◌≤◌, ◌<◌, ◌^◌, length};
ghost use Rattle.meaning.specs.Calls.{laid_over};
ghost use Rattle.line.specs.Line.{digit, digits, width, decimal, hex, dot, closing, dotted, letter, output_part};
ghost use Rattle.line.specs.Line.{mark_part, given_fields, refused_fields, line_of, file_refused};
ghost use Rattle.layout.specs.Put.{Put, Room};

// The character of a digit.
fn digit(d: u8) -> u8
    requires { d < 16 }
    ensures { result ≡ digit d }
{
    if d < 10 { b'0' + d } else { b'a' + (d - 10) }
}

// How many decimal digits a number has.
fn width(x: u64) -> usize
    ensures { result ≡ width x }
{
    let mut left = x;
    let mut n: usize = 1;
    while left >= 10 {
        left = left / 10;
        n += 1;
    }
    n
}

// Where the digit with i lower ones stands, of n digits from `at` on: highest digit first.
fn place(at: usize, n: usize, i: usize) -> usize
    requires { (i < n) × (at + n < 2 ^ 64) }
    ensures { result ≡ at + (n - (i + 1)) }
{
    at + (n - (i + 1))
}

// The n lowest digits of x, by repeated division.
fn put_digits(out: &mut [u8], at: usize, base: u64, n: usize, x: u64) -> usize
    requires { (2 ≤ base) × (base ≤ 16) × (at + n ≤ length out.old) }
    ensures { Put out.old at (digits base n x) out.new result }
{
    let mut left = x;
    for i in 0..n {
        out[place(at, n, i)] = digit((left % base) as u8);
        left = left / base;
    }
    at + n
}

pub fn put_decimal(out: &mut [u8], at: usize, x: u64) -> usize
    requires { Room out.old at (decimal x) }
    ensures { Put out.old at (decimal x) out.new result }
{
    put_digits(out, at, 10, width(x), x)
}

// A set in hex, 16 digits.
fn put_hex(out: &mut [u8], at: usize, x: u64) -> usize
    requires { Room out.old at (hex 16 x) }
    ensures { Put out.old at (hex 16 x) out.new result }
{
    put_digits(out, at, 16, 16, x)
}

pub fn put_byte(out: &mut [u8], at: usize, b: u8) -> usize
    requires { Room out.old at (b ∷ []) }
    ensures { Put out.old at (b ∷ []) out.new result }
{
    out[at] = b;
    at + 1
}

pub fn put_word(out: &mut [u8], at: usize, word: &[u8]) -> usize
    requires { Room out.old at word.now }
    ensures { Put out.old at word.now out.new result }
{
    let end = at + word.len();
    out[at..end].copy_from_slice(word);
    end
}

// A state behind a dot.
fn put_state(out: &mut [u8], at: usize, state: u8) -> usize
    requires { Room out.old at (dot ∷ decimal state) }
    ensures { Put out.old at (dot ∷ decimal state) out.new result }
{
    let next = put_byte(out, at, b'.');
    put_decimal(out, next, state as u64)
}

// The states, with dots between them.
pub fn put_states(out: &mut [u8], at: usize, states: &[u8]) -> usize
    requires { Room out.old at (dotted states.now) }
    ensures { Put out.old at (dotted states.now) out.new result }
{
    if states.len() == 0 {
        return at;
    }
    let mut next = put_decimal(out, at, states[0] as u64);
    for i in 1..states.len() {
        next = put_state(out, next, states[i]);
    }
    next
}

// What stands for a row's mark.
fn letter(mark: u8) -> u8
    ensures { result ≡ letter mark }
{
    if mark == 1 { b'y' } else { b'n' }
}

// An output between two spaces.
fn put_output(out: &mut [u8], at: usize, output: u64) -> usize
    requires { Room out.old at (output_part output) }
    ensures { Put out.old at (output_part output) out.new result }
{
    let digits = put_byte(out, at, b' ');
    let end = put_hex(out, digits, output);
    put_byte(out, end, b' ')
}

// A mark behind a space, and the line's end.
fn put_mark(out: &mut [u8], at: usize, mark: u8) -> usize
    requires { Room out.old at (mark_part mark) }
    ensures { Put out.old at (mark_part mark) out.new result }
{
    let next = put_byte(out, at, b' ');
    let end = put_byte(out, next, letter(mark));
    put_byte(out, end, b'\n')
}

// What follows the number in the line of a row with a step, to the line's end.
fn put_given(out: &mut [u8], at: usize, row: &[u8]) -> usize
    requires { (10 ≤ length row.now) × Room out.old at (closing (given_fields row.now)) }
    ensures { Put out.old at (closing (given_fields row.now)) out.new result }
{
    let states = put_output(out, at, layout::number::le64(row, 0));
    let mark = put_states(out, states, &row[layout::row::STATES..]);
    put_mark(out, mark, row[layout::row::MARK])
}

// What follows the first field in the line of a refusal, to the line's end.
fn put_refused(out: &mut [u8], at: usize, refusal: u8) -> usize
    requires { Room out.old at (closing (refused_fields refusal)) }
    ensures { Put out.old at (closing (refused_fields refusal)) out.new result }
{
    let number = put_word(out, at, b" refused ");
    let end = put_decimal(out, number, refusal as u64);
    put_byte(out, end, b'\n')
}

// The line of an input's number and its row, at the front of `out`; returns its length.
pub fn line(number: u64, row: &[u8], out: &mut [u8]) -> usize
    requires { (10 ≤ length row.now) × (length row.now ≤ 26) × (128 ≤ length out.old) }
    ensures { (result ≡ length (line_of number row.now))
        × (out.new ≡ laid_over (line_of number row.now) out.old) }
{
    let next = put_decimal(out, 0, number);
    let refusal = row[layout::row::REFUSAL];
    if refusal == 0 {
        put_given(out, next, row)
    } else {
        put_refused(out, next, refusal)
    }
}

// The line of a file that is refused, at the front of `out`; returns its length.
pub fn refused_file(n: u8, out: &mut [u8]) -> usize
    requires { 128 ≤ length out.old }
    ensures { (result ≡ length (file_refused n)) × (out.new ≡ laid_over (file_refused n) out.old) }
{
    let next = put_word(out, 0, b"file");
    put_refused(out, next, n)
}
