// What a person types and reads: a configuration `0.1`; a set of signals `s0,s3`, `0x9` or `-`; a set shown as signals.
// Nothing here knows a chart file or an operating system.
#![tactic(auto)]

ghost use Rattle.std.specs.Prelude.{◌≡◌, ◌≤◌, ◌<◌, length, take, replicate};
ghost use Rattle.meaning.specs.Meaning.{eq_list};
ghost use Rattle.meaning.specs.Calls.{laid_over};
ghost use Rattle.layout.specs.Put.{Put, Room};
ghost use Rattle.typed.specs.Typed.{value_of, digit_on, digits_on, begun, number_of, hex_of, signal_of};
ghost use Rattle.typed.specs.Typed.{signals_on, split, comma, set_of, config_of, shown_signal, shown};
ghost use Rattle.typed.specs.Parts.{Ends, next_signal};

// The most states that a configuration can be typed with.
pub const MOST_STATES: usize = 64;

// A configuration's states, at the front of 64 bytes; none if it is not typed as it should be.
#[derive(Clone, Copy)]
pub struct Configuration {
    pub count: usize,
    pub states: [u8; MOST_STATES],
}

// Whether two words are the same.
pub fn is(word: &[u8], other: &[u8]) -> bool
    ensures { result ≡ eq_list word.now other.now }
{
    word == other
}

// Whether a word begins with another.
fn begins(word: &[u8], other: &[u8]) -> bool
    ensures { result ≡ eq_list (take (length other.now) word.now) other.now }
{
    let n = other.len();
    if word.len() < n {
        return is(word, other);
    }
    is(&word[..n], other)
}

// The value of a digit, 0 to 15; 16 of any other character.
#[tactic(auto, unfolding(crate::specs::Typed::value_of, crate::specs::Typed::between))]
fn value(b: u8) -> u64
    ensures { result ≡ value_of b }
{
    match b {
        b'0'..=b'9' => u64::from(b - b'0'),
        b'a'..=b'f' => u64::from(b - b'a') + 10,
        b'A'..=b'F' => u64::from(b - b'A') + 10,
        _ => 16,
    }
}

// One digit more behind x.
fn digit_on(base: u64, most: u64, x: u64, b: u8) -> Option<u64>
    requires { (0 < base) × (base ≤ most) }
    ensures { result ≡ digit_on base most x b }
{
    let v = value(b);
    if v >= base {
        return None;
    }
    if x > (most - v) / base {
        return None;
    }
    Some(x * base + v)
}

// All digits of a word.
fn digits(base: u64, most: u64, word: &[u8]) -> Option<u64>
    requires { (0 < base) × (base ≤ most) }
    ensures { result ≡ digits_on base most 0 word.now }
{
    let mut x: u64 = 0;
    for i in 0..word.len() {
        x = digit_on(base, most, x, word[i])?;
    }
    Some(x)
}

// Whether a word is one digit, or more with no zero in front.
fn begun(word: &[u8]) -> bool
    ensures { result ≡ begun word.now }
{
    let n = word.len();
    if n == 0 {
        return false;
    }
    if n == 1 {
        return true;
    }
    word[0] != b'0'
}

// A decimal number up to `most`, with no zero in front.
pub fn number(most: u64, word: &[u8]) -> Option<u64>
    requires { 10 ≤ most }
    ensures { result ≡ number_of most word.now }
{
    if !begun(word) {
        return None;
    }
    digits(10, most, word)
}

// A number of 1 to 16 hex digits.
fn hex(word: &[u8]) -> Option<u64>
    ensures { result ≡ hex_of word.now }
{
    let n = word.len();
    if n == 0 {
        return None;
    }
    if n > 16 {
        return None;
    }
    digits(16, u64::MAX, word)
}

// A signal, `s0` to `s63`.
fn signal(word: &[u8]) -> Option<u64>
    ensures { result ≡ signal_of word.now }
{
    if word.len() == 0 {
        return None;
    }
    if word[0] != b's' {
        return None;
    }
    number(63, &word[1..])
}

// Where the part of a word that begins at `at` ends: at the next separator, or with the word.
pub fn end(word: &[u8], at: usize, separator: u8) -> usize
    requires { at ≤ length word.now }
    ensures { Ends separator word.now at result }
{
    for i in at..word.len() {
        if word[i] == separator {
            return i;
        }
    }
    word.len()
}

// Signals with commas between.
fn signal_list(word: &[u8]) -> Option<u64>
    ensures { result ≡ signals_on 0 (split comma word.now) }
{
    let mut set: u64 = 0;
    let mut at: usize = 0;
    loop {
        let e = end(word, at, b',');
        let n = signal(&word[at..e])?;
        set = signals::with(set, n as u32);
        if e == word.len() {
            return Some(set);
        }
        at = e + 1;
    }
}

// A signal set: `-` is empty, `0x` and hex digits give it as a number, anything else is signals.
pub fn set(word: &[u8]) -> Option<u64>
    ensures { result ≡ set_of word.now }
{
    if is(word, b"-") {
        return Some(0);
    }
    if begins(word, b"0x") {
        return hex(&word[2..]);
    }
    signal_list(word)
}

fn no_states() -> Configuration
    ensures { result ≡ record { count = 0; states = replicate 64 0 } }
{
    Configuration {
        count: 0,
        states: [0; MOST_STATES],
    }
}

// A configuration: states with dots between.
pub fn config(word: &[u8]) -> Configuration
    ensures { result ≡ record {
      count = length (config_of word.now);
      states = laid_over (config_of word.now) (replicate 64 0);
    } }
{
    let mut states = [0u8; MOST_STATES];
    let mut at: usize = 0;
    for count in 0..MOST_STATES {
        let e = end(word, at, b'.');
        let Some(state) = number(255, &word[at..e]) else {
            return no_states();
        };
        states[count] = state as u8;
        if e == word.len() {
            return Configuration {
                count: count + 1,
                states,
            };
        }
        at = e + 1;
    }
    no_states()
}

fn put_signal(out: &mut [u8], at: usize, n: u32) -> usize
    requires { Room out.old at (shown_signal n) }
    ensures { Put out.old at (shown_signal n) out.new result }
{
    let next = line::put_byte(out, at, b's');
    line::put_decimal(out, next, n as u64)
}

// Signal n of a set, behind a comma unless it is the first; nothing if the set lacks it.
fn put_next(out: &mut [u8], at: usize, set: u64, n: u32) -> usize
    requires { (n < 64) × Room out.old at (next_signal at set n) }
    ensures { Put out.old at (next_signal at set n) out.new result }
{
    if !signals::has(set, n) {
        return at;
    }
    if at == 0 {
        return put_signal(out, at, n);
    }
    let next = line::put_byte(out, at, b',');
    put_signal(out, next, n)
}

// A set as signals, at the front of `out`; returns its length.
pub fn show(set: u64, out: &mut [u8]) -> usize
    requires { 256 ≤ length out.old }
    ensures { (result ≡ length (shown set)) × (out.new ≡ laid_over (shown set) out.old) }
{
    if set == 0 {
        return line::put_byte(out, 0, b'-');
    }
    let mut end: usize = 0;
    for n in 0..64 {
        end = put_next(out, end, set, n);
    }
    end
}
