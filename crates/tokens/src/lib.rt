// The tokens of a text that spells a chart, read again for their numbers: blanks, a sign, a name. What these functions
// answer is right if such a token is there (specs/Laws/Text.antt); they are safe on every text.
#![tactic(auto)]

ghost use Rattle.std.specs.Prelude.{◌≡◌, ◌+◌, ◌*◌, ◌-◌, ◌≤◌, length, drop, get_or};
ghost use Rattle.tokens.specs.Tokens.{blanks, after_blanks, cap, NumberAt, BehindSign, NameFrom};

use scan::bytes;

// The number of a name as far as it matters, and the place behind it.
#[derive(Clone, Copy)]
pub struct Name {
    pub value: u64,
    pub next: usize,
}

// The place of the next token.
pub fn next_token(text: &[u8], at: usize) -> usize
    requires { at ≤ length text.now }
    ensures { (result ≡ at + blanks (drop at text.now)) × (result ≤ length text.now) }
{
    for i in at..text.len() {
        if !bytes::is_blank(text[i]) {
            return i;
        }
    }
    text.len()
}

// The first byte of the next token; 0 at the end of the text.
pub fn peek(text: &[u8], at: usize) -> u8
    requires { at ≤ length text.now }
    ensures { result ≡ get_or (after_blanks (drop at text.now)) 0 0 }
{
    let i = next_token(text, at);
    if i < text.len() {
        return text[i];
    }
    0
}

// The place behind a sign of n bytes.
pub fn behind_sign(text: &[u8], at: usize, n: usize) -> usize
    requires { at ≤ length text.now }
    ensures { BehindSign text.now at n result }
{
    let i = next_token(text, at);
    if text.len() - i < n {
        return text.len();
    }
    i + n
}

// One digit more.
fn more(x: u64, b: u8) -> u64
    requires { (x ≤ 1000) × ((48 ≤ b) × (b ≤ 57)) }
    ensures { (result ≡ cap (x * 10 + (b - 48))) × (result ≤ 1000) }
{
    let y = x * 10 + ((b - 48) as u64);
    y.min(1000)
}

// The number that begins at a place.
fn number(text: &[u8], at: usize) -> Name
    requires { at ≤ length text.now }
    ensures { NumberAt (drop at text.now) text.now result × (at ≤ result.next) }
{
    let mut x: u64 = 0;
    for i in at..text.len() {
        let b = text[i];
        if !bytes::is_digit(b) {
            return Name { value: x, next: i };
        }
        x = more(x, b);
    }
    Name {
        value: x,
        next: text.len(),
    }
}

// A name: blanks, a letter, its number.
pub fn name_at(text: &[u8], at: usize) -> Name
    requires { at ≤ length text.now }
    ensures { NameFrom text.now at result }
{
    let i = behind_sign(text, at, 1);
    number(text, i)
}
