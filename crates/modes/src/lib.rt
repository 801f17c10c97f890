// The table of modes: what can come in each, and where it leads; and one byte further by it.
#![tactic(auto)]

ghost use Rattle.std.specs.Prelude.{◌≡◌, ◌&&◌, ◌||◌, eqb, ◌+◌, ◌<◌, get_or};
ghost use Rattle.scan.specs.Table.{numbers, table, lookup, refine};
ghost use Rattle.scan.specs.Scan.{token_after, advance_between, expect, advance_letter, advance};
ghost use Rattle.scan.specs.Scan.{is_whole, accepts};
ghost use Rattle.modes.specs.Step.{LeadsTo, place_of, packed};

use scan::bytes;

pub mod start;
pub mod table;

// Where a token is broken off: nowhere between tokens; behind the D or the e of Dec, behind the b of by, behind the
// letter of a name, in its number.
#[derive(Clone, Copy)]
pub enum Token {
    Between,
    D,
    De,
    B,
    Letter,
    Number,
}

// Where reading stands: a mode, which is a number since the rows of the table are numbers, and the place in a token.
#[derive(Clone, Copy)]
pub struct Step {
    pub mode: u64,
    pub token: Token,
}

// Whether the row at a place of the table is for a mode and a byte.
fn row_is(i: usize, m: u64, b: u8) -> bool
    requires { i + 2 < 507 }
    ensures { result ≡ (eqb (get_or numbers i 0) m && eqb (get_or numbers (i + 1) 0) b) }
{
    u64::from(table::entry(i)) == m && table::entry(i + 1) == b
}

// Where a mode and a byte lead, if anywhere.
fn lookup(m: u64, b: u8) -> Option<u64>
    ensures { LeadsTo (lookup table m b) result }
{
    for i in (start::first(m)..507).step_by(3) {
        if row_is(i, m, b) {
            return Some(u64::from(table::entry(i + 2)));
        }
    }
    None
}

// Where a token that begins with a byte goes on.
#[tactic(auto, unfolding(scan::specs::Scan::token_after))]
fn token_after(b: u8) -> Token
    ensures { place_of result ≡ token_after b }
{
    match b {
        b'D' => Token::D,
        b'b' => Token::B,
        b'c' | b'q' | b's' => Token::Letter,
        _ => Token::Between,
    }
}

// The mode, with the level around the part that it stands behind.
#[tactic(auto, unfolding(scan::specs::Table::refine))]
fn refined(m: u64, a: u8) -> u64
    ensures { result ≡ refine m a }
{
    match m {
        2 => 97 + u64::from(a),
        3 => 105 + u64::from(a),
        4 => 113 + u64::from(a),
        _ => m,
    }
}

// A byte between tokens.
#[tactic(auto, unfolding(scan::specs::Scan::advance_between, scan::specs::Scan::landed, scan::specs::Scan::pack))]
fn advance_between(m: u64, b: u8, a: u8) -> Option<Step>
    ensures { packed result ≡ advance_between m b a }
{
    if bytes::is_blank(b) {
        return Some(Step {
            mode: m,
            token: Token::Between,
        });
    }
    let mode = lookup(refined(m, a), b)?;
    Some(Step {
        mode,
        token: token_after(b),
    })
}

// A byte behind the letter of a name.
#[tactic(auto, unfolding(scan::specs::Scan::advance_letter, scan::specs::Scan::pack))]
fn advance_letter(m: u64, b: u8) -> Option<Step>
    ensures { packed result ≡ advance_letter m b }
{
    if b == b'0' {
        return Some(Step {
            mode: m,
            token: Token::Between,
        });
    }
    if bytes::is_digit(b) {
        return Some(Step {
            mode: m,
            token: Token::Number,
        });
    }
    None
}

// A byte that must be a certain one.
#[tactic(auto, unfolding(scan::specs::Scan::expect))]
fn expect(m: u64, token: Token, b: u8, c: u8) -> Option<Step>
    ensures { packed result ≡ expect m (place_of token) b c }
{
    if b == c {
        return Some(Step { mode: m, token });
    }
    None
}

// One byte further from a step, with the level a around the part that has ended; none if no text has the byte there.
#[tactic(auto, unfolding(scan::specs::Scan::advance, scan::specs::Scan::advance_number, scan::specs::Scan::pack))]
pub fn advance(s: Step, b: u8, a: u8) -> Option<Step>
    ensures { packed result ≡ advance s.mode (place_of s.token) b a }
{
    match s.token {
        Token::D => expect(s.mode, Token::De, b, b'e'),
        Token::De => expect(s.mode, Token::Between, b, b'c'),
        Token::B => expect(s.mode, Token::Between, b, b'y'),
        Token::Letter => advance_letter(s.mode, b),
        Token::Number => {
            if bytes::is_digit(b) {
                return Some(s);
            }
            advance_between(s.mode, b, a)
        }
        Token::Between => advance_between(s.mode, b, a),
    }
}

// Whether no token is broken off.
fn between(token: Token) -> bool
    ensures { result ≡ (eqb (place_of token) 0 || eqb (place_of token) 5) }
{
    matches!(token, Token::Between | Token::Number)
}

// Whether a mode is behind a whole chart.
#[tactic(auto, unfolding(scan::specs::Scan::is_whole))]
fn is_whole(m: u64) -> bool
    ensures { result ≡ is_whole m }
{
    matches!(m, 97 | 98 | 105 | 106 | 114)
}

// Whether the text may end here.
#[tactic(auto, unfolding(scan::specs::Scan::accepts))]
pub fn accepts(s: Step, a: u8) -> bool
    ensures { result ≡ accepts s.mode (place_of s.token) a }
{
    between(s.token) && is_whole(refined(s.mode, a))
}
