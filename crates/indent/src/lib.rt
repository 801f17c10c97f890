// A written text laid out for a person (docs/NOTATION.md 7): where a line ends, and how far the next is indented. A
// break stands only behind a sign, never within a name or a word, so the text laid out is read as the same chart.
#![tactic(auto)]

ghost use Rattle.std.specs.Prelude.{◌≡◌};
ghost use Rattle.indent.specs.Breaks.{raised, lowered, start as begin, quiet, broken, opened, ended, counted};
ghost use Rattle.indent.specs.Breaks.{round_opened, round_closed, round_ended, brace_opened, parted};
ghost use Rattle.indent.specs.Breaks.{at_bar, of_byte, closes, behind};

// What is known behind a byte: how many brackets are open that count, how many are open within a chart, whether the
// next bar is the second of its pair, and whether a line ends here.
#[derive(Clone, Copy)]
pub struct Place {
    pub level: u8,
    pub inner: u8,
    pub second: bool,
    pub breaks: bool,
}

// Before the first byte.
pub fn start() -> Place
    ensures { result ≡ begin }
{
    Place {
        level: 0,
        inner: 0,
        second: false,
        breaks: false,
    }
}

// Brackets are counted up to 255; a written text has fewer open.
fn raise(n: u8) -> u8
    ensures { result ≡ raised n }
{
    n.saturating_add(1)
}

fn lower(n: u8) -> u8
    ensures { result ≡ lowered n }
{
    n.saturating_sub(1)
}

// No break.
fn on(s: Place) -> Place
    ensures { result ≡ quiet s }
{
    Place { breaks: false, ..s }
}

// A break on the same level.
fn next_line(s: Place) -> Place
    ensures { result ≡ broken s }
{
    Place { breaks: true, ..s }
}

// A break behind a bracket that was opened.
fn open_line(s: Place) -> Place
    ensures { result ≡ opened s }
{
    Place {
        level: raise(s.level),
        breaks: true,
        ..s
    }
}

// A break before a bracket that closes.
fn close_line(s: Place) -> Place
    ensures { result ≡ ended s }
{
    Place {
        level: lower(s.level),
        breaks: true,
        ..s
    }
}

// Whether a round bracket that opens counts: that of a chart and those within it do not.
#[tactic(auto, unfolding(crate::specs::Breaks::counted))]
fn counts(inner: u8, next: u8) -> bool
    ensures { result ≡ counted inner next }
{
    inner == 0 && next != b'c'
}

// Behind a round bracket that opens.
#[tactic(auto, unfolding(crate::specs::Breaks::round_opened))]
fn open_round(s: Place, next: u8) -> Place
    ensures { result ≡ round_opened s next }
{
    if counts(s.inner, next) {
        Place {
            level: raise(s.level),
            breaks: false,
            ..s
        }
    } else {
        Place {
            inner: raise(s.inner),
            breaks: false,
            ..s
        }
    }
}

// Behind a round bracket that closes.
#[tactic(auto, unfolding(crate::specs::Breaks::round_closed))]
fn close_round(s: Place) -> Place
    ensures { result ≡ round_closed s }
{
    if s.inner == 0 {
        Place {
            level: lower(s.level),
            breaks: false,
            ..s
        }
    } else {
        Place {
            inner: lower(s.inner),
            breaks: false,
            ..s
        }
    }
}

// The same; if a closing brace follows, that stands on a line of its own.
#[tactic(auto, unfolding(crate::specs::Breaks::round_ended))]
fn end_round(s: Place, next: u8) -> Place
    ensures { result ≡ round_ended s next }
{
    let t = close_round(s);
    if next == b'}' { close_line(t) } else { t }
}

// Behind a brace that opens: it counts if it is around round brackets.
#[tactic(auto, unfolding(crate::specs::Breaks::brace_opened))]
fn open_brace(s: Place, next: u8) -> Place
    ensures { result ≡ brace_opened s next }
{
    if next == b'(' { open_line(s) } else { on(s) }
}

// Behind a comma: a break if a round bracket follows.
#[tactic(auto, unfolding(crate::specs::Breaks::parted))]
fn at_comma(s: Place, next: u8) -> Place
    ensures { result ≡ parted s next }
{
    if next == b'(' { next_line(s) } else { on(s) }
}

// Behind a bar: a break if it is the second of its pair.
fn at_bar(s: Place) -> Place
    ensures { result ≡ at_bar s }
{
    Place {
        second: !s.second,
        breaks: s.second,
        ..s
    }
}

// Behind a byte, by the one that follows it, whatever this is to the line.
#[tactic(auto, unfolding(crate::specs::Breaks::of_byte))]
fn of_byte(s: Place, byte: u8, next: u8) -> Place
    ensures { result ≡ of_byte s byte next }
{
    match byte {
        b'(' => open_round(s, next),
        b')' => end_round(s, next),
        b'[' => open_line(s),
        b'{' => open_brace(s, next),
        b',' => at_comma(s, next),
        b'|' => at_bar(s),
        _ => on(s),
    }
}

// Whether a chart can end with this byte.
#[tactic(auto, unfolding(crate::specs::Breaks::closes))]
fn is_end(byte: u8) -> bool
    ensures { result ≡ closes byte }
{
    matches!(byte, b')' | b'}')
}

// Behind a byte, by the one that follows it. A square bracket that closes stands on a line of its own.
#[tactic(auto, unfolding(crate::specs::Breaks::behind))]
pub fn behind(s: Place, byte: u8, next: u8) -> Place
    ensures { result ≡ behind s byte next }
{
    let t = of_byte(s, byte, next);
    if is_end(byte) && next == b']' {
        close_line(t)
    } else {
        t
    }
}
