// Whether a text spells a chart (docs/NOTATION.md), and where its first wrong byte is if not: one pass over the text,
// without recursion. A text is walked back over only where more than levels::KEPT levels were open at once, and in
// linear time in all (crate levels says why).
#![tactic(auto)]

ghost use Rattle.std.specs.Prelude.{◌≡◌, []};
ghost use Rattle.notation.specs.Reader.{reader};
ghost use Rattle.levels.specs.Ring.{Keeps, MarksIn};
ghost use Rattle.recogniser.specs.Verdict.{verdict_of};

use modes::{Step, Token};

// The place of the first wrong byte of a text that spells no chart: the text's length if it only breaks off.
#[derive(Clone, Copy)]
pub struct Wrong(pub usize);

// The verdict, with a ring that keeps the level of the whole text to begin with, and no mark.
fn from_start(
    text: &[u8],
    ring: &mut levels::Ring,
    places: &mut levels::Places,
    firsts: &mut levels::Marks,
    lasts: &mut levels::Marks,
    tops: &mut levels::Tops,
    start: levels::Kept,
) -> Result<(), Wrong>
    requires { Keeps text.now ring.old places.old start []
        × MarksIn text.now firsts.old lasts.old tops.old start }
    ensures { result ≡ verdict_of (reader text.now) }
{
    let mut kept = start;
    let mut step = Step {
        mode: 0,
        token: Token::Between,
    };
    for i in 0..text.len() {
        let b = text[i];
        kept = levels::refilled(text, i, ring, places, firsts, lasts, tops, kept);
        let Some(next) = modes::advance(step, b, levels::innermost(ring, kept.end)) else {
            return Err(Wrong(i));
        };
        kept = levels::noted(ring, places, firsts, lasts, tops, kept, i, b);
        step = next;
    }
    let end = text.len();
    kept = levels::refilled(text, end, ring, places, firsts, lasts, tops, kept);
    if modes::accepts(step, levels::innermost(ring, kept.end)) {
        return Ok(());
    }
    Err(Wrong(end))
}

// Whether a text spells a chart, or where its first wrong byte is.
pub fn recognise(text: &[u8]) -> Result<(), Wrong>
    ensures { result ≡ verdict_of (reader text.now) }
{
    let mut ring = [0u8; levels::KEPT];
    let mut places = [0usize; levels::KEPT];
    let mut firsts = [0usize; levels::MARKS];
    let mut lasts = [0usize; levels::MARKS];
    let mut tops = [0u8; levels::MARKS];
    from_start(
        text,
        &mut ring,
        &mut places,
        &mut firsts,
        &mut lasts,
        &mut tops,
        levels::Kept {
            end: 0,
            held: 1,
            fresh: false,
            floor: 0,
            marks: 0,
        },
    )
}
