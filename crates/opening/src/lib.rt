// The opening of a file: the whole check, 1 to 11, and where the body stands.
#![tactic(auto)]

ghost use Rattle.std.specs.Prelude.{◌≡◌};
ghost use Rattle.opening.specs.Opening.{Opens};

mod body;

use checks::limits;
use checks::refusal::Refusal;
use layout::body::Shape;

// The body of a file that passed the check: how many records of each kind it has, where it begins in the file, and its
// bytes.
#[derive(Clone, Copy)]
pub struct Opening<'a> {
    pub shape: Shape,
    pub start: usize,
    pub body: &'a [u8],
}

// 1 to 11. The other calls begin here.
pub fn opened(file: &[u8]) -> Result<Opening<'_>, Refusal>
    ensures { Opens file.now result }
{
    let len = file.len();
    if len < limits::TRAILER_BYTES {
        return Err(Refusal::TooShort);
    }
    let end = len - limits::TRAILER_BYTES;
    let t = layout::record::read_trailer(file, end);
    checks::trailer::test(t, end)?;
    let shape = checks::trailer::shape(t);
    let start = end - t.distance as usize;
    let body = &file[start..end];
    crate::body::test(file, end, shape, body)?;
    Ok(Opening { shape, start, body })
}
