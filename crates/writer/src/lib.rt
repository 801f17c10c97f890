// The text of a chart file (docs/NOTATION.md 6). The call has no `requires`: what is wrong is refused by number.
#![tactic(auto)]

ghost use Rattle.std.specs.Prelude.{◌≡◌};
ghost use Rattle.meaning.specs.File.{file_at};
ghost use Rattle.writer.specs.Promises.{WriteSays, Readable, WritesBody};

use checks::limits;
use checks::refusal::Refusal;
use layout::body::Shape;

// No text is longer.
pub const MOST_TEXT: usize = printing::signs::MOST_TEXT;

// Writes the text of a body that passed 1 to 11 and has edition 1. It is counted first, in a buffer of no bytes, so
// that a buffer that is too short stays as it was.
fn of_body(n: Shape, body: &[u8], out: &mut [u8]) -> Result<usize, Refusal>
    requires { Readable n body.now }
    ensures { WritesBody (file_at n body.now) out.old result out.new }
{
    if depths::too_deep(n, body) {
        return Err(Refusal::TooDeep);
    }
    let mut none = [0u8; 0];
    let size = script::text(n, body, &mut none);
    if out.len() < size {
        return Err(Refusal::ShortOut);
    }
    script::text(n, body, out);
    Ok(size)
}

// The text of a file, over the front of `out`, and its length; or why there is none.
pub fn write(file: &[u8], out: &mut [u8]) -> Result<usize, Refusal>
    ensures { WriteSays file.now out.old result out.new }
{
    let o = opening::opened(file)?;
    if o.shape.edition == limits::STAY_EDITION as usize {
        return Err(Refusal::MayStay);
    }
    of_body(o.shape, o.body, out)
}
