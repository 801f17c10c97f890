// Clearing: a file of edition 1 without its dead transitions, over the front of the caller's buffer.
ghost use Rattle.std.specs.Prelude.{◌≡◌, length};
ghost use Rattle.meaning.specs.File.{file_at};
ghost use Rattle.checks.specs.Known.{Sized, Summed};
ghost use Rattle.transforms.specs.Promises.{ClearSays};
ghost use Rattle.transforms.specs.Clearing.{ClearsBody};

use checks::limits;
use checks::refusal::Refusal;
use layout::body::Shape;

// Clears a body that passed 1 to 11 and has edition 1.
fn of_body(n: Shape, body: &[u8], out: &mut [u8]) -> Result<usize, Refusal>
    requires { Sized n body.now × Summed n body.now }
    ensures { ClearsBody (file_at n body.now) out.old result out.new }
{
    let m = clearing::shape(n, body);
    let size = layout::body::size(m) + limits::TRAILER_BYTES;
    if out.len() < size {
        return Err(Refusal::ShortOut);
    }
    clearing::lay(n, body, m, out);
    Ok(size)
}

// The file without its dead transitions, over the front of `out`, and its length.
pub fn clear(file: &[u8], out: &mut [u8]) -> Result<usize, Refusal>
    ensures { ClearSays file.now out.old result out.new }
{
    let o = opening::opened(file)?;
    if o.shape.edition == limits::STAY_EDITION as usize {
        return Err(Refusal::MayStay);
    }
    of_body(o.shape, o.body, out)
}
