// What a transition lacks, for the help desk (RULES 13).
ghost use Rattle.queries.specs.Promises.{LackingSays};

use checks::refusal::Refusal;
use signals::guard::Tested;

// Whether the guard of the transition at a place of a chart's list is met under an offered set, and if not, the signal
// that is to blame.
pub fn lacking(file: &[u8], chart: usize, place: usize, offered: u64) -> Result<Tested, Refusal>
    ensures { LackingSays file.now chart place offered result }
{
    let o = opening::opened(file)?;
    lacks::of_body(o.shape, o.body, chart, place, offered)
}
