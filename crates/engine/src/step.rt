// The step (RULES 5): the file is opened, and its body stepped.
ghost use Rattle.engine.specs.Promises.{StepSays};

use stepping::step::{Refused, Stepped};

// One step from a configuration under an input: the output, the mark, the places and how many choices are open, and the
// next configuration in `next`.
pub fn step(file: &[u8], config: &[u8], input: u64, next: &mut [u8]) -> Result<Stepped, Refused>
    ensures { StepSays file.now config.now input next.old result
        next.new }
{
    let o = opening::opened(file)?;
    stepping::step::of_body(o.shape, o.body, config, input, next)
}
