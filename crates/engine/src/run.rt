// The run (RULES 6): the file is opened once, and its body run.
ghost use Rattle.engine.specs.Promises.{RunSays};

use checks::refusal::Refusal;

// A run from a configuration, with what is carried there: a row for each input, at the front of `rows`, and what is
// carried after the last.
pub fn run(
    file: &[u8],
    config: &[u8],
    carried: u64,
    inputs: &[u64],
    rows: &mut [u8],
) -> Result<u64, Refusal>
    ensures { RunSays file.now config.now carried inputs.now
        rows.old result rows.new }
{
    let o = opening::opened(file)?;
    running::of_body(o.shape, o.body, config, carried, inputs, rows)
}
