// What the posting asks the engine: the states of a file's charts, and a step. No other crate of the posting calls it.
#![tactic(auto)]

ghost use Rattle.std.specs.Prelude.{◌≡◌, ◌≤◌};
ghost use Rattle.meaning.specs.Check.{refusal_of};
ghost use Rattle.checks.specs.Refusals.{Answers};
ghost use Rattle.desk.specs.Posting.{width};
ghost use Rattle.desk.specs.Turns.{unseen_of, asked_of, Replies};

use checks::refusal::Refusal;
use desk::{Reply, Seen};

// What the file says, before any case is looked at. It is opened here, once for all cases.
pub fn unseen(file: &[u8]) -> Result<Seen, Refusal>
    ensures { Answers (refusal_of file.now) (unseen_of file.now) result }
{
    let s = engine::file::states(file)?;
    let states = s.states;
    Ok(Seen {
        tested: Ok(()),
        charts: s.charts,
        states,
        ended: false,
    })
}

// What a step from the first n of a record's bytes answers.
pub fn ask(file: &[u8], config: [u8; desk::WIDTH], n: usize, offered: u64) -> Result<Reply, Refusal>
    requires { n ≤ width }
    ensures { Replies (asked_of file.now config n offered) config result }
{
    let mut next = config;
    match engine::step::step(file, &config[..n], offered, &mut next) {
        Ok(s) => Ok(Reply {
            output: s.output,
            mark: s.mark,
            next,
        }),
        Err(e) => Err(e.refusal),
    }
}
