// A file under another edition (RULES 7): one byte of its trailer is replaced.
use crate::{ask, tell, words};
use checks::refusal::Refusal;
use console::Console;

// Both files are checked: the one that was named, and the one that is written.
fn changed(file: &mut [u8], edition: u8) -> Result<(), Refusal> {
    engine::file::check(file)?;
    layout::record::write_edition(file, edition);
    engine::file::check(file)
}

pub fn change(rt: &impl Console, file: &mut [u8]) {
    let edition = ask::edition(rt);
    if edition == ask::NO_EDITION {
        return;
    }
    match changed(file, edition) {
        Ok(()) => tell::save(rt, ask::CHANGED, file),
        Err(r) => words::refusal(rt, r),
    }
}
