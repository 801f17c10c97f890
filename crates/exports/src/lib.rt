// The engine, the posting and the typed notation for programs in C and Rust (include/mestecur.h). A slice passes as a
// pointer and a length. Each function returns 0 or the refusal. A single number behind a pointer is an answer, and is 0
// where the call is refused, but for the number of open choices in 24; places are answers too, and are 255 then.
#![tactic(auto)]

ghost use Rattle.std.specs.Prelude.{◌≡◌};
ghost use Rattle.meaning.specs.Sums.{one};
ghost use Rattle.checks.specs.Refusals.{told};
ghost use Rattle.exports.specs.Promises.{CheckReturns, FirstReturns, InterfaceReturns, PlainReturns};
ghost use Rattle.exports.specs.Promises.{StepReturns};
ghost use Rattle.exports.specs.Promises.{RunReturns, RewriteReturns, ClearReturns, LackingReturns, ReadReturns};
ghost use Rattle.exports.specs.Promises.{PostReturns, WriteReturns};

use checks::limits;
use checks::refusal::Refusal;
use desk::{Case, Entry};

// 0, or the number of the refusal.
fn returned(answer: Result<(), Refusal>) -> u8
    ensures { result ≡ told answer }
{
    match answer {
        Ok(()) => limits::ACCEPTED,
        Err(refusal) => refusal.number(),
    }
}

#[unsafe(no_mangle)]
pub extern "C" fn mestecur_check(file: &[u8]) -> u8
    ensures { CheckReturns file.now result }
{
    returned(engine::file::check(file))
}

#[unsafe(no_mangle)]
pub extern "C" fn mestecur_first(file: &[u8], config: &mut [u8]) -> u8
    ensures { FirstReturns file.now config.old result config.new }
{
    returned(engine::file::first(file, config))
}

#[unsafe(no_mangle)]
pub extern "C" fn mestecur_interface(file: &[u8], input: &mut u64, output: &mut u64) -> u8
    ensures { InterfaceReturns file.now result input.new output.new }
{
    match engine::interface::interface(file) {
        Ok(faces) => {
            *input = faces.input;
            *output = faces.output;
            limits::ACCEPTED
        }
        Err(refusal) => {
            *input = 0;
            *output = 0;
            refusal.number()
        }
    }
}

#[unsafe(no_mangle)]
pub extern "C" fn mestecur_plain(file: &[u8], plain: &mut u8) -> u8
    ensures { PlainReturns file.now result plain.new }
{
    match engine::file::plain(file) {
        Ok(yes) => {
            *plain = number(yes);
            limits::ACCEPTED
        }
        Err(refusal) => {
            *plain = 0;
            refusal.number()
        }
    }
}

#[unsafe(no_mangle)]
pub extern "C" fn mestecur_step(
    file: &[u8],
    config: &[u8],
    input: u64,
    next: &mut [u8],
    output: &mut u64,
    mark: &mut u8,
    places: &mut [u8; layout::limits::CHARTS],
    open_choices: &mut u64,
) -> u8
    ensures { StepReturns file.now config.now input next.old result
        next.new
        output.new mark.new places.new open_choices.new }
{
    match engine::step::step(file, config, input, next) {
        Ok(s) => {
            *output = s.output;
            *mark = number(s.mark);
            let taken = s.places;
            *places = taken;
            *open_choices = s.open_choices;
            limits::ACCEPTED
        }
        Err(e) => {
            *output = 0;
            *mark = 0;
            *places = [settling::NO_PLACE; layout::limits::CHARTS];
            *open_choices = e.open_choices;
            e.refusal.number()
        }
    }
}

// 1 for yes.
fn number(yes: bool) -> u8
    ensures { result ≡ one yes }
{
    u8::from(yes)
}

#[unsafe(no_mangle)]
pub extern "C" fn mestecur_run(
    file: &[u8],
    config: &[u8],
    carried: u64,
    inputs: &[u64],
    rows: &mut [u8],
    carried_on: &mut u64,
) -> u8
    ensures { RunReturns file.now config.now carried inputs.now
        rows.old result
        rows.new carried_on.new }
{
    match engine::run::run(file, config, carried, inputs, rows) {
        Ok(left) => {
            *carried_on = left;
            limits::ACCEPTED
        }
        Err(refusal) => {
            *carried_on = 0;
            refusal.number()
        }
    }
}

#[unsafe(no_mangle)]
pub extern "C" fn mestecur_rewrite(file: &[u8], out: &mut [u8], size: &mut usize) -> u8
    ensures { RewriteReturns file.now out.old result out.new size.new }
{
    match engine::rewriting::rewriting(file, out) {
        Ok(length) => {
            *size = length;
            limits::ACCEPTED
        }
        Err(refusal) => {
            *size = 0;
            refusal.number()
        }
    }
}

#[unsafe(no_mangle)]
pub extern "C" fn mestecur_post(
    file: &[u8],
    cases: &mut [Case],
    entries: &[Entry],
    rows: &mut [u8],
) -> u8
    ensures { PostReturns file.now cases.old entries.now rows.old
        result cases.new rows.new }
{
    returned(ledger::post(file, cases, entries, rows))
}

#[unsafe(no_mangle)]
pub extern "C" fn mestecur_clear(file: &[u8], out: &mut [u8], size: &mut usize) -> u8
    ensures { ClearReturns file.now out.old result out.new size.new }
{
    match engine::clear::clear(file, out) {
        Ok(length) => {
            *size = length;
            limits::ACCEPTED
        }
        Err(refusal) => {
            *size = 0;
            refusal.number()
        }
    }
}

#[unsafe(no_mangle)]
pub extern "C" fn mestecur_lacking(
    file: &[u8],
    chart: usize,
    place: usize,
    offered: u64,
    answer: &mut u8,
    signal: &mut u8,
) -> u8
    ensures { LackingReturns file.now chart place offered result answer.new
        signal.new }
{
    match engine::lacking::lacking(file, chart, place, offered) {
        Ok(t) => {
            *answer = lacks::case_number(t);
            *signal = lacks::signal_number(t);
            limits::ACCEPTED
        }
        Err(refusal) => {
            *answer = 0;
            *signal = 0;
            refusal.number()
        }
    }
}

#[unsafe(no_mangle)]
pub extern "C" fn mestecur_read(
    text: &[u8],
    out: &mut [u8],
    size: &mut usize,
    place: &mut usize,
) -> u8
    ensures { ReadReturns text.now out.old result out.new size.new
        place.new }
{
    match texts::read(text, out) {
        Ok(length) => {
            *size = length;
            *place = 0;
            limits::ACCEPTED
        }
        Err(e) => {
            *size = 0;
            *place = e.place;
            e.refusal.number()
        }
    }
}

#[unsafe(no_mangle)]
pub extern "C" fn mestecur_write(file: &[u8], out: &mut [u8], size: &mut usize) -> u8
    ensures { WriteReturns file.now out.old result out.new size.new }
{
    match writer::write(file, out) {
        Ok(length) => {
            *size = length;
            limits::ACCEPTED
        }
        Err(refusal) => {
            *size = 0;
            refusal.number()
        }
    }
}
