// A step of a body that passed 1 to 11 (RULES 5): wire, count the open choices, choose candidates, search.
ghost use Rattle.std.specs.Prelude.{◌≡◌, List, ℕ, ◌≤◌, ◌<◌, length, take, get_or, replicate};
ghost use Rattle.signals.specs.Mask.{◌∩◌};
ghost use Rattle.layout.specs.Body.{Holds, head_at};
ghost use Rattle.meaning.specs.Numbers.{most_charts};
ghost use Rattle.meaning.specs.Sums.{any_up_to};
ghost use Rattle.meaning.specs.File.{file_at};
ghost use Rattle.meaning.specs.Check.{not_below, first_of};
ghost use Rattle.meaning.specs.Open.{open_in};
ghost use Rattle.meaning.specs.Calls.{laid_over, Valid};
ghost use Rattle.cells.specs.Table.{masks_for, small_size, Row, Tables};
ghost use Rattle.cells.specs.Triggers.{triggers, Guards};
ghost use Rattle.settling.specs.Hunt.{nothing};
ghost use Rattle.plan.specs.Noted.{NearestIn};
ghost use Rattle.plan.specs.ByNode.{Blank};
ghost use Rattle.candidates.specs.Candidates.{Ready};
ghost use Rattle.checks.specs.Refusals.{told};
ghost use Rattle.counting.specs.Counting.{LeavesTo};
ghost use Rattle.stepping.specs.Step.{config_tests_in, BodySteps, Checked, Prepared, Shut, Narrowed};
ghost use Rattle.stepping.specs.Step.{searched_of, Searched, Finds, Told, Tries};

use cells::{CHARTS, masks, small, triggers};
use checks::limits;
use checks::refusal::Refusal;
use layout::body::Shape;
use settling::Found;

// A step that is given, the next configuration aside (RULES 5.9): the output, the mark, the places, 254 for a chart
// that stayed and 255 for one that took none, and how many choices are open.
#[derive(Clone, Copy)]
pub struct Stepped {
    pub places: [u8; CHARTS],
    pub output: u64,
    pub open_choices: u64,
    pub mark: bool,
}

// Why no step is given, and how many choices are open: 0 but for 24.
#[derive(Clone, Copy, Debug, PartialEq, Eq)]
pub struct Refused {
    pub refusal: Refusal,
    pub open_choices: u64,
}

impl From<Refusal> for Refused {
    ghost from_gives = { λ r e. e ≡ record { refusal = r; open_choices = 0 } };

    fn from(refusal: Refusal) -> Refused {
        Refused {
            refusal,
            open_choices: 0,
        }
    }
}

// 21: a state that its chart lacks.
fn bad_states(n: Shape, body: &[u8], config: &[u8]) -> bool
    requires { Holds n body.now × (n.charts ≤ length config.now) }
    ensures { result ≡ any_up_to n.charts
        (λ c. not_below (get_or config.now c 0) (head_at n body.now c).states) }
{
    let charts = n.charts;
    for c in 0..charts {
        if config[c] >= layout::body::head_at(n, body, c).states {
            return true;
        }
    }
    false
}

// 20 and 21.
pub fn test_config(n: Shape, body: &[u8], config: &[u8]) -> Result<(), Refusal>
    requires { Holds n body.now }
    ensures { told result ≡ first_of (config_tests_in (file_at n body.now) config.now) }
{
    if config.len() != n.charts {
        return Err(Refusal::WrongLength);
    }
    if bad_states(n, body, config) {
        return Err(Refusal::BadState);
    }
    Ok(())
}

// What of the input is offered to each chart.
fn lows(down: [u64; CHARTS], input: u64) -> [u64; CHARTS]
    ensures { Row result (λ c. input ∩ get_or down c 0) }
{
    let mut low = down;
    for mask in &mut low {
        *mask = input & *mask;
    }
    low
}

// What a search over filled tables finds; none is made where a chart is stuck.
fn searched(
    masks: &[u64],
    small: &[u8],
    guards: &[u64],
    stays: &[u8],
    charts: usize,
    low: [u64; CHARTS],
) -> Found
    requires { Tables charts masks.now small.now × (charts ≤ most_charts) × Guards guards.now stays.now }
    ensures { result ≡ searched_of charts low masks.now small.now guards.now
        stays.now }
{
    if candidates::is_stuck(small, stays, charts) {
        return search::none();
    }
    search::search(masks, small, guards, stays, charts, low)
}

// The same where charts may stay: their triggers are noted first.
fn found_staying(
    n: Shape,
    body: &[u8],
    config: &[u8],
    low: [u64; CHARTS],
    may: &[u64; CHARTS],
    shuts: &[u64; CHARTS],
    masks: &[u64],
    small: &[u8],
) -> Found
    requires { Ready n body.now config.now × Tables n.charts masks.now small.now }
    ensures { Searched n body.now config.now may.now low shuts.now
        masks.now small.now result }
{
    let mut guards = [0u64; triggers::SIZE];
    let stays = staying::stays(n, body, config, low, *may, *shuts, masks, &mut guards);
    searched(masks, small, &guards, &stays, n.charts, low)
}

// Up to so many open choices every search is short, and what is read is not looked for.
const FEW_OPEN: u64 = 4096;

// What is read of each chart's actions, and what its transitions put out of that, where many choices are open. Where
// few are, or all that charts put out comes out, all signals stand for what is read.
fn read_by(
    n: Shape,
    body: &[u8],
    config: &[u8],
    masks: &[u64],
    open_choices: u64,
    reads: &mut [u64; CHARTS],
    may: &mut [u64; CHARTS],
    sures: &mut [u64; CHARTS],
    counts: &mut [u64; CHARTS],
)
    requires { Ready n body.now config.now × (masks_for n.charts ≤ length masks.now)
        × Narrowed n body.now config.now reads.old may.old sures.old × (length may.old ≡ most_charts)
        × (length sures.old ≡ most_charts) × (length counts.old ≡ most_charts) }
    ensures { (a s : List ℕ) → Prepared n body.now a masks.now s
        → Narrowed n body.now config.now reads.new may.new
        sures.new }
{
    if open_choices <= FEW_OPEN {
        return;
    }
    if relevance::all_out(masks, n.charts) {
        return;
    }
    let rows = relevance::rows(n, body, config, masks);
    *reads = rows;
    candidates::puts_all(n, body, config, &rows, may, sures, counts);
}

// What is found for a wired body from a configuration, where each chart must not go to the states that are shut,
// `reads` has what is read of its actions, and `may` and `sures` what its transitions put out of that. The tables are
// ready for another. Where no chart may stay there is no trigger to make room for.
fn found(
    n: Shape,
    body: &[u8],
    config: &[u8],
    reads: &[u64; CHARTS],
    input: u64,
    down: [u64; CHARTS],
    may: &[u64; CHARTS],
    sures: &[u64; CHARTS],
    shuts: &[u64; CHARTS],
    masks: &mut [u64],
    small: &mut [u8],
) -> Found
    requires { Checked n body.now × Ready n body.now config.now
        × Prepared n body.now down masks.old small.old
        × Shut n body.now config.now shuts.now
        × Narrowed n body.now config.now reads.now may.now sures.now }
    ensures { Finds n body.now config.now input result
        × Prepared n body.now down masks.new small.new }
{
    let mut low = lows(down, input);
    candidates::choose(
        n, body, config, reads, may, sures, shuts, &mut low, masks, small,
    );
    if n.edition == limits::STAY_EDITION as usize {
        return found_staying(n, body, config, low, may, shuts, masks, small);
    }
    let guards = [0u64; 0];
    let stays = [0u8; triggers::STAYS];
    searched(masks, small, &guards, &stays, n.charts, low)
}

// How many choices are open from a configuration; `shuts` gets the states that each chart must not go to, since none
// begins so. `counts` has how many transitions of each chart leave its state.
fn counted(
    n: Shape,
    body: &[u8],
    config: &[u8],
    small: &[u8],
    counts: &mut [u64; CHARTS],
    shuts: &mut [u64; CHARTS],
) -> u64
    requires { Checked n body.now × Valid (file_at n body.now) config.now
        × NearestIn (file_at n body.now) small.now
        × (length small.now ≡ small_size) × (length counts.old ≡ most_charts)
        × LeavesTo n body.now config.now n.charts counts.old × (shuts.old ≡ replicate most_charts 0) }
    ensures { (result ≡ open_in (file_at n body.now) config.now)
        × Shut n body.now config.now shuts.new
        × (length counts.new ≡ most_charts) }
{
    let masters = small::masters(small);
    let states = small::slave_states(small);
    let open_choices = counting::open_choices(n, body, config, masters, states, counts);
    counting::shut(n.charts, config, masters, states, counts, shuts);
    open_choices
}

// What a step comes to: how many choices are open, and what was found among them.
#[derive(Clone, Copy)]
pub struct Tried {
    pub found: Found,
    pub open_choices: u64,
}

impl Tried {
    // The choice that was found, or 24 or 23.
    pub fn choice(self) -> Result<Found, Refused>
        ensures { Told self result }
    {
        let open_choices = self.open_choices;
        if open_choices > limits::MOST_OPEN {
            return Err(Refused {
                refusal: Refusal::ManyOpen,
                open_choices,
            });
        }
        let f = self.found;
        if f.has {
            return Ok(f);
        }
        Err(Refusal::NoStep.into())
    }
}

// Nothing was looked for among so many open choices.
fn untried(open_choices: u64) -> Tried
    ensures { (result.open_choices ≡ open_choices) × (result.found ≡ nothing) }
{
    Tried {
        open_choices,
        found: search::none(),
    }
}

// One step of a wired body from a configuration. There is nothing to look for where no choice is open; where too many
// are, nothing is looked for.
pub fn try_wired(
    n: Shape,
    body: &[u8],
    config: &[u8],
    input: u64,
    down: [u64; CHARTS],
    masks: &mut [u64],
    small: &mut [u8],
) -> Tried
    requires { Checked n body.now × Valid (file_at n body.now) config.now
        × Prepared n body.now down masks.old small.old }
    ensures { Tries n body.now config.now input result
        × Prepared n body.now down masks.new small.new }
{
    let mut reads = [signals::ALL; CHARTS];
    let mut may = [0u64; CHARTS];
    let mut sures = [0u64; CHARTS];
    let mut counts = [0u64; CHARTS];
    candidates::puts_all(n, body, config, &reads, &mut may, &mut sures, &mut counts);
    let mut shuts = [0u64; CHARTS];
    let open_choices = counted(n, body, config, small, &mut counts, &mut shuts);
    if open_choices == 0 {
        return untried(open_choices);
    }
    if open_choices > limits::MOST_OPEN {
        return untried(open_choices);
    }
    read_by(
        n,
        body,
        config,
        masks,
        open_choices,
        &mut reads,
        &mut may,
        &mut sures,
        &mut counts,
    );
    let found = found(
        n, body, config, &reads, input, down, &may, &sures, &shuts, masks, small,
    );
    Tried {
        open_choices,
        found,
    }
}

// One step of a body, wired for it into so many masks.
fn try_in<const MASKS: usize>(n: Shape, body: &[u8], config: &[u8], input: u64) -> Tried
    requires { Checked n body.now × Valid (file_at n body.now) config.now
        × (masks_for n.charts ≤ MASKS) × (MASKS ≤ masks_for most_charts) }
    ensures { Tries n body.now config.now input result }
{
    let mut masks = [0u64; MASKS];
    let mut small = [0u8; small::SIZE];
    let down = plan::wired(n, body, &mut masks, &mut small);
    try_wired(n, body, config, input, down, &mut masks, &mut small)
}

// The same, for fewer charts with fewer masks: to zero them takes a good part of a step.
fn try_new(n: Shape, body: &[u8], config: &[u8], input: u64) -> Tried
    requires { Checked n body.now × Valid (file_at n body.now) config.now }
    ensures { Tries n body.now config.now input result }
{
    if n.charts <= cells::PAIR {
        return try_in::<{ masks::PAIR_SIZE }>(n, body, config, input);
    }
    if n.charts <= cells::FEW {
        return try_in::<{ masks::FEW_SIZE }>(n, body, config, input);
    }
    if n.charts <= cells::HALF {
        return try_in::<{ masks::HALF_SIZE }>(n, body, config, input);
    }
    try_in::<{ masks::SIZE }>(n, body, config, input)
}

// The first n states, over the front of the caller's buffer.
pub fn put_states(buffer: &mut [u8], states: [u8; CHARTS], n: usize)
    requires { (n ≤ most_charts) × (n ≤ length buffer.old) }
    ensures { buffer.new ≡ laid_over (take n states) buffer.old }
{
    buffer[..n].copy_from_slice(&states[..n]);
}

// One step from a configuration under an input, after 20 to 22: the next configuration goes to `next`.
pub fn of_body(
    n: Shape,
    body: &[u8],
    config: &[u8],
    input: u64,
    next: &mut [u8],
) -> Result<Stepped, Refused>
    requires { Checked n body.now }
    ensures { BodySteps (file_at n body.now) config.now input next.old result
        next.new }
{
    test_config(n, body, config)?;
    if next.len() < n.charts {
        return Err(Refusal::ShortBuffer.into());
    }
    let t = try_new(n, body, config, input);
    let f = t.choice()?;
    let states = f.next;
    put_states(next, states, n.charts);
    let places = f.places;
    Ok(Stepped {
        output: f.output,
        mark: f.agree,
        places,
        open_choices: t.open_choices,
    })
}
