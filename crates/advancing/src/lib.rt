// A case posted (RULES 11.3 to 11.5): a step from its configuration, its row at its place, and its record after it.
#![tactic(auto)]

ghost use Rattle.std.specs.Prelude.{◌≡◌, List, ◌∷◌, ◌++◌, ℕ, ◌+◌, ◌*◌, ◌≤◌, ◌<◌, length, take, drop};
ghost use Rattle.layout.specs.Le.{bytes};
ghost use Rattle.meaning.specs.Sums.{one};
ghost use Rattle.meaning.specs.Meaning.{Answer};
ghost use Rattle.meaning.specs.Calls.{laid_over, next_in, carried_after};
ghost use Rattle.desk.specs.Posting.{most_cases, last_row, width};
ghost use Rattle.desk.specs.Turns.{Replies, row_bytes, turn_case, turn_row};

use checks::limits;
use checks::refusal::Refusal;
use desk::{Case, Day, Reply};

// What a case carries on: all that it was offered if the step is refused, nothing if it is given.
fn kept(reply: Result<Reply, Refusal>, offered: u64) -> u64
    ensures { (a : Answer) (config : List ℕ) → Replies a config reply
        → result ≡ carried_after a offered }
{
    match reply {
        Ok(_) => 0,
        Err(_) => offered,
    }
}

// The bytes of a record after a step: a refused one leaves them as they were.
fn after(reply: Result<Reply, Refusal>, config: [u8; desk::WIDTH]) -> [u8; desk::WIDTH]
    ensures { (a : Answer) → Replies a config reply → result ≡ next_in a config }
{
    match reply {
        Ok(r) => r.next,
        Err(_) => config,
    }
}

// A mark as a number.
fn mark_of(yes: bool) -> u8
    ensures { result ≡ one yes }
{
    u8::from(yes)
}

// The first n bytes of a record, over the front of the caller's buffer.
fn put_config(buffer: &mut [u8], config: [u8; desk::WIDTH], n: usize)
    requires { (n ≤ width) × (n ≤ length buffer.old) }
    ensures { buffer.new ≡ laid_over (take n config) buffer.old }
{
    buffer[..n].copy_from_slice(&config[..n]);
}

// A row as a run has it. running has this too: the order asks that posting knows a step by its contract alone.
fn put_fields(
    row: &mut [u8],
    output: u64,
    mark: u8,
    refusal: u8,
    config: [u8; desk::WIDTH],
    charts: usize,
)
    requires { (charts ≤ width) × (length row.old ≡ 10 + charts) }
    ensures { row.new ≡ bytes 8 output ++ (mark ∷ refusal ∷ take charts config) }
{
    layout::number::put64(row, 0, output);
    row[desk::MARK] = mark;
    row[desk::REFUSAL] = refusal;
    put_config(&mut row[desk::STATES..], config, charts);
}

// The same, with its number in front.
fn put_row(
    row: &mut [u8],
    number: u32,
    reply: Result<Reply, Refusal>,
    config: [u8; desk::WIDTH],
    charts: usize,
)
    requires { (charts ≤ width) × (length row.old ≡ 14 + charts) }
    ensures { (a : Answer) → Replies a config reply
        → row.new ≡ row_bytes charts number a config }
{
    layout::number::put32(row, 0, number);
    let fields = &mut row[desk::ROW..];
    match reply {
        Ok(r) => {
            let next = r.next;
            let mark = mark_of(r.mark);
            put_fields(fields, r.output, mark, limits::ACCEPTED, next, charts);
        }
        Err(refusal) => put_fields(fields, 0, 0, refusal.number(), config, charts),
    }
}

// Case k posted: its row at its place, and its record after it.
pub fn post_one(file: &[u8], c: Case, d: Day, k: usize, charts: usize, rows: &mut [u8]) -> Case
    requires { (k < most_cases) × (charts ≤ width) × (c.length ≤ width) × (c.last < last_row)
        × (k * (14 + charts) + (14 + charts) ≤ length rows.old) }
    ensures { (result ≡ turn_case file.now c d k)
        × (rows.new ≡ take (k * (14 + charts)) rows.old
        ++ (turn_row charts file.now c d k
        ++ drop (k * (14 + charts) + (14 + charts)) rows.old)) }
{
    let sets = d.sets;
    let config = c.config;
    let offered = c.carried | sets[k];
    let n = c.length as usize;
    let reply = consult::ask(file, config, n, offered);
    let number = c.last + 1;
    let w = desk::ROW + desk::STATES + charts;
    let at = k * w;
    let e = at + w;
    put_row(&mut rows[at..e], number, reply, config, charts);
    Case {
        carried: kept(reply, offered),
        last: number,
        length: c.length,
        config: after(reply, config),
    }
}
