// One cycle of document 01: step 2; step 3 with its fetch, the decision over P, J1 and the family of a process; then the LINK; and the
// end of a cycle, which undoes a refused one. Line by line the blocks of paper/specs/Cycle.
#![tactic(auto)]

ghost use Rattle.std.specs.Prelude.{◌≡◌, List, ◌≢◌, ◌+◌, ◌-◌, ◌*◌, ◌^◌, ◌<◌, ◌≤◌, length, get_or};
ghost use Rattle.paper.specs.Limits.{first_deck};
ghost use Rattle.paper.specs.Cell.{J, Region};
ghost use Rattle.paper.specs.Process.{then as and_then, goes_on, perform};
ghost use Rattle.paper.specs.Cycle.{executes, operate, interpret};
ghost use Rattle.steps.specs.Follows.{seen_as};
ghost use Rattle.undo.specs.Log.{Room};
ghost use Rattle.undo.specs.Did.{Top, Suits, Did};
ghost use Rattle.acts.specs.GoesOn.{going_on};
ghost use Rattle.regions.specs.Lent.{Tells, Told};
ghost use Rattle.structures.specs.Walks.{InRange};
ghost use Rattle.cycle.specs.Parts.{Lends, Steps, end_in, control_in};
ghost use Rattle.cycle.specs.Turns.{Ready, Turns, Settles};

use control::Operated;
use fetched::Fetched;
use paper::{Refusal, Symbol, limits};
use regions::Table;
use structures::Scratch;

mod control;
mod fetched;
mod past;
mod tally;

// A process that prints nothing, by its family. J1 is not among them: it is done before. A process stays its number, which the paper's table
// computes with: any number is a value, and most are 28.
fn by_family(
    cells: &mut [u64],
    log: &mut [u64],
    scratch: &mut Scratch,
    top: u16,
    j: u16,
) -> Result<(), Refusal>
    requires { InRange cells.old × Suits log.old (length cells.old + 40) top
        × (j ≢ 1) × (j ≢ 152) × (j ≢ 153) × (J j < 2 ^ 16) }
    ensures { Did (Top top) (length cells.old + 40) (perform j) cells log (going_on result) }
{
    match j {
        0..=59 => stacks::on_stacks(cells, log, top, j),
        60..=70 => lists::on_lists(cells, log, top, j),
        71..=74 => structures::on_structures(cells, log, scratch, top, j),
        75..=109 => lists::on_lists(cells, log, top, j),
        110..=129 => numbers::on_numbers(cells, log, top, j),
        130..=151 => stacks::on_tags(cells, log, top, j),
        152..=65535 => Err(Refusal::NotListed(limits::J0 + j)),
    }
}

// The process j: where the lines end after it. Those that print are handed the table and the lent bytes, and nobody else is.
fn perform(
    cells: &mut [u64],
    log: &mut [u64],
    scratch: &mut Scratch,
    table: &Table,
    out: &mut [u8],
    at: usize,
    j: u16,
) -> Result<usize, Refusal>
    requires { Lends (length cells.old + 40) cells.old log.old table.now out.old at
        × (j ≢ 1) × (J j < 2 ^ 16) }
    ensures { Steps (length cells.old + 40) (perform j) cells log table out at result (seen_as (λ _. and_then goes_on) result) }
{
    if 152 <= j {
        if j <= 153 {
            return printing::on_lines(cells, log, table, out, at, j);
        }
    }
    by_family(cells, log, scratch, top_of(table), j)?;
    Ok(at)
}

// Where the regions end: at the first cell of a deck or past it.
fn top_of(table: &Table) -> u16
    requires { Told table.now }
    ensures { (result ≡ get_or table.now 0 0) × (first_deck ≤ result) }
{
    table[0] as u16
}

// The number of the process in cell c; a cell before J0 has none.
fn process_number(c: u16) -> u16
    ensures { (result ≡ c - J 0) × (J result < 2 ^ 16) }
{
    c.saturating_sub(limits::J0)
}

// "a process is done at once; any other kind preserves H1 and puts S in it"
fn execute(
    cells: &mut [u64],
    log: &mut [u64],
    scratch: &mut Scratch,
    table: &Table,
    out: &mut [u8],
    at: usize,
    x: Symbol,
) -> Result<Operated, Refusal>
    requires { Lends (2 * length cells.old + 41) cells.old log.old table.now out.old at }
    ensures { Steps (2 * length cells.old + 41) (executes x) cells log table out at (end_in result) (control_in result) }
{
    let y = past::past_j1(cells, log, top_of(table), x)?;
    let t = acts::touch(cells, y.num)?;
    acts::not_own(y.num)?;
    if cells::is_process(t) {
        let j = process_number(y.num);
        let end = perform(cells, log, scratch, table, out, at, j)?;
        return Ok(Operated {
            away: false,
            end: end,
        });
    }
    control::descend(cells, log, y)?;
    Ok(Operated {
        away: true,
        end: at,
    })
}

// "Then by P"
fn operate(
    cells: &mut [u64],
    log: &mut [u64],
    scratch: &mut Scratch,
    table: &Table,
    out: &mut [u8],
    at: usize,
    f: Fetched,
) -> Result<Operated, Refusal>
    requires { Lends (2 * length cells.old + 41) cells.old log.old table.now out.old at }
    ensures { Steps (2 * length cells.old + 41) (operate f.p f.x) cells log table out at (end_in result) (control_in result) }
{
    let p = f.p;
    let x = f.x;
    match p {
        0 => execute(cells, log, scratch, table, out, at, x),
        1..=6 => {
            control::on_symbol(cells, log, top_of(table), p, x)?;
            Ok(Operated {
                away: false,
                end: at,
            })
        }
        7..=255 => {
            let away = control::branch(cells, log, x);
            Ok(Operated {
                away: away,
                end: at,
            })
        }
    }
}

// Step 3: what is to be done is fetched first.
fn interpret(
    cells: &mut [u64],
    log: &mut [u64],
    scratch: &mut Scratch,
    table: &Table,
    out: &mut [u8],
    at: usize,
    c: u16,
) -> Result<usize, Refusal>
    requires { Lends (2 * length cells.old + 41) cells.old log.old table.now out.old at }
    ensures { Steps (2 * length cells.old + 41) (interpret c) cells log table out at result (seen_as (λ _. tt) result) }
{
    let top = top_of(table);
    let f = fetched::fetch(cells, top, c)?;
    let r = operate(cells, log, scratch, table, out, at, f)?;
    control::advance(cells, log, top, f.link, r.away);
    Ok(r.end)
}

// The end of a cycle: its line stands and H3 counts it, or all its writes are undone.
fn settle(cells: &mut [u64], log: &[u64], outcome: Result<usize, Refusal>) -> Result<usize, Refusal>
    requires { Room log.now 0 × (4 < length cells.old) }
    ensures { Settles outcome log.now cells.old cells.new result }
{
    match outcome {
        Ok(_) => tally::count(cells),
        Err(_) => undo::rewind(cells, log),
    }
    outcome
}

// A cycle that is no finish: where the lines end now. Refused, it leaves cells and lines as it found them.
pub fn cycle(
    cells: &mut [u64],
    log: &mut [u64],
    scratch: &mut Scratch,
    table: &Table,
    out: &mut [u8],
    at: usize,
) -> Result<usize, Refusal>
    requires { Ready cells.old log.old × (at ≤ length out.old) × Told table.now }
    ensures { (rs : List Region) → Tells table.now rs → Turns rs cells.old out.old at
        cells.new out.new log.new result }
{
    undo::begin(cells, log);
    let h = acts::own(cells, limits::H1);
    let c = (h / cells::SYMB % 65536) as u16;
    if c == 0 {
        let outcome = control::ascend(cells, log, top_of(table)).and(Ok(at));
        return settle(cells, log, outcome);
    }
    let outcome = interpret(cells, log, scratch, table, out, at, c);
    settle(cells, log, outcome)
}
