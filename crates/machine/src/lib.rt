// A run: cycles until the finish, the budget or a refusal. Line by line paper/specs/Run.
#![tactic(auto)]

ghost use Rattle.std.specs.Prelude.{◌≡◌, List};
ghost use Rattle.paper.specs.Cell.{Region};
ghost use Rattle.cells.specs.Pack.{AllFormed};
ghost use Rattle.regions.specs.Lent.{Tells, Told};
ghost use Rattle.cycle.specs.Turns.{Ready};
ghost use Rattle.machine.specs.Numbers.{numbers, is_finished_in, cycles_on, run_on};

use paper::{RunAnswer, limits};
use regions::{Regions, Table};
use structures::Scratch;

// A cycle logs at most two writes a cell and 41 more. The log takes two numbers a write, one to count them, and four for the cells it saves.
const LOG: usize = 2 * (2 * limits::LARGEST_N + 41) + 5;

// The answer of a run, the cycles done, and how many bytes its lines have: these two hold whatever the answer is.
#[derive(Clone, Copy)]
pub struct Ran {
    pub answer: RunAnswer,
    pub cycles: u32,
    pub len: usize,
}

fn came_to(answer: RunAnswer, cycles: u32, len: usize) -> Ran
    ensures { result ≡ record { answer = answer; cycles = cycles; len = len } }
{
    Ran {
        answer: answer,
        cycles: cycles,
        len: len,
    }
}

// Step 1: "If H1's SYMB is 0 and its LINK is 0, the run is finished"
fn finished(cells: &[u64]) -> bool
    ensures { result ≡ is_finished_in cells.now }
{
    let h = cells::word_in(cells::peek(cells, limits::H1));
    (h / cells::SYMB % 65536 == 0) & (h % 65536 == 0)
}

// "The finish is looked for before the budget." The finish ends the loop: over a range of cycles it would be
// asked for again behind the loop, so they are counted by hand.
fn cycles(
    cells: &mut [u64],
    log: &mut [u64],
    scratch: &mut Scratch,
    table: &Table,
    budget: u32,
    out: &mut [u8],
) -> Ran
    requires { Ready cells.old log.old × AllFormed cells.old × Told table.now }
    ensures { (rs : List Region) → Tells table.now rs
        → numbers result cells.new out.new ≡ cycles_on rs budget cells.old out.old }
{
    let mut done = 0;
    let mut at = 0;
    while !finished(cells) {
        if done == budget {
            return came_to(RunAnswer::BudgetSpent, done, at);
        }
        match cycle::cycle(cells, log, scratch, table, out, at) {
            Ok(end) => {
                at = end;
                done += 1;
            }
            Err(e) => return came_to(RunAnswer::Refused(e), done, at),
        }
    }
    came_to(RunAnswer::Finished, done, at)
}

// Cells and a table as a load leaves them, or any others; lines go to `out`, whose length is the room.
pub fn run(cells: &mut [u64], regions: Regions, budget: u32, out: &mut [u8]) -> Ran
    ensures { numbers result cells.new out.new ≡ run_on regions budget cells.old out.old }
{
    match sound::asks(cells, regions) {
        Err(answer) => came_to(answer, 0, 0),
        Ok(_) => {
            if budget > limits::LARGEST_BUDGET {
                return came_to(RunAnswer::NotSound, 0, 0);
            }
            let table = regions.table();
            let mut log = [undo::UNREAD; LOG];
            let mut scratch = Scratch::new();
            cycles(cells, &mut log, &mut scratch, &table, budget, out)
        }
    }
}
