// J1 after J1: "J1 pop (0), execute it."
ghost use Rattle.std.specs.Prelude.{◌≡◌, ◌+◌, ◌≤◌, length};
ghost use Rattle.paper.specs.Limits.{largest_n};
ghost use Rattle.undo.specs.Did.{Suits};
ghost use Rattle.cycle.specs.Reaches.{is_j1, Past};

use paper::{Refusal, Symbol, limits};

const J1: u16 = limits::J0 + 1;

// J1 is to be done: c is its cell, a process.
fn is_j1(cells: &[u64], c: u16) -> bool
    ensures { result ≡ is_j1 cells.now c }
{
    c == J1 && cells::is_process(cells::peek(cells, c))
}

// The symbol that is executed in the end. Each J1 pops, so there are more turns than cells.
pub(crate) fn past_j1(
    cells: &mut [u64],
    log: &mut [u64],
    top: u16,
    x: Symbol,
) -> Result<Symbol, Refusal>
    requires { Suits log.old (length cells.old + 1) top × (length cells.old ≤ largest_n) }
    ensures { Past top x cells.old log.old cells.new log.new result }
{
    let mut y = x;
    let turns = cells.len() + 1;
    for _ in 0..turns {
        if !is_j1(cells, y.num) {
            return Ok(y);
        }
        let w0 = acts::own(cells, limits::H0);
        acts::pop(cells, log, top)?;
        y = cells::symbol(w0);
    }
    Err(Refusal::WrongKind(y.num))
}
