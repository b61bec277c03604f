// Freeing the cells of a walk or a chain, the last met first.
ghost use Rattle.std.specs.Prelude.{List, ℕ, ◌≤◌, length, reverse, Ok};
ghost use Rattle.paper.specs.Limits.{smallest_n, first_deck};
ghost use Rattle.paper.specs.Walk.{none_reserved, release_all, erase_back, erase};
ghost use Rattle.undo.specs.Log.{Room};
ghost use Rattle.undo.specs.Did.{Always, Top, Suits, Did};
ghost use Rattle.structures.specs.Walks.{InRange, Gets};

use crate::{Scratch, walks};
use paper::{Refusal, limits};

// 24 at the first reserved cell among those met.
fn none_reserved(met: &[u16], top: u16) -> Result<(), Refusal>
    requires { first_deck ≤ top }
    ensures { (s : List ℕ) → Gets (Top top) (none_reserved met.now) s result }
{
    for c in met {
        undo::refuse_if(acts::reserved(top, *c), Refusal::NotToBeFreed(*c))?;
    }
    Ok(())
}

// The cells met are freed, the last first: each is linked to the one freed before it, and H2 to the last.
fn release_all(cells: &mut [u64], log: &mut [u64], met: &[u16])
    requires { (smallest_n ≤ length cells.old) × Room log.old (length met.now) }
    ensures { Did Always (length met.now) (release_all (reverse met.now)) cells log (Ok tt) }
{
    if met.is_empty() {
        return;
    }
    let h = acts::own(cells, limits::H2);
    let mut l = (h % 65536) as u16;
    for i in (0..met.len()).rev() {
        let c = met[i];
        undo::put(cells, log, c, cells::of_free(l));
        l = c;
    }
    undo::put(cells, log, limits::H2, cells::with_link(h, l));
}

// The cells met are freed, unless one is reserved.
pub(crate) fn erase_back(
    cells: &mut [u64],
    log: &mut [u64],
    met: &[u16],
    top: u16,
) -> Result<(), Refusal>
    requires { (smallest_n ≤ length cells.old) × Suits log.old (length met.now) top }
    ensures { Did (Top top) (length met.now) (erase_back (reverse met.now)) cells log result }
{
    none_reserved(met, top)?;
    release_all(cells, log, met);
    Ok(())
}

// The structure at c is erased.
pub(crate) fn erase(
    cells: &mut [u64],
    log: &mut [u64],
    scratch: &mut Scratch,
    top: u16,
    c: u16,
) -> Result<(), Refusal>
    requires { InRange cells.old × Suits log.old (length cells.old) top }
    ensures { Did (Top top) (length cells.old) (erase c) cells log result }
{
    let n = walks::walk(cells, scratch, c)?;
    erase_back(cells, log, scratch.met(n), top)
}
