// "The walk of a structure": its cells in walk order, J71's chain, and the processes J71, J72 and J74, which free or copy the cells met.
// The blocks are those of paper/specs/Walk and Process.
#![tactic(auto)]

ghost use Rattle.std.specs.Prelude.{◌+◌, ◌≤◌, length};
ghost use Rattle.paper.specs.Process.{J71, J72, J74, perform};
ghost use Rattle.undo.specs.Did.{Top, Suits, Did};
ghost use Rattle.acts.specs.GoesOn.{going_on};
ghost use Rattle.structures.specs.Walks.{InRange};

mod chains;
mod copies;
mod frees;
mod scratch;
mod walks;

use paper::{Refusal, limits};
pub use scratch::Scratch;
pub use walks::walk;

// A cell is named by a number of 16 bits, and there is a mark for each.
pub const MANY_NUMBERS: usize = 65536;

// The cells met, one after another; a number for each cell, 0 where it has not been met.
pub type Order = [u16; limits::LARGEST_N];

pub type Marks = [u16; MANY_NUMBERS];

// J71 to J74, of which those named are listed.
pub fn on_structures(
    cells: &mut [u64],
    log: &mut [u64],
    scratch: &mut Scratch,
    top: u16,
    j: u16,
) -> Result<(), Refusal>
    requires { InRange cells.old × Suits log.old (length cells.old + 3) top × (71 ≤ j) × (j ≤ 74) }
    ensures { Did (Top top) (length cells.old + 3) (perform j) cells log (going_on result) }
{
    match j {
        71 => j71(cells, log, scratch, top),
        72 => j72(cells, log, scratch, top),
        74 => j74(cells, log, scratch, top),
        _ => Err(Refusal::NotListed(limits::J0 + j)),
    }
}

// "J71 free the LINK chain of (0), or an integer alone."
fn j71(cells: &mut [u64], log: &mut [u64], scratch: &mut Scratch, top: u16) -> Result<(), Refusal>
    requires { InRange cells.old × Suits log.old (length cells.old + 1) top }
    ensures { Did (Top top) (length cells.old + 1) J71 cells log result }
{
    let w0 = acts::own(cells, limits::H0);
    let n = chains::chain(cells, scratch, (w0 / cells::SYMB % 65536) as u16)?;
    frees::erase_back(cells, log, scratch.met(n), top)?;
    acts::pop(cells, log, top)
}

// "J72 frees the walk in reverse order, then pops."
pub fn j72(
    cells: &mut [u64],
    log: &mut [u64],
    scratch: &mut Scratch,
    top: u16,
) -> Result<(), Refusal>
    requires { InRange cells.old × Suits log.old (length cells.old + 1) top }
    ensures { Did (Top top) (length cells.old + 1) J72 cells log result }
{
    let w0 = acts::own(cells, limits::H0);
    frees::erase(cells, log, scratch, top, (w0 / cells::SYMB % 65536) as u16)?;
    acts::pop(cells, log, top)
}

// The copy's name takes the place of (0).
pub fn j74(
    cells: &mut [u64],
    log: &mut [u64],
    scratch: &mut Scratch,
    top: u16,
) -> Result<(), Refusal>
    requires { InRange cells.old × Suits log.old (length cells.old + 3) top }
    ensures { Did (Top top) (length cells.old + 3) J74 cells log result }
{
    let w0 = acts::own(cells, limits::H0);
    let c = copies::copy(cells, log, scratch, (w0 / cells::SYMB % 65536) as u16)?;
    acts::gives1(cells, log, top, acts::copy_name(w0, c))
}
