// J71's chain: words along the LINKs, 31 at a repeat; or a data term alone.
ghost use Rattle.std.specs.Prelude.{◌≡◌, true, []};
ghost use Rattle.paper.specs.Walk.{chain, chain_back};
ghost use Rattle.cells.specs.Layout.{unpack_of};
ghost use Rattle.undo.specs.Did.{Always};
ghost use Rattle.structures.specs.Walks.{Gets, InRange, Holds, FineLink, Chains, Ends, Lists};

use crate::scratch::{Scratch, clear, enlist, mark_at};
use crate::{Marks, Order};
use paper::{Refusal, limits};

// Whether the cell c, which holds x, may come next: a word that is no cell of the machine's own and has not been met. A walk asks other
// things, of other cells, in another order (walks.rt), so that the three functions here and there are no twins.
fn fine(marks: &Marks, c: u16, x: u64) -> bool
    ensures { result ≡ true → FineLink marks.now c (unpack_of x) }
{
    limits::H2 < c && mark_at(marks, c) == 0 && cells::is_word(x)
}

// Why a cell may not come next: its checks in order.
fn refused(cells: &[u64], marks: &Marks, c: u16) -> Result<u64, Refusal>
    ensures { Chains cells.now marks.now c result }
{
    let w = acts::named(cells, c)?;
    undo::refuse_if(mark_at(marks, c) != 0, Refusal::BadWalk(c))?;
    Ok(w)
}

// The cell that comes next.
fn arrive(cells: &[u64], marks: &Marks, c: u16) -> Result<u64, Refusal>
    ensures { Chains cells.now marks.now c result }
{
    let x = cells::peek(cells, c);
    if fine(marks, c, x) {
        return Ok(cells::word_in(x));
    }
    refused(cells, marks, c)
}

// From head along the LINKs, which say where it ends.
fn chain_links(
    cells: &[u64],
    order: &mut Order,
    marks: &mut Marks,
    head: u16,
) -> Result<usize, Refusal>
    requires { Holds cells.now order.old marks.old 0 }
    ensures { Ends (λ f. Gets Always (chain f head []) cells.now)
        cells.now marks.old order.new marks.new result }
{
    let mut c = head;
    let mut n = 0;
    loop {
        let w = match arrive(cells, marks, c) {
            Ok(w) => w,
            Err(e) => {
                clear(&order[..n], marks);
                return Err(e);
            }
        };
        enlist(order, marks, n, c);
        n += 1;
        c = (w % 65536) as u16;
        if c == 0 {
            return Ok(n);
        }
    }
}

pub(crate) fn chain(cells: &[u64], scratch: &mut Scratch, c: u16) -> Result<usize, Refusal>
    requires { InRange cells.now }
    ensures { Lists (chain_back c) cells.now scratch.new.order result }
{
    let x = acts::touch(cells, c)?;
    if cells::is_term(x) {
        scratch.order[0] = c;
        return Ok(1);
    }
    let met = chain_links(cells, &mut scratch.order, &mut scratch.marks, c)?;
    clear(&scratch.order[..met], &mut scratch.marks);
    Ok(met)
}
