// Step 3 before its operation: what is to be done.
ghost use Rattle.std.specs.Prelude.{◌≡◌, ◌≤◌};
ghost use Rattle.paper.specs.Limits.{first_deck};
ghost use Rattle.cells.specs.Layout.{word_of};
ghost use Rattle.undo.specs.Did.{Top, ReadsAs};
ghost use Rattle.cycle.specs.Order.{order_of, order_in, fetch};

use paper::{Refusal, Symbol};

// P, S and the LINK.
#[derive(Clone, Copy)]
pub struct Fetched {
    pub p: u8,
    pub x: Symbol,
    pub link: u16,
}

// A word w that was fetched from cell c.
fn order_in(cells: &[u64], top: u16, c: u16, w: u64) -> Result<Fetched, Refusal>
    requires { first_deck ≤ top }
    ensures { ReadsAs order_of (Top top) (order_in c (word_of w)) cells result }
{
    let q = (w / cells::Q % 256) as u8;
    undo::refuse_if(q == Symbol::INTERNAL, Refusal::WrongKind(c))?;
    acts::not_own(c)?;
    let x = acts::designate(cells, top, q, (w / cells::SYMB % 65536) as u16)?;
    Ok(Fetched {
        p: (w / cells::P % 256) as u8,
        x: x,
        link: (w % 65536) as u16,
    })
}

// "fetch the word H1 names and its LINK"; "A process cell fetched directly does its process; its LINK reads as 0".
pub(crate) fn fetch(cells: &[u64], top: u16, c: u16) -> Result<Fetched, Refusal>
    requires { first_deck ≤ top }
    ensures { ReadsAs order_of (Top top) (fetch c) cells result }
{
    if c == 0 {
        return Err(Refusal::CellZero);
    }
    let x = cells::peek(cells, c);
    if cells::is_word(x) {
        return order_in(cells, top, c, cells::word_in(x));
    }
    if cells::is_free(x) {
        return Err(Refusal::FreeCell(c));
    }
    if cells::is_process(x) {
        return Ok(Fetched {
            p: 0,
            x: Symbol::regional(c),
            link: 0,
        });
    }
    Err(Refusal::WrongKind(c))
}
