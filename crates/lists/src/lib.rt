// The processes on lists: J60 next cell, J63 and J64 insert, J68 delete, J90 new empty cell; and the decision over J60 to J109, where J71, J72
// and J74, on structures, stand elsewhere. (0), (1) are the symbols down H0: the words w0, w1.
#![tactic(auto)]

ghost use Rattle.std.specs.Prelude.{◌≤◌, ◌≡◌, ◌≢◌, ◌&&◌};
ghost use Rattle.paper.specs.Process.{is_end, at_end, drop_end, move_on, next_cell, J60, J63, J64, delete_last, delete_next, J68, J90};
ghost use Rattle.paper.specs.Process.{perform};
ghost use Rattle.cells.specs.Layout.{word_of};
ghost use Rattle.undo.specs.Log.{Room};
ghost use Rattle.undo.specs.Did.{Always, Top, Suits, reserved_by, Did};
ghost use Rattle.acts.specs.GoesOn.{going_on};

use paper::{Refusal, Symbol, limits};

// J60 to J109 but J71, J72 and J74. Those named are listed.
pub fn on_lists(cells: &mut [u64], log: &mut [u64], top: u16, j: u16) -> Result<(), Refusal>
    requires { Suits log.old 5 top × (60 ≤ j) × (j ≤ 109) × (j ≢ 71) × (j ≢ 72) × (j ≢ 74) }
    ensures { Did (Top top) 5 (perform j) cells log (going_on result) }
{
    match j {
        60 => j60(cells, log, top),
        63 => j63(cells, log, top),
        64 => j64(cells, log, top),
        68 => j68(cells, log, top),
        90 => j90(cells, log),
        _ => Err(Refusal::NotListed(limits::J0 + j)),
    }
}

// An empty word with LINK 0.
fn is_end(w: u64) -> bool
    ensures { result ≡ is_end (word_of w) }
{
    w % cells::FREE == cells::EMPTY
}

// An end that may not be freed.
fn reserved_end(top: u16, c: u16, w: u64) -> bool
    ensures { result ≡ (is_end (word_of w) && reserved_by top c) }
{
    is_end(w) && acts::reserved(top, c)
}

// "at LINK 0, (0) stays, minus"
fn at_end(cells: &mut [u64], log: &mut [u64], top: u16, x: Symbol) -> Result<(), Refusal>
    requires { Suits log.old 2 top }
    ensures { Did (Top top) 2 (at_end x) cells log result }
{
    acts::set_h5(cells, log, false);
    acts::gives1(cells, log, top, x)
}

// "an empty next cell with LINK 0 is freed, the LINK made 0, and it counts as the end"
fn drop_end(cells: &mut [u64], log: &mut [u64], top: u16, w0: u64, w: u64) -> Result<(), Refusal>
    requires { Suits log.old 4 top }
    ensures { Did (Top top) 4 (drop_end (word_of w0) (word_of w)) cells log result }
{
    let c = (w0 / cells::SYMB % 65536) as u16;
    undo::put(cells, log, c, cells::with_link(w, 0));
    acts::release(cells, log, (w % 65536) as u16);
    at_end(cells, log, top, cells::symbol(w0))
}

fn move_on(cells: &mut [u64], log: &mut [u64], top: u16, c: u16) -> Result<(), Refusal>
    requires { Suits log.old 2 top }
    ensures { Did (Top top) 2 (move_on c) cells log result }
{
    let x = acts::name_of(top, c);
    acts::set_h5(cells, log, true);
    acts::gives1(cells, log, top, x)
}

fn next_cell(cells: &mut [u64], log: &mut [u64], top: u16, w0: u64, w: u64) -> Result<(), Refusal>
    requires { Suits log.old 4 top }
    ensures { Did (Top top) 4 (next_cell (word_of w0) (word_of w)) cells log result }
{
    let l = (w % 65536) as u16;
    let v = acts::word_at(cells, l)?;
    undo::refuse_if(reserved_end(top, l, v), Refusal::NotToBeFreed(l))?;
    acts::not_own(l)?;
    if is_end(v) {
        return drop_end(cells, log, top, w0, w);
    }
    move_on(cells, log, top, l)
}

// "J60 next cell replaces (0), H5 plus": (0) is popped, and the output pushed.
fn j60(cells: &mut [u64], log: &mut [u64], top: u16) -> Result<(), Refusal>
    requires { Suits log.old 4 top }
    ensures { Did (Top top) 4 J60 cells log result }
{
    let w0 = acts::own(cells, limits::H0);
    let w = acts::named(cells, (w0 / cells::SYMB % 65536) as u16)?;
    if w % 65536 == 0 {
        return at_end(cells, log, top, cells::symbol(w0));
    }
    next_cell(cells, log, top, w0, w)
}

// "J63 insert (0) before the symbol in (1): preserve cell (1), store (0) there"
fn j63(cells: &mut [u64], log: &mut [u64], top: u16) -> Result<(), Refusal>
    requires { Suits log.old 5 top }
    ensures { Did (Top top) 5 J63 cells log result }
{
    let w0 = acts::own(cells, limits::H0);
    let w1 = acts::below(cells, limits::H0, w0)?;
    let c = (w1 / cells::SYMB % 65536) as u16;
    acts::preserve(cells, log, c)?;
    acts::store(cells, log, c, cells::symbol(w0))?;
    acts::pops::<2>(cells, log, top)
}

// "J64 after it, in a new cell with P 0", whatever the next cell is.
fn j64(cells: &mut [u64], log: &mut [u64], top: u16) -> Result<(), Refusal>
    requires { Suits log.old 4 top }
    ensures { Did (Top top) 4 J64 cells log result }
{
    let w0 = acts::own(cells, limits::H0);
    let w1 = acts::below(cells, limits::H0, w0)?;
    let c = (w1 / cells::SYMB % 65536) as u16;
    let w = acts::word_to(cells, c)?;
    acts::not_own(c)?;
    let x = cells::symbol(w0);
    let v = cells::of_fields(0, x.tag, x.num, (w % 65536) as u16);
    acts::link_below(cells, log, c, w, v)?;
    acts::pops::<2>(cells, log, top)
}

// "a last cell becomes empty, H5 minus": one with LINK 0.
fn delete_last(cells: &mut [u64], log: &mut [u64], top: u16, c: u16) -> Result<(), Refusal>
    requires { Suits log.old 2 top }
    ensures { Did (Top top) 2 (delete_last c) cells log result }
{
    undo::put(cells, log, c, cells::of_word(cells::EMPTY));
    acts::tests::<1>(cells, log, top, false)
}

// "the next cell is copied in and freed; H5 plus"
fn delete_next(
    cells: &mut [u64],
    log: &mut [u64],
    top: u16,
    c: u16,
    below: u16,
) -> Result<(), Refusal>
    requires { Suits log.old 3 top }
    ensures { Did (Top top) 3 (delete_next c below) cells log result }
{
    acts::pull_up(cells, log, top, c, below)?;
    acts::tests::<1>(cells, log, top, true)
}

// "J68 delete the symbol in (0)"
fn j68(cells: &mut [u64], log: &mut [u64], top: u16) -> Result<(), Refusal>
    requires { Suits log.old 3 top }
    ensures { Did (Top top) 3 J68 cells log result }
{
    let w0 = acts::own(cells, limits::H0);
    let c = (w0 / cells::SYMB % 65536) as u16;
    let w = acts::word_to(cells, c)?;
    let l = (w % 65536) as u16;
    undo::refuse_if(l == c, Refusal::NotToBeFreed(c))?;
    acts::not_own(c)?;
    if l == 0 {
        return delete_last(cells, log, top, c);
    }
    delete_next(cells, log, top, c, l)
}

// "J90 new empty cell, its internal name pushed."
fn j90(cells: &mut [u64], log: &mut [u64]) -> Result<(), Refusal>
    requires { Room log.old 2 }
    ensures { Did Always 2 J90 cells log result }
{
    let c = acts::take_as(cells, log, cells::of_word(cells::EMPTY))?;
    acts::push(cells, log, Symbol::internal(c))
}
