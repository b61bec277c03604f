// The cells before any word.
ghost use Rattle.std.specs.Prelude.{◌≡◌, ◌≤◌, length};
ghost use Rattle.paper.specs.Limits.{largest_n};
ghost use Rattle.paper.specs.Deck.{next_free, fresh_cell, cells_from, fresh_book};
ghost use Rattle.cells.specs.Pack.{Packs, AllFormed};
ghost use Rattle.cells.specs.Bridge.{unpacked};
ghost use Rattle.regions.specs.Table.{regions_of};
ghost use Rattle.book.specs.Kept.{held, book_of};
ghost use Rattle.deck.specs.Load.{Sized};

use book::{Locals, Notes};
use paper::{Symbol, limits};
use regions::Regions;

// Cells in the width of an index.
const H2: usize = limits::H2 as usize;

const H3: usize = limits::H3 as usize;

const J0: usize = limits::J0 as usize;

const FIRST_DECK: usize = limits::FIRST_DECK as usize;

fn next_free(size: usize, c: usize) -> u16
    requires { size ≤ largest_n }
    ensures { result ≡ next_free size c }
{
    if c < size {
        return c as u16;
    }
    0
}

// Cell c before any word, of `size` cells of which the reserved ones end at `end`. Most are past the machine's own, and asked for first.
fn fresh_cell(size: usize, end: usize, c: usize) -> u64
    requires { (size ≤ largest_n) × (c ≤ largest_n) }
    ensures { Packs result (fresh_cell size end c) }
{
    if FIRST_DECK <= c {
        if c < end {
            return cells::EMPTY;
        }
        return cells::of_free(next_free(size, c + 1));
    }
    match c {
        J0.. => cells::of_process(),
        0 => cells::of_fields(0, 0, 0, 0),
        H2 => {
            let x = Symbol::empty();
            cells::of_fields(0, x.tag, x.num, next_free(size, end))
        }
        H3 => cells::of_integer(cells::ZERO),
        _ => cells::EMPTY,
    }
}

// "The free list starts ascending", "Undefined regional cells are empty words", "H0, W and the rest of H are empty"; H3 counts from 0.
// By itself, and not inside the loader, the loop keeps its constants in registers.
#[inline(never)]
fn lay(cells: &mut [u64], end: usize)
    requires { length cells.old ≤ largest_n }
    ensures { (unpacked cells.new ≡ cells_from (fresh_cell (length cells.old) end) (length cells.old) 0)
        × AllFormed cells.new }
{
    let n = cells.len();
    for c in 0..n {
        cells[c] = fresh_cell(n, end, c);
    }
}

// The book before any word.
pub(crate) fn begin(
    cells: &mut [u64],
    names: &mut [bool],
    locals: &mut Locals,
    regions: Regions,
) -> Notes
    requires { Sized cells.old names.old }
    ensures { (book_of (held (regions_of regions) result locals.new cells.new names.new)
        ≡ fresh_book (length cells.old) (regions_of regions)) × AllFormed cells.new }
{
    lay(cells, regions.top());
    names.fill(false);
    book::forget(locals);
    Notes::none()
}
