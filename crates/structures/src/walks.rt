// The walk: from a head along the LINKs, and after each cell the list that it names.
ghost use Rattle.std.specs.Prelude.{◌≡◌, true, ◌&&◌, not, ◌+◌, ◌≤◌, ltb};
ghost use Rattle.paper.specs.Limits.{deepest};
ghost use Rattle.paper.specs.Cell.{is_word};
ghost use Rattle.paper.specs.Walk.{enter, walk_back};
ghost use Rattle.cells.specs.Layout.{unpack_of};
ghost use Rattle.structures.specs.Marks.{back};
ghost use Rattle.structures.specs.Walks.{InRange, Holds, Fine, Arrives, Visits, Ends, list_of, sublist, Lists};

use crate::scratch::{Scratch, clear, enlist, mark_at};
use crate::{Marks, Order};
use paper::{Refusal, Symbol, limits};

// Whether the cell c, which holds x, may come next: three looks where a LINK led to it.
fn fine(marks: &Marks, linked: bool, depth: usize, c: u16, x: u64) -> bool
    ensures { result ≡ true → Fine marks.now linked depth c (unpack_of x) }
{
    if c < limits::FIRST_DECK || mark_at(marks, c) != 0 {
        return false;
    }
    if linked {
        return cells::is_word(x);
    }
    depth <= limits::DEEPEST && !cells::is_free(x)
}

// No word, where a LINK led to it.
fn not_word(linked: bool, x: u64) -> bool
    ensures { result ≡ (linked && not (is_word (unpack_of x))) }
{
    linked && !cells::is_word(x)
}

// A list at nesting 65: asked of its head, as a cell reached by a LINK is as deep as the head of its list.
fn too_deep(linked: bool, depth: usize) -> bool
    ensures { result ≡ (not linked && ltb deepest depth) }
{
    !linked && limits::DEEPEST < depth
}

// Why a cell may not come next: its checks in order.
fn refused(cells: &[u64], marks: &Marks, linked: bool, depth: usize, c: u16) -> Result<u64, Refusal>
    ensures { Arrives cells.now marks.now linked depth c result }
{
    let x = acts::touch(cells, c)?;
    undo::refuse_if(acts::reserved(limits::FIRST_DECK, c), Refusal::BadWalk(c))?;
    undo::refuse_if(not_word(linked, x), Refusal::WrongKind(c))?;
    undo::refuse_if(mark_at(marks, c) != 0, Refusal::BadWalk(c))?;
    undo::refuse_if(too_deep(linked, depth), Refusal::BadWalk(c))?;
    Ok(x)
}

// The cell that comes next, reached by a LINK or as the head of a list at a depth.
fn arrive(cells: &[u64], marks: &Marks, linked: bool, depth: usize, c: u16) -> Result<u64, Refusal>
    ensures { Arrives cells.now marks.now linked depth c result }
{
    let x = cells::peek(cells, c);
    if fine(marks, linked, depth, c, x) {
        return Ok(x);
    }
    refused(cells, marks, linked, depth, c)
}

// From head along the LINKs; after each cell the list that it names. The LINKs say where it ends, and no range does.
#[cycle(enter_sublist_walk_links)]
fn walk_links(
    cells: &[u64],
    order: &mut Order,
    marks: &mut Marks,
    head: u16,
    depth: usize,
    from: usize,
) -> Result<usize, Refusal>
    requires { Holds cells.now order.old marks.old from × (depth ≤ deepest + 1) }
    ensures { Ends (λ f. Visits (enter f depth head) cells.now (back from order.old))
        cells.now marks.old order.new marks.new result }
{
    let mut c = head;
    let mut n = from;
    let mut linked = false;
    loop {
        let x = match arrive(cells, marks, linked, depth, c) {
            Ok(x) => x,
            Err(e) => {
                clear(&order[..n], marks);
                return Err(e);
            }
        };
        let w = cells::word_in(x);
        enlist(order, marks, n, c);
        n = enter_sublist(cells, order, marks, w, depth, n + 1)?;
        c = (w % 65536) as u16;
        if c == 0 {
            return Ok(n);
        }
        linked = true;
    }
}

// The list that the word w names, one level deeper; it may name none.
#[cycle(enter_sublist_walk_links)]
fn enter_sublist(
    cells: &[u64],
    order: &mut Order,
    marks: &mut Marks,
    w: u64,
    depth: usize,
    from: usize,
) -> Result<usize, Refusal>
    requires { Holds cells.now order.old marks.old from × (depth ≤ deepest) }
    ensures { Ends (λ f. Visits (sublist depth (list_of w) f) cells.now (back from order.old))
        cells.now marks.old order.new marks.new result }
{
    if (w / cells::Q % 256) as u8 != Symbol::LOCAL {
        return Ok(from);
    }
    let head = (w / cells::SYMB % 65536) as u16;
    if head == 0 {
        return Ok(from);
    }
    walk_links(cells, order, marks, head, depth + 1, from)
}

// The walk of the structure at c.
pub fn walk(cells: &[u64], scratch: &mut Scratch, c: u16) -> Result<usize, Refusal>
    requires { InRange cells.now }
    ensures { Lists (walk_back c) cells.now scratch.new.order result }
{
    let met = walk_links(cells, &mut scratch.order, &mut scratch.marks, c, 1, 0)?;
    clear(&scratch.order[..met], &mut scratch.marks);
    Ok(met)
}
