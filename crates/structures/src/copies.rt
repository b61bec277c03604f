// Copying the cells of a walk: a new cell for each, kept in the marks as the table old to new.
ghost use Rattle.std.specs.Prelude.{◌≡◌, true, false, cond, ◌+◌, length, reverse, eqb, Ok};
ghost use Rattle.paper.specs.Walk.{member, take_all, copied, copy_all, copy};
ghost use Rattle.cells.specs.Layout.{unpack_of};
ghost use Rattle.cells.specs.Pack.{Packs};
ghost use Rattle.steps.specs.Follows.{seen_as};
ghost use Rattle.undo.specs.Log.{Room};
ghost use Rattle.undo.specs.Did.{Always, Did};
ghost use Rattle.structures.specs.Marks.{blank, Once, Met};
ghost use Rattle.structures.specs.Net.{copy_of};
ghost use Rattle.structures.specs.Walks.{InRange};
ghost use Rattle.structures.specs.Copies.{new_of, news_of, Finds, AllNew, Leaves, Prepares};

use crate::scratch::{Scratch, clear, mark_at};
use crate::{Marks, walks};
use cells::Cell;
use paper::{Refusal, limits};

// How many new cells were found, and where the free list goes on from them.
#[derive(Clone, Copy)]
struct Found {
    n: usize,
    next: u16,
}

// The next cells of the free list are noted in the marks, one for each cell met; nothing is written yet.
fn find(cells: &[u64], met: &[u16], marks: &mut Marks) -> Found
    requires { Once (reverse met.now) × (marks.old ≡ blank) }
    ensures { Finds cells.now met.now marks.new result }
{
    let h = acts::own(cells, limits::H2);
    let mut next = (h % 65536) as u16;
    for (i, o) in met.iter().enumerate() {
        let x = cells::peek(cells, next);
        if next == 0 || !cells::is_free(x) {
            return Found { n: i, next };
        }
        marks[*o as usize] = next;
        next = cells::free_link(x);
    }
    Found { n: met.len(), next }
}

// Whether c is one of the new cells of those met.
fn among(met: &[u16], marks: &Marks, c: u16) -> bool
    ensures { result ≡ false → member c (news_of marks.now met.now) ≡ false }
{
    met.iter().any(|o| mark_at(marks, *o) == c)
}

// Whether as many were found as were met, none of them twice: as each leads to one other, the last would be one of them again.
fn all_new(met: &[u16], marks: &Marks, found: usize) -> bool
    ensures { result ≡ true → AllNew met.now marks.now found }
{
    match met.split_last() {
        Some((last, before)) => found == met.len() && !among(before, marks, mark_at(marks, *last)),
        None => false,
    }
}

// A new cell for each cell met; the marks tell which. After a refusal there is none.
fn take_all(
    cells: &mut [u64],
    log: &mut [u64],
    met: &[u16],
    marks: &mut Marks,
) -> Result<(), Refusal>
    requires { Once (reverse met.now) × (marks.old ≡ blank) × Room log.old (length met.now) }
    ensures did { Did Always (length met.now) (take_all met.now) cells log
        (seen_as (λ _. news_of marks.new met.now) result) }
    ensures leaves { Leaves met.now marks.new result }
{
    for (i, o) in met.iter().enumerate() {
        match acts::take_as(cells, log, cells::EMPTY) {
            Ok(c) => marks[*o as usize] = c,
            Err(e) => {
                clear(&met[..i], marks);
                return Err(e);
            }
        }
    }
    Ok(())
}

// New cells for those met, noted in the marks. H2 passes over those that were found, which need no word until they get the copy; where
// the free list does not have so many they are taken one by one, or refused.
fn prepare(
    cells: &mut [u64],
    log: &mut [u64],
    met: &[u16],
    marks: &mut Marks,
) -> Result<(), Refusal>
    requires { Met cells.old met.now × (marks.old ≡ blank) × Room log.old (length met.now) }
    ensures prepares { Prepares met.now marks.new (cells.old, log.old) (cells.new, log.new) result }
    ensures leaves { Leaves met.now marks.new result }
{
    let f = find(cells, met, marks);
    if all_new(met, marks, f.n) {
        let h = acts::own(cells, limits::H2);
        undo::put(cells, log, limits::H2, cells::with_link(h, f.next));
        return Ok(());
    }
    clear(&met[..f.n], marks);
    take_all(cells, log, met, marks)
}

// A local name is given anew.
fn new_symb(marks: &Marks, q: u8, symb: u16) -> u16
    ensures { result ≡ cond (eqb q 2) (new_of marks.now symb) symb }
{
    if q == 2 {
        return mark_at(marks, symb);
    }
    symb
}

// What the copy of a cell holds, by the new cells in the marks.
fn copied(marks: &Marks, x: u64) -> u64
    ensures { Packs result (copied (new_of marks.now) (unpack_of x)) }
{
    let c = cells::unpack(x);
    match c {
        Cell::Word(w) => cells::of_fields(
            w.p,
            w.q,
            new_symb(marks, w.q, w.symb),
            mark_at(marks, w.link),
        ),
        Cell::Free(l) => cells::of_free(l),
        Cell::Term(t) => cells::of_term(t),
        Cell::Process => cells::of_process(),
    }
}

// The cells met are copied into their new cells.
fn copy_all(cells: &mut [u64], log: &mut [u64], met: &[u16], marks: &Marks)
    requires { Room log.old (length met.now) }
    ensures { Did Always (length met.now) (copy_all (new_of marks.now) met.now (news_of marks.now met.now))
        cells log (Ok tt) }
{
    for o in met {
        let y = copied(marks, cells::peek(cells, *o));
        undo::put(cells, log, mark_at(marks, *o), y);
    }
}

// A copy of the cells met: the new cell of c.
fn copy_met(
    cells: &mut [u64],
    log: &mut [u64],
    met: &[u16],
    marks: &mut Marks,
    c: u16,
) -> Result<u16, Refusal>
    requires { Met cells.old met.now × (marks.old ≡ blank) × Room log.old (length cells.old + 1) }
    ensures did { Did Always (length cells.old + 1) (copy_of c met.now) cells log result }
    ensures unmarked { marks.new ≡ blank }
{
    prepare(cells, log, met, marks)?;
    copy_all(cells, log, met, marks);
    let name = mark_at(marks, c);
    clear(met, marks);
    Ok(name)
}

// The copy of the structure at c: the cell that names it.
pub(crate) fn copy(
    cells: &mut [u64],
    log: &mut [u64],
    scratch: &mut Scratch,
    c: u16,
) -> Result<u16, Refusal>
    requires { InRange cells.old × Room log.old (length cells.old + 1) }
    ensures { Did Always (length cells.old + 1) (copy c) cells log result }
{
    let n = walks::walk(cells, scratch, c)?;
    copy_met(cells, log, &scratch.order[..n], &mut scratch.marks, c)
}
