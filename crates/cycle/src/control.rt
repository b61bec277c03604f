// What a cycle does besides processes: descending, the operations on S, going on to the LINK, and step 2.
ghost use Rattle.std.specs.Prelude.{◌≤◌};
ghost use Rattle.paper.specs.Cycle.{goes_on, moved, descend, copy_to, put_in, go_to, branch, operate, to_link, advance, link_of, ascend};
ghost use Rattle.undo.specs.Log.{Room};
ghost use Rattle.steps.specs.Follows.{seen_as};
ghost use Rattle.undo.specs.Did.{Always, Top, Suits, Reads, Did};
ghost use Rattle.cycle.specs.Moves.{control_of};

use paper::{Refusal, Symbol, limits};

// What an operation came to: whether control has moved, and where the lines end.
#[derive(Clone, Copy)]
pub struct Operated {
    pub away: bool,
    pub end: usize,
}

// Any kind of cell but a process: H1 is preserved, and x put in it.
pub(crate) fn descend(cells: &mut [u64], log: &mut [u64], x: Symbol) -> Result<(), Refusal>
    requires { Room log.old 1 }
    ensures { Did Always 1 (descend x) cells log (seen_as (λ _. moved) result) }
{
    acts::own_preserve(cells, log, limits::H1)?;
    acts::own_store(cells, log, limits::H1, x);
    Ok(())
}

// P 6: (0) is copied into cell c.
fn copy_to(cells: &mut [u64], log: &mut [u64], c: u16) -> Result<(), Refusal>
    requires { Room log.old 1 }
    ensures { Did Always 1 (copy_to c) cells log result }
{
    let w0 = acts::own(cells, limits::H0);
    acts::store(cells, log, c, cells::symbol(w0))
}

// P 2: (0) is put in cell c, and H0 restored.
fn put_in(cells: &mut [u64], log: &mut [u64], top: u16, c: u16) -> Result<(), Refusal>
    requires { Suits log.old 2 top }
    ensures { Did (Top top) 2 (put_in c) cells log result }
{
    copy_to(cells, log, c)?;
    acts::pop(cells, log, top)
}

fn go_to(cells: &mut [u64], log: &mut [u64], x: Symbol)
    requires { Room log.old 0 }
    ensures { Did Always 0 (go_to x) cells log (Ok moved) }
{
    acts::own_store(cells, log, limits::H1, x);
}

// P 7: to x, if H5's symbol is J3.
pub(crate) fn branch(cells: &mut [u64], log: &mut [u64], x: Symbol) -> bool
    requires { Room log.old 0 }
    ensures { Did Always 0 (branch x) cells log (Ok (control_of result)) }
{
    let h = acts::own(cells, limits::H5);
    if (h / cells::SYMB % 65536) as u16 == limits::J3 {
        go_to(cells, log, x);
        return true;
    }
    false
}

// P 1 to 6, after which control goes on.
pub(crate) fn on_symbol(
    cells: &mut [u64],
    log: &mut [u64],
    top: u16,
    p: u8,
    x: Symbol,
) -> Result<(), Refusal>
    requires { Suits log.old 2 top × (1 ≤ p) × (p ≤ 6) }
    ensures { Did (Top top) 2 (operate p x) cells log (seen_as (λ _. goes_on) result) }
{
    match p {
        1 => acts::push(cells, log, x),
        2 => put_in(cells, log, top, x.num),
        3 => acts::restore(cells, log, top, x.num),
        4 => acts::preserve(cells, log, x.num),
        5 => {
            acts::own_store(cells, log, limits::H0, x);
            Ok(())
        }
        _ => copy_to(cells, log, x.num),
    }
}

fn to_link(cells: &mut [u64], log: &mut [u64], top: u16, l: u16)
    requires { Suits log.old 0 top }
    ensures { Did (Top top) 0 (to_link l) cells log (Ok tt) }
{
    let x = acts::name_of(top, l);
    acts::own_store(cells, log, limits::H1, x);
}

// H1 gets the LINK, unless control has moved.
pub(crate) fn advance(cells: &mut [u64], log: &mut [u64], top: u16, l: u16, away: bool)
    requires { Suits log.old 0 top }
    ensures { Did (Top top) 0 (advance l (control_of away)) cells log (Ok tt) }
{
    if away {
        return;
    }
    to_link(cells, log, top, l);
}

fn link_of(cells: &[u64], c: u16) -> Result<u16, Refusal>
    ensures { Reads Always (link_of c) cells result }
{
    let x = acts::touch(cells, c)?;
    undo::refuse_if(cells::is_term(x), Refusal::WrongKind(c))?;
    acts::not_own(c)?;
    let w = cells::word_in(x);
    Ok((w % 65536) as u16)
}

// Step 2.
pub(crate) fn ascend(cells: &mut [u64], log: &mut [u64], top: u16) -> Result<(), Refusal>
    requires { Suits log.old 1 top }
    ensures { Did (Top top) 1 ascend cells log result }
{
    acts::own_restore(cells, log, top, limits::H1)?;
    let h = acts::own(cells, limits::H1);
    let l = link_of(cells, (h / cells::SYMB % 65536) as u16)?;
    to_link(cells, log, top, l);
    Ok(())
}
