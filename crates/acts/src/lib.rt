// The small actions of a cycle, line by line the blocks of paper/specs/Act. Each ends at its first refusal; what it wrote before stands in the
// log. Reserved cells are those below `top`, where the deck regions end.
#![tactic(auto)]

ghost use Rattle.std.specs.Prelude.{◌+◌, ◌≤◌, ◌≡◌, ◌&&◌, ◌||◌, eqb};
ghost use Rattle.paper.specs.Limits.{first_deck};
ghost use Rattle.paper.specs.Cell.{is_hw, H as cellH};
ghost use Rattle.paper.specs.Act.{own, touch, target, word_at, word_to, term_at, term_to, not_own, named, read_at, take_as, release};
ghost use Rattle.paper.specs.Act.{link_below, preserve, has_below, pull_up};
ghost use Rattle.paper.specs.Act.{restore, store, own_preserve, own_restore, own_store, push, pop, below, pops, gives, symbol_in, symbol_in_that};
ghost use Rattle.paper.specs.Act.{designate};
ghost use Rattle.paper.specs.Process.{sign, set_h5, tests, copy_name};
ghost use Rattle.cells.specs.Layout.{unpack_of, word_of, term_of};
ghost use Rattle.cells.specs.Pack.{pack_of};
ghost use Rattle.undo.specs.Log.{Room, writes};
ghost use Rattle.undo.specs.Did.{Judged, Always, Top, Suits, reserved_by, name_by, Sees, Reads, ReadsAs, Did};
ghost use Rattle.acts.specs.Net.{stays};
ghost use Rattle.acts.specs.Named.{named_to};

use paper::{Refusal, Symbol, limits};

pub fn own(cells: &[u64], c: u16) -> u64
    ensures { Sees Always (own c) cells (word_of result) }
{
    cells::word_in(cells::peek(cells, c))
}

pub fn touch(cells: &[u64], c: u16) -> Result<u64, Refusal>
    ensures { ReadsAs unpack_of Always (touch c) cells result }
{
    undo::refuse_if(c == 0, Refusal::CellZero)?;
    let x = cells::peek(cells, c);
    undo::refuse_if(cells::is_free(x), Refusal::FreeCell(c))?;
    Ok(x)
}

// A cell that an action writes: not H3, whatever it holds.
pub fn target(cells: &[u64], c: u16) -> Result<u64, Refusal>
    ensures { ReadsAs unpack_of Always (target c) cells result }
{
    let x = touch(cells, c)?;
    undo::refuse_if(c == limits::H3, Refusal::OwnCell(c))?;
    Ok(x)
}

// The kind that is asked for is tested first: only where it is not found is it asked which refusal that is.
pub fn word_at(cells: &[u64], c: u16) -> Result<u64, Refusal>
    ensures { ReadsAs word_of Always (word_at c) cells result }
{
    if c == 0 {
        return Err(Refusal::CellZero);
    }
    let x = cells::peek(cells, c);
    if cells::is_word(x) {
        return Ok(cells::word_in(x));
    }
    if cells::is_free(x) {
        return Err(Refusal::FreeCell(c));
    }
    Err(Refusal::WrongKind(c))
}

// A word that an action writes is met as one that it reads, unless it is H3.
pub fn word_to(cells: &[u64], c: u16) -> Result<u64, Refusal>
    ensures { ReadsAs word_of Always (word_to c) cells result }
{
    if c == limits::H3 {
        return target(cells, c); // never stored into
    }
    word_at(cells, c)
}

// As `word_at`, of the other kind; the tests and what is read differ, and handed in as functions they would be no plainer.
pub fn term_at(cells: &[u64], c: u16) -> Result<u64, Refusal>
    ensures { ReadsAs term_of Always (term_at c) cells result }
{
    if c == 0 {
        return Err(Refusal::CellZero);
    }
    let x = cells::peek(cells, c);
    if cells::is_term(x) {
        return Ok(cells::term_in(x));
    }
    if cells::is_free(x) {
        return Err(Refusal::FreeCell(c));
    }
    Err(Refusal::WrongKind(c))
}

pub fn term_to(cells: &[u64], c: u16) -> Result<u64, Refusal>
    ensures { ReadsAs term_of Always (term_to c) cells result }
{
    if c == limits::H3 {
        return target(cells, c); // nor added to
    }
    term_at(cells, c)
}

// H1 and H2.
fn is_own(c: u16) -> bool
    ensures { result ≡ (eqb c (cellH 1) || eqb c (cellH 2)) }
{
    c == limits::H1 || c == limits::H2
}

pub fn not_own(c: u16) -> Result<(), Refusal>
    ensures { Judged (not_own c) result }
{
    undo::refuse_if(is_own(c), Refusal::OwnCell(c))
}

pub fn named(cells: &[u64], c: u16) -> Result<u64, Refusal>
    ensures { ReadsAs word_of Always (named c) cells result }
{
    let w = word_at(cells, c)?;
    not_own(c)?;
    Ok(w)
}

// A word that is to be preserved. Past H3, as nearly all are, nothing is asked of its number.
fn named_to(cells: &[u64], c: u16) -> Result<u64, Refusal>
    ensures { ReadsAs word_of Always (named_to c) cells result }
{
    if limits::H3 < c {
        return word_at(cells, c);
    }
    let w = word_to(cells, c)?;
    not_own(c)?;
    Ok(w)
}

pub fn read_at(cells: &[u64], c: u16) -> Result<u64, Refusal>
    ensures { ReadsAs word_of Always (read_at c) cells result }
{
    let w = word_at(cells, c)?;
    undo::refuse_if(w / cells::Q % 256 == 1, Refusal::WrongKind(c))?;
    not_own(c)?;
    Ok(w)
}

pub fn reserved(top: u16, c: u16) -> bool
    ensures { result ≡ reserved_by top c }
{
    0 < c && c < top
}

pub fn name_of(top: u16, c: u16) -> Symbol
    ensures { result ≡ name_by top c }
{
    if reserved(top, c) {
        return Symbol::regional(c);
    }
    Symbol::internal(c)
}

// The first cell of H2's list gets the number y.
pub fn take_as(cells: &mut [u64], log: &mut [u64], y: u64) -> Result<u16, Refusal>
    requires { Room log.old 1 × (pack_of (unpack_of y) ≡ y) }
    ensures { Did Always 1 (take_as (unpack_of y)) cells log result }
{
    let h = own(cells, limits::H2);
    let f = (h % 65536) as u16;
    undo::refuse_if(f == 0, Refusal::NoFreeCell)?;
    let x = cells::peek(cells, f);
    undo::put(
        cells,
        log,
        limits::H2,
        cells::with_link(h, cells::free_link(x)),
    );
    undo::put(cells, log, f, y);
    Ok(f)
}

pub fn release(cells: &mut [u64], log: &mut [u64], c: u16)
    requires { Room log.old 1 }
    ensures { Did Always 1 (release c) cells log (Ok tt) }
{
    let h = own(cells, limits::H2);
    undo::put(cells, log, c, cells::of_free((h % 65536) as u16));
    undo::put(cells, log, limits::H2, cells::with_link(h, c));
}

pub fn link_below(cells: &mut [u64], log: &mut [u64], c: u16, w: u64, v: u64) -> Result<(), Refusal>
    requires { Room log.old (1 + writes c) }
    ensures { Did Always (1 + writes c) (link_below c (word_of w) (word_of v)) cells log result }
{
    let t = take_as(cells, log, cells::of_word(v))?;
    undo::put(cells, log, c, cells::with_link(w, t));
    Ok(())
}

pub fn preserve(cells: &mut [u64], log: &mut [u64], c: u16) -> Result<(), Refusal>
    requires { Room log.old 2 }
    ensures { Did Always 2 (preserve c) cells log result }
{
    let w = named_to(cells, c)?;
    link_below(cells, log, c, w, w)
}

pub fn has_below(c: u16, w: u64) -> Result<(), Refusal>
    ensures { Judged (has_below c (word_of w)) result }
{
    let l = (w % 65536) as u16;
    undo::refuse_if(l == c, Refusal::NotToBeFreed(c))?;
    undo::refuse_if(l == 0, Refusal::NothingBelow(c))
}

// A Q 1 word that would come into an H or W cell.
fn q1_for_hw(c: u16, w: u64) -> bool
    ensures { result ≡ (is_hw c && eqb (word_of w).q 1) }
{
    reserved(limits::J0, c) && w / cells::Q % 256 == 1
}

pub fn pull_up(
    cells: &mut [u64],
    log: &mut [u64],
    top: u16,
    c: u16,
    below: u16,
) -> Result<(), Refusal>
    requires { Suits log.old (writes c + 1) top }
    ensures { Did (Top top) (writes c + 1) (pull_up c below) cells log result }
{
    let v = word_at(cells, below)?;
    undo::refuse_if(q1_for_hw(c, v), Refusal::WrongKind(below))?;
    undo::refuse_if(reserved(top, below), Refusal::NotToBeFreed(below))?;
    undo::put(cells, log, c, cells::of_word(v));
    release(cells, log, below);
    Ok(())
}

pub fn restore(cells: &mut [u64], log: &mut [u64], top: u16, c: u16) -> Result<(), Refusal>
    requires { Suits log.old 2 top }
    ensures { Did (Top top) 2 (restore c) cells log result }
{
    let w = word_to(cells, c)?;
    has_below(c, w)?;
    not_own(c)?;
    pull_up(cells, log, top, c, (w % 65536) as u16)
}

pub fn store(cells: &mut [u64], log: &mut [u64], c: u16, x: Symbol) -> Result<(), Refusal>
    requires { Room log.old 1 }
    ensures { Did Always 1 (store c x) cells log result }
{
    let w = word_to(cells, c)?;
    not_own(c)?;
    undo::put(cells, log, c, cells::with_symbol(w, x));
    Ok(())
}

// A cell of the machine's own is asked nothing, in the definitions too: so `own_preserve`, `own_restore` and `own_store` stand by themselves.
pub fn own_preserve(cells: &mut [u64], log: &mut [u64], c: u16) -> Result<(), Refusal>
    requires { Room log.old (1 + writes c) }
    ensures { Did Always (1 + writes c) (own_preserve c) cells log result }
{
    let w = own(cells, c);
    link_below(cells, log, c, w, w)
}

pub fn own_restore(cells: &mut [u64], log: &mut [u64], top: u16, c: u16) -> Result<(), Refusal>
    requires { Suits log.old (writes c + 1) top }
    ensures { Did (Top top) (writes c + 1) (own_restore c) cells log result }
{
    let w = own(cells, c);
    has_below(c, w)?;
    pull_up(cells, log, top, c, (w % 65536) as u16)
}

pub fn own_store(cells: &mut [u64], log: &mut [u64], c: u16, x: Symbol)
    requires { Room log.old (writes c) }
    ensures { Did Always (writes c) (own_store c x) cells log (Ok tt) }
{
    let w = own(cells, c);
    undo::put(cells, log, c, cells::with_symbol(w, x));
}

// H0 is written once: its LINK and its symbol together.
pub fn push(cells: &mut [u64], log: &mut [u64], x: Symbol) -> Result<(), Refusal>
    requires { Room log.old 1 }
    ensures { Did Always 1 (push x) cells log result }
{
    let w = own(cells, limits::H0);
    let t = take_as(cells, log, cells::of_word(w))?;
    undo::put(
        cells,
        log,
        limits::H0,
        cells::of_fields((w / cells::P % 256) as u8, x.tag, x.num, t),
    );
    Ok(())
}

pub fn pop(cells: &mut [u64], log: &mut [u64], top: u16) -> Result<(), Refusal>
    requires { Suits log.old 1 top }
    ensures { Did (Top top) 1 pop cells log result }
{
    own_restore(cells, log, top, limits::H0)
}

pub fn below(cells: &[u64], c: u16, w: u64) -> Result<u64, Refusal>
    ensures { ReadsAs word_of Always (below c (word_of w)) cells result }
{
    let l = (w % 65536) as u16;
    if l == 0 {
        return Err(Refusal::NothingBelow(c));
    }
    read_at(cells, l)
}

// N pops, one after another.
pub fn pops<const N: usize>(cells: &mut [u64], log: &mut [u64], top: u16) -> Result<(), Refusal>
    requires { Suits log.old N top }
    ensures { Did (Top top) N (pops N) cells log result }
{
    for _ in 0..N {
        pop(cells, log, top)?;
    }
    Ok(())
}

// A pop and then a push of x, as one write, which is not logged.
fn stays(cells: &mut [u64], log: &mut [u64], top: u16, x: Symbol) -> Result<(), Refusal>
    requires { Suits log.old 0 top }
    ensures { Did (Top top) 0 (stays x) cells log result }
{
    let w = own(cells, limits::H0);
    has_below(limits::H0, w)?;
    let l = (w % 65536) as u16;
    let v = word_at(cells, l)?;
    undo::refuse_if(q1_for_hw(limits::H0, v), Refusal::WrongKind(l))?;
    undo::refuse_if(reserved(top, l), Refusal::NotToBeFreed(l))?;
    undo::put(
        cells,
        log,
        limits::H0,
        cells::of_fields((v / cells::P % 256) as u8, x.tag, x.num, l),
    );
    Ok(())
}

// In a sound store H2 is a word, and the cell that is freed is taken again: a pop and a push as one write, which no loop of pops has.
pub fn gives1(cells: &mut [u64], log: &mut [u64], top: u16, x: Symbol) -> Result<(), Refusal>
    requires { Suits log.old 2 top }
    ensures { Did (Top top) 2 (gives 1 x) cells log result }
{
    if cells::is_word(cells::peek(cells, limits::H2)) {
        return stays(cells, log, top, x);
    }
    pop(cells, log, top)?;
    push(cells, log, x)
}

pub fn gives3(cells: &mut [u64], log: &mut [u64], top: u16, x: Symbol) -> Result<(), Refusal>
    requires { Suits log.old 4 top }
    ensures { Did (Top top) 4 (gives 3 x) cells log result }
{
    pop(cells, log, top)?;
    pop(cells, log, top)?;
    gives1(cells, log, top, x)
}

pub fn symbol_in(cells: &[u64], c: u16) -> Result<Symbol, Refusal>
    ensures { Reads Always (symbol_in c) cells result }
{
    let w = read_at(cells, c)?;
    Ok(cells::symbol(w))
}

pub fn symbol_in_that(cells: &[u64], c: u16) -> Result<Symbol, Refusal>
    ensures { Reads Always (symbol_in_that c) cells result }
{
    let w = read_at(cells, c)?;
    symbol_in(cells, (w / cells::SYMB % 65536) as u16)
}

pub fn designate(cells: &[u64], top: u16, q: u8, c: u16) -> Result<Symbol, Refusal>
    requires { first_deck ≤ top }
    ensures { Reads (Top top) (designate q c) cells result }
{
    if q == 0 {
        return Ok(name_of(top, c));
    }
    if q == 1 {
        return symbol_in(cells, c);
    }
    symbol_in_that(cells, c)
}

// H5: J4 for plus, J3 for minus.
fn sign(plus: bool) -> Symbol
    ensures { result ≡ sign plus }
{
    if plus {
        return Symbol::regional(limits::J4);
    }
    Symbol::regional(limits::J3)
}

pub fn set_h5(cells: &mut [u64], log: &mut [u64], plus: bool)
    requires { Room log.old 0 }
    ensures { Did Always 0 (set_h5 plus) cells log (Ok tt) }
{
    own_store(cells, log, limits::H5, sign(plus));
}

pub fn tests<const N: usize>(
    cells: &mut [u64],
    log: &mut [u64],
    top: u16,
    plus: bool,
) -> Result<(), Refusal>
    requires { Suits log.old N top }
    ensures { Did (Top top) N (tests N plus) cells log result }
{
    set_h5(cells, log, plus);
    pops::<N>(cells, log, top)
}

// "its name is local if X's tag was 2, else internal"
pub fn copy_name(w: u64, n: u16) -> Symbol
    ensures { result ≡ copy_name (word_of w) n }
{
    if w / cells::Q % 256 == 2 {
        return Symbol::local(n);
    }
    Symbol::internal(n)
}
