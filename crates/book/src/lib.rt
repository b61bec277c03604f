// What the loader keeps, and its small steps: document 01, "The deck". Each ends at its first fault; what it wrote before then does not
// count, as a refused load zeroes every cell.
#![tactic(auto)]

ghost use Rattle.std.specs.Prelude.{◌≡◌, cond, ℕ, eqb, set, List, Ok};
ghost use Rattle.paper.specs.Cell.{Cell, Region};
ghost use Rattle.cells.specs.Pack.{Packs};
ghost use Rattle.paper.specs.Step.{refuse_if, ret, if_then};
ghost use Rattle.paper.specs.Record.{in_region, as_local};
ghost use Rattle.paper.specs.Deck.{take_cell, new_local, mention, known, name_fits, closes, cell_for, cell_named, link_up, fill, can_start};
ghost use Rattle.steps.specs.Follows.{Always};
ghost use Rattle.regions.specs.Table.{Laid};
ghost use Rattle.records.specs.Symbols.{name_of};
ghost use Rattle.book.specs.declared.Notes.{Notes};
ghost use Rattle.book.specs.declared.locals.Local.{Local};
ghost use Rattle.book.specs.Kept.{no_notes, held, book_of, RegionsAre, LocalsAre, NotedIn};
ghost use Rattle.book.specs.Booked.{Told, OnCells, OnLocals, OnNotes, OnTable, OnNames, OnAll};

mod fields;
mod listed;
mod locals;
mod names;

pub use fields::{data_tag, is_blank, is_missing};
use listed::is_listed;
pub use locals::{Local, Locals, NO_LOCALS, forget};
use locals::{all_words, local_at, note};
use names::{mark, named};
use paper::{Fault, Field, limits};
use records::Name;
use regions::Regions;

// Whether a word has come and whether a structure is open, and the cell whose blank LINK the next record fills,
// 0 where none waits, as in the definitions: no word of a deck stands in cell 0.
#[derive(Clone, Copy)]
pub struct Notes {
    pub words: bool,
    pub opened: bool,
    pub waiting: u16,
}

// A test: a fault where b holds. It and undo's are two, since a clause can't range over the type of the states that a test leaves as they are.
pub fn refuse_if(b: bool, e: Fault) -> Result<(), Fault>
    ensures { Told Always (refuse_if b e) result }
{
    if b {
        return Err(e);
    }
    Ok(())
}

// Past the end there is no cell.
pub fn put(cells: &mut [u64], c: u16, x: u64)
    ensures { cells.new ≡ set cells.old c x }
{
    cells::set_at(cells, usize::from(c), x);
}

impl Notes {
    // Before any word.
    pub fn none() -> Self
        ensures { result ≡ no_notes }
    {
        Self {
            words: false,
            opened: false,
            waiting: 0,
        }
    }
}

// "cells come from its front"
fn take_cell(cells: &mut [u64]) -> Result<u16, Fault>
    ensures { OnCells take_cell cells result }
{
    let h = cells::word_in(cells::peek(cells, limits::H2));
    let c = (h % cells::SYMB) as u16;
    refuse_if(c == 0, Fault::NoCell)?;
    let next = cells::free_link(cells::peek(cells, c));
    put(cells, limits::H2, cells::with_link(h, next));
    put(cells, c, cells::EMPTY);
    Ok(c)
}

fn new_local(cells: &mut [u64], locals: &mut Locals, n: u16) -> Result<u16, Fault>
    ensures { OnLocals (new_local n) locals cells result }
{
    let c = take_cell(cells)?;
    note(locals, n, Local::new(c, false));
    Ok(c)
}

// "locals .. get a cell at first mention"
fn mention(cells: &mut [u64], locals: &mut Locals, n: u16) -> Result<u16, Fault>
    ensures { OnLocals (mention n) locals cells result }
{
    let c = local_at(locals, n).cell();
    if c == 0 {
        return new_local(cells, locals, n);
    }
    Ok(c)
}

// "any regional symbol outside its region or of an undeclared one"
pub fn known(regions: Regions, f: Field) -> Result<(), Fault>
    requires { Laid regions }
    ensures { Told (RegionsAre regions) (known f) result }
{
    match f {
        Field::Regional(b, n) => refuse_if(regions.cell_of(b, n) == 0, Fault::BadName),
        _ => Ok(()),
    }
}

// NAME: "a name defined twice or out of place"; a cell below those of the deck is none, or "one in H, W or J". A local in SYMB or LINK has a
// structure open: each record that is loaded leaves one open (OpenLaws of `paper`).
pub fn name_fits(
    names: &[bool],
    locals: &Locals,
    regions: Regions,
    notes: Notes,
    word: bool,
    name: Name,
) -> Result<(), Fault>
    requires { Laid regions }
    ensures { Told (NotedIn regions notes locals.now names.now) (name_fits word (name_of name)) result }
{
    let w = notes.waiting;
    match name {
        Name::Regional(b, n) => {
            let c = regions.cell_of(b, n);
            refuse_if(
                (w != 0) | (c < limits::FIRST_DECK) | named(names, c),
                Fault::BadName,
            )
        }
        Name::Local(n) => {
            refuse_if(
                ((w != 0) & !word) | !notes.opened | local_at(locals, n).has_word(),
                Fault::BadName,
            )
        }
        Name::Blank => refuse_if((w == 0) | !word, Fault::BadName),
    }
}

// "A structure ends at the next such regional NAME or at kind 5."
pub fn closes(locals: &Locals) -> Result<(), Fault>
    ensures { Told (LocalsAre locals.now) closes result }
{
    refuse_if(!all_words(locals), Fault::NoWord)
}

// "A regional NAME outside H, W, J opens a structure; locals belong to the open one"
fn open_structure(
    names: &mut [bool],
    locals: &mut Locals,
    regions: Regions,
    notes: Notes,
    b: u8,
    n: u16,
) -> Result<(Notes, u16), Fault>
    requires { Laid regions }
    ensures { OnNames (cell_for (in_region b n)) regions notes locals names result }
{
    closes(locals)?;
    let c = regions.cell_of(b, n);
    mark(names, c);
    forget(locals);
    let opened = Notes {
        words: true,
        opened: true,
        ..notes
    };
    Ok((opened, c))
}

fn define_local(cells: &mut [u64], locals: &mut Locals, n: u16) -> Result<u16, Fault>
    ensures { OnLocals (cell_for (as_local n)) locals cells result }
{
    let c = mention(cells, locals, n)?;
    note(locals, n, Local::new(c, true));
    Ok(c)
}

// The cell that NAME gives a record, and the notes with it: "a blank-named word gets its cell at NAME".
pub fn cell_for(
    cells: &mut [u64],
    names: &mut [bool],
    locals: &mut Locals,
    regions: Regions,
    notes: Notes,
    name: Name,
) -> Result<(Notes, u16), Fault>
    requires { Laid regions }
    ensures { OnAll (cell_for (name_of name)) regions notes locals cells names result }
{
    match name {
        Name::Regional(b, n) => open_structure(names, locals, regions, notes, b, n),
        Name::Local(n) => Ok((notes, define_local(cells, locals, n)?)),
        Name::Blank => Ok((notes, take_cell(cells)?)),
    }
}

// The cell that a SYMB or LINK names.
pub fn cell_named(
    cells: &mut [u64],
    locals: &mut Locals,
    regions: Regions,
    f: Field,
) -> Result<u16, Fault>
    requires { Laid regions }
    ensures { OnTable (cell_named f) regions locals cells result }
{
    match f {
        Field::Regional(b, n) => Ok(regions.cell_of(b, n)),
        Field::Local(n) => mention(cells, locals, n),
        Field::Zero | Field::Blank => Ok(0),
    }
}

// "A blank LINK means the next record's cell": the cell w, if there is one that waits, gets the LINK c.
fn link_up(cells: &mut [u64], w: u16, c: u16)
    ensures { OnCells (if_then (eqb w 0) (ret tt) (link_up w c)) cells (Ok tt) }
{
    if w == 0 {
        return;
    }
    let x = cells::peek(cells, w);
    if x < cells::FREE {
        put(cells, w, cells::with_link(x, c));
    }
}

// The record's cell c gets the number x; the cell that waited is linked to it; c waits if its own LINK is blank.
pub fn fill(cells: &mut [u64], notes: Notes, c: u16, x: u64, waits: bool) -> Notes
    ensures { (y : Cell) → Packs x y → OnNotes (fill c y waits) notes cells result (Ok tt) }
{
    link_up(cells, notes.waiting, c);
    put(cells, c, x);
    Notes {
        words: true,
        waiting: if waits { c } else { 0 },
        ..notes
    }
}

// CR 5: of the start cell, which H1 names: a process is listed; another cell some record has as NAME.
pub fn can_start(cells: &[u64], names: &[bool]) -> bool
    ensures { (rs : List Region) (k : Notes) (l : List Local) → result ≡ can_start (book_of (held rs k l cells.now names.now)) }
{
    let start = cells::symbol(cells::word_in(cells::peek(cells, limits::H1)));
    let c = start.num;
    match c {
        limits::J0..limits::FIRST_DECK => is_listed(c - limits::J0),
        _ => named(names, c),
    }
}
