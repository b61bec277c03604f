// The loader: document 01, "The deck".
#![tactic(auto)]

ghost use Rattle.std.specs.Prelude.{◌≡◌, true, length};
ghost use Rattle.paper.specs.Region.{is_letter};
ghost use Rattle.paper.specs.Record.{byte_at};
ghost use Rattle.paper.specs.Deck.{load_word, load_routine, load_term, load_region, load_start, load_one};
ghost use Rattle.cells.specs.Layout.{term_of};
ghost use Rattle.regions.specs.Table.{Laid};
ghost use Rattle.records.specs.Symbols.{name_of, record_of, symbols_at, Written};
ghost use Rattle.book.specs.Booked.{OnKept};
ghost use Rattle.deck.specs.Load.{Loads, Made, Places, Sized, Lettered, Ends, ordinary, one_record};

mod fresh;

use book::{Locals, NO_LOCALS, Notes};
use fresh::begin;
use paper::{Fault, Field, LoadAnswer, limits};
use records::{Name, Record};
use regions::Regions;

// A word as its record writes it.
#[derive(Clone, Copy)]
struct Entry {
    p: u8,
    q: u8,
    symb: Field,
    link: Field,
}

// What a record comes to: was it the start, and what is noted? No fault, which is the other side of a Result.
#[derive(Clone, Copy)]
struct Placed {
    last: bool,
    notes: Notes,
    regions: Regions,
}

// The answer of a load, and the regions, none where it is refused: a caller may run what a refusal left, so that both stand side by side.
#[derive(Clone, Copy)]
pub struct Loaded {
    pub answer: LoadAnswer,
    pub regions: Regions,
}

// Cells, names and locals are lent one by one: a struct of them would cost each contract a second clause, that the references stay the same,
// and one that owns them would hold a place for each cell that a store can have. So that names are as many as cells is asked (`Sized`).

// Kinds 2 and 3; cells "in the order NAME, SYMB, LINK".
fn load_word(
    cells: &mut [u64],
    names: &mut [bool],
    locals: &mut Locals,
    regions: Regions,
    notes: Notes,
    name: Name,
    w: Entry,
) -> Result<Placed, Fault>
    requires { Made regions }
    ensures { Places (ordinary (load_word (name_of name) w.p w.q w.symb w.link)) regions notes locals cells names result }
{
    book::name_fits(names, locals, regions, notes, true, name)?;
    book::known(regions, w.symb)?;
    book::known(regions, w.link)?;
    let (notes, c) = book::cell_for(cells, names, locals, regions, notes, name)?;
    let symb = book::cell_named(cells, locals, regions, w.symb)?;
    let link = book::cell_named(cells, locals, regions, w.link)?;
    let x = cells::of_fields(w.p, w.q, symb, link);
    Ok(Placed {
        last: false,
        notes: book::fill(cells, notes, c, x, book::is_blank(w.link)),
        regions,
    })
}

// Kind 2. CR 5: "any routine word with P 0 and Q 0 whose SYMB is a process we don't have".
fn load_routine(
    cells: &mut [u64],
    names: &mut [bool],
    locals: &mut Locals,
    regions: Regions,
    notes: Notes,
    name: Name,
    w: Entry,
) -> Result<Placed, Fault>
    requires { Made regions }
    ensures { Places (ordinary (load_routine (name_of name) w.p w.q w.symb w.link)) regions notes locals cells names result }
{
    let t = load_word(cells, names, locals, regions, notes, name, w)?;
    let hopeless = (w.p == 0) & (w.q == 0) & book::is_missing(w.symb);
    book::refuse_if(hopeless, Fault::Hopeless)?;
    Ok(t)
}

// Kinds 4 and 6.
fn load_term(
    cells: &mut [u64],
    names: &mut [bool],
    locals: &mut Locals,
    regions: Regions,
    notes: Notes,
    name: Name,
    t: u64,
) -> Result<Placed, Fault>
    requires { Made regions }
    ensures { Places (ordinary (load_term (name_of name) (term_of t))) regions notes locals cells names result }
{
    book::name_fits(names, locals, regions, notes, false, name)?;
    let (notes, c) = book::cell_for(cells, names, locals, regions, notes, name)?;
    Ok(Placed {
        last: false,
        notes: book::fill(cells, notes, c, cells::of_term(t), false),
        regions,
    })
}

// Kind 5: "After loading H5 holds J4, H1 the start cell".
fn load_start(
    cells: &mut [u64],
    locals: &Locals,
    regions: Regions,
    notes: Notes,
    b: u8,
    n: u16,
) -> Result<(), Fault>
    requires { Laid regions }
    ensures { OnKept (load_start b n) regions notes locals.now cells result }
{
    book::refuse_if(notes.waiting != 0, Fault::BadName)?;
    book::known(regions, Field::Regional(b, n))?;
    book::closes(locals)?;
    let c = regions.cell_of(b, n);
    book::put(cells, limits::H5, cells::of_fields(0, 0, limits::J4, 0));
    book::put(cells, limits::H1, cells::of_fields(0, 0, c, 0));
    Ok(())
}

// Kind 1: "Regions come first; letters H, W, J are taken."
fn load_region(
    cells: &mut [u64],
    names: &mut [bool],
    locals: &mut Locals,
    regions: Regions,
    notes: Notes,
    b: u8,
    n: u16,
) -> Result<Placed, Fault>
    requires { Made regions × Sized cells.old names.old × (is_letter b ≡ true) }
    ensures { Places (ordinary (load_region (length cells.old) b n)) regions notes locals cells names result }
{
    let full = cells.len() < regions.top() + usize::from(n);
    if regions.letter_taken(b, 0) | notes.words | full {
        return Err(Fault::BadRegion);
    }
    let more = regions.with(b, n);
    Ok(Placed {
        last: false,
        notes: begin(cells, names, locals, more),
        regions: more,
    })
}

fn load_record(
    cells: &mut [u64],
    names: &mut [bool],
    locals: &mut Locals,
    regions: Regions,
    notes: Notes,
    x: Record,
) -> Result<Placed, Fault>
    requires { Made regions × Sized cells.old names.old × Lettered x }
    ensures { Places (one_record (length cells.old) (record_of x)) regions notes locals cells names result }
{
    match x {
        Record::Region(b, n) => load_region(cells, names, locals, regions, notes, b, n),
        Record::Routine(name, p, q, symb, link) => {
            let w = Entry { p, q, symb, link };
            load_routine(cells, names, locals, regions, notes, name, w)
        }
        Record::Datum(name, symb, link) => {
            let w = Entry {
                p: 0,
                q: book::data_tag(symb),
                symb,
                link,
            };
            load_word(cells, names, locals, regions, notes, name, w)
        }
        Record::Number(name, t) => load_term(cells, names, locals, regions, notes, name, t),
        Record::Start(b, n) => {
            load_start(cells, locals, regions, notes, b, n)?;
            Ok(Placed {
                last: true,
                notes,
                regions,
            })
        }
    }
}

// "Checks go in table order on one record": 3, 2, 4, then the rest.
fn load_one(
    cells: &mut [u64],
    names: &mut [bool],
    locals: &mut Locals,
    regions: Regions,
    notes: Notes,
    r: &[u8],
    kind: u8,
    symbols: [Field; 3],
) -> Result<Placed, Fault>
    requires { Made regions × Sized cells.old names.old × (kind ≡ byte_at r.now 0) × Written kind r.now symbols (symbols_at r.now) }
    ensures { Places (load_one (length cells.old) kind r.now) regions notes locals cells names result }
{
    let size = records::size_of(kind);
    if size == 0 {
        return Err(Fault::UnknownKind);
    }
    if r.len() < size {
        return Err(Fault::PastEnd);
    }
    let x = records::parse(r, kind, symbols).ok_or(Fault::BadField)?;
    load_record(cells, names, locals, regions, notes, x)
}

// One record after another, its symbols first; left at the first fault, with the offset of its record. Behind the start come 9, "no kind 5,
// or bytes after it", with the offset where reading stopped, and 11.
fn load_records(
    deck: &[u8],
    cells: &mut [u64],
    names: &mut [bool],
    locals: &mut Locals,
) -> Result<Regions, (Fault, usize)>
    requires { Sized cells.old names.old }
    ensures { Ends deck.now cells.old cells.new result }
{
    let mut regions = Regions::none();
    let mut notes = begin(cells, names, locals, regions);
    let mut at = 0;
    'deck: loop {
        if at == deck.len() {
            break Err((Fault::NotEnded, at));
        }
        let r = &deck[at..];
        let kind = r[0];
        let mut symbols = [Field::Blank; 3];
        for i in 0..records::symbols_at(r) {
            let Some(f) = records::symbol(r, kind, i) else {
                break 'deck Err((Fault::BadField, at));
            };
            symbols[i] = f;
        }
        let t = match load_one(cells, names, locals, regions, notes, r, kind, symbols) {
            Ok(t) => t,
            Err(fault) => break Err((fault, at)),
        };
        let from = at;
        at += records::size_of(kind);
        if t.last {
            if at < deck.len() {
                break Err((Fault::NotEnded, at));
            }
            if !book::can_start(cells, names) {
                break Err((Fault::Hopeless, from));
            }
            break Ok(t.regions);
        }
        regions = t.regions;
        notes = t.notes;
    }
}

// Loads a deck into the cells. Where N is out of range nothing is written (1); any other refusal leaves all cells zero and no region.
pub fn load(deck: &[u8], cells: &mut [u64]) -> Loaded
    ensures { Loads deck.now cells.old cells.new result }
{
    let n = cells.len();
    if !sound::size_fits(n) {
        return Loaded {
            answer: LoadAnswer::BadSize,
            regions: Regions::none(),
        };
    }
    let mut names = [false; limits::LARGEST_N];
    let mut locals = NO_LOCALS;
    match load_records(deck, cells, &mut names[..n], &mut locals) {
        Ok(regions) => Loaded {
            answer: LoadAnswer::Loaded,
            regions,
        },
        Err((fault, at)) => {
            cells.fill(0);
            Loaded {
                answer: LoadAnswer::Broken(fault, at),
                regions: Regions::none(),
            }
        }
    }
}
