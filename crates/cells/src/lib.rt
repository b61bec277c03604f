// A cell in one number (specs/Layout): read, tested, taken apart and made.
#![tactic(auto)]

ghost use Rattle.std.specs.Prelude.{◌≡◌, set};
ghost use Rattle.paper.specs.Cell.{word, free, term, process, mk_word, with_link, with_symbol, symbol_of, is_free, is_word, is_term, is_process};
ghost use Rattle.paper.specs.Cell.{word_in, term_in, free_link};
ghost use Rattle.paper.specs.Term.{integer, is_integer, integer_in, alike};
ghost use Rattle.cells.specs.Layout.{unpack_of, word_of, value_of, term_of};
ghost use Rattle.cells.specs.Pack.{Packs, cell_of};
ghost use Rattle.cells.specs.Bridge.{cell_in};

mod tally;

use paper::Symbol;
pub use tally::one_more;

// The units of the fields above LINK.
pub const SYMB: u64 = 0x10000;

pub const Q: u64 = 0x100000000;

pub const P: u64 = 0x10000000000;

// The kinds, from bit 48 up: a number below FREE is a word.
pub const FREE: u64 = 0x1000000000000;

pub const TERM: u64 = 0x2000000000000;

pub const PROCESS: u64 = 0x3000000000000;

// P 0, the empty symbol, LINK 0.
pub const EMPTY: u64 = (Symbol::EMPTY.tag as u64) * Q + (Symbol::EMPTY.num as u64) * SYMB;

// The sort of a data term, above its 32 bits: none for an integer, which stands as its value + 2^31, and this for a floating term.
pub const FLOATING: u64 = 0x100000000;

// The sorts' places end here.
pub const SORTS: u64 = 0x200000000;

// The integer 0.
pub const ZERO: u32 = 0x80000000;

// P and Q stay numbers: the paper computes with them, and a store that is not sound has larger ones.
#[derive(Clone, Copy)]
pub struct Word {
    pub p: u8,
    pub q: u8,
    pub symb: u16,
    pub link: u16,
}

// A cell taken apart. A data term is any number: only its sort and its 32 bits count, as everywhere in the code.
#[derive(Clone, Copy)]
pub enum Cell {
    Free(u16),
    Word(Word),
    Term(u64),
    Process,
}

// The number at c; past the end, that of a free cell.
pub fn peek(cells: &[u64], c: u16) -> u64
    ensures { cell_in cells.now c ≡ unpack_of result }
{
    cells.get(c as usize).copied().unwrap_or(FREE)
}

// Place i of a slice of whatever is written; past the end there is none. By an index: of a write through `get_mut` the check knows nothing.
pub fn set_at<T: Copy>(xs: &mut [T], i: usize, x: T)
    ensures { xs.new ≡ set xs.old i x }
{
    if i < xs.len() {
        xs[i] = x;
    }
}

pub fn is_free(x: u64) -> bool
    ensures { result ≡ is_free (unpack_of x) }
{
    FREE <= x && x < TERM
}

pub fn is_word(x: u64) -> bool
    ensures { result ≡ is_word (unpack_of x) }
{
    x < FREE
}

pub fn is_term(x: u64) -> bool
    ensures { result ≡ is_term (unpack_of x) }
{
    TERM <= x && x < PROCESS
}

pub fn is_process(x: u64) -> bool
    ensures { result ≡ is_process (unpack_of x) }
{
    PROCESS <= x
}

// The word in a cell; an empty one where there is none.
pub fn word_in(x: u64) -> u64
    ensures { word_in (unpack_of x) ≡ word_of result }
{
    if x < FREE {
        return x;
    }
    EMPTY
}

// The data term in a cell; the integer 0 where there is none.
pub fn term_in(x: u64) -> u64
    ensures { term_in (unpack_of x) ≡ term_of result }
{
    if x < TERM {
        return ZERO as u64;
    }
    if x < PROCESS {
        return x;
    }
    ZERO as u64
}

// Whether two terms are of one sort.
pub fn alike(x: u64, y: u64) -> bool
    ensures { result ≡ alike (term_of x) (term_of y) }
{
    x / FLOATING % 2 == y / FLOATING % 2
}

pub fn is_integer(x: u64) -> bool
    ensures { result ≡ is_integer (term_of x) }
{
    x / FLOATING % 2 == 0
}

// The integer of a term; of a floating one, 0.
pub fn integer_in(x: u64) -> u32
    ensures { integer_in (term_of x) ≡ value_of result }
{
    if is_integer(x) {
        return (x % FLOATING) as u32;
    }
    ZERO
}

pub fn free_link(x: u64) -> u16
    ensures { free_link (unpack_of x) ≡ result }
{
    if x < FREE {
        return 0;
    }
    if x < TERM {
        return (x % 65536) as u16;
    }
    0
}

pub fn symbol(x: u64) -> Symbol
    ensures { result ≡ symbol_of (word_of x) }
{
    Symbol {
        tag: (x / Q % 256) as u8,
        num: (x / SYMB % 65536) as u16,
    }
}

// The numbers of cells to be written. A word is any number: only its fields count. They are widened by `as`, as the consts above must be:
// `u64::from(p) * P` is no plainer.
pub fn of_word(x: u64) -> u64
    ensures { Packs result (word (word_of x)) }
{
    x % FREE
}

pub fn of_fields(p: u8, q: u8, symb: u16, link: u16) -> u64
    ensures { Packs result (word (mk_word p q symb link)) }
{
    (p as u64) * P + (q as u64) * Q + (symb as u64) * SYMB + (link as u64)
}

pub fn with_link(x: u64, l: u16) -> u64
    ensures { Packs result (word (with_link (word_of x) l)) }
{
    x % FREE / SYMB * SYMB + (l as u64)
}

pub fn with_symbol(x: u64, y: Symbol) -> u64
    ensures { Packs result (word (with_symbol (word_of x) y)) }
{
    x % FREE / P * P + (y.tag as u64) * Q + (y.num as u64) * SYMB + x % 65536
}

pub fn of_free(l: u16) -> u64
    ensures { Packs result (free l) }
{
    FREE + (l as u64)
}

pub fn of_term(x: u64) -> u64
    ensures { Packs result (term (term_of x)) }
{
    TERM + x % SORTS
}

pub fn of_integer(v: u32) -> u64
    ensures { Packs result (term (integer (value_of v))) }
{
    TERM + (v as u64)
}

pub fn of_process() -> u64
    ensures { Packs result process }
{
    PROCESS
}

pub fn unpack(x: u64) -> Cell
    ensures { cell_of result ≡ unpack_of x }
{
    if x < FREE {
        return Cell::Word(Word {
            p: (x / P % 256) as u8,
            q: (x / Q % 256) as u8,
            symb: (x / SYMB % 65536) as u16,
            link: (x % 65536) as u16,
        });
    }
    if x < TERM {
        return Cell::Free((x % 65536) as u16);
    }
    if x < PROCESS {
        return Cell::Term(x);
    }
    Cell::Process
}

pub fn pack(c: Cell) -> u64
    ensures { Packs result (cell_of c) }
{
    match c {
        Cell::Free(l) => of_free(l),
        Cell::Word(w) => of_fields(w.p, w.q, w.symb, w.link),
        Cell::Term(x) => of_term(x),
        Cell::Process => of_process(),
    }
}
