// The records of a deck, from its bytes: document 01, "The deck".
#![tactic(auto)]

ghost use Rattle.std.specs.Prelude.{◌≡◌, ◌&&◌, leb, option_map};
ghost use Rattle.std.proofs.Math.Option.{some};
ghost use Rattle.paper.specs.Limits.{largest_number, largest_p};
ghost use Rattle.paper.specs.Region.{is_letter};
ghost use Rattle.paper.specs.Record.{region, routine, datum, number, byte_at, pair_at, long_at, field, field_at, size_of, name_as, may_symb, may_link_data};
ghost use Rattle.paper.specs.Record.{guard, signed32, as_integer, as_floating, start_with, record_at};
ghost use Rattle.cells.specs.Layout.{value_of, term_of};
ghost use Rattle.records.specs.Symbols.{option_of, name_of, record_of, symbols_in, symbols_at, place_of, Written};

use paper::{Field, limits};

const MANY_LOCALS: u16 = limits::MANY_LOCALS as u16;

// The NAME of a record.
#[derive(Clone, Copy)]
pub enum Name {
    Regional(u8, u16),
    Local(u16),
    Blank,
}

// A record; a data term is its number, as in a cell.
#[derive(Clone, Copy)]
pub enum Record {
    Region(u8, u16),
    Routine(Name, u8, u8, Field, Field),
    Datum(Name, Field, Field),
    Number(Name, u64),
    Start(u8, u16),
}

// The byte at a place; past the end, 0.
fn byte_at(r: &[u8], i: usize) -> u8
    ensures { result ≡ byte_at r.now i }
{
    r.get(i).copied().unwrap_or(0)
}

// "numbers big-endian"
fn pair_at(r: &[u8], i: u16) -> u16
    ensures { result ≡ pair_at r.now i }
{
    let at = usize::from(i);
    u16::from_be_bytes([byte_at(r, at), byte_at(r, at + 1)])
}

// "class byte, then a 16-bit number"; none where the rules are broken (4).
#[tactic(auto, unfolding(paper::specs::Record::field, paper::specs::Step::choose))]
fn field(class: u8, n: u16) -> Option<Field>
    ensures { option_of result ≡ field class n }
{
    match class {
        b'A'..=b'Z' => (n <= limits::LARGEST_NUMBER).then_some(Field::Regional(class, n)),
        b'9' => (n < MANY_LOCALS).then_some(Field::Local(n)),
        b'0' => (n == 0).then_some(Field::Zero),
        b' ' => (n == 0).then_some(Field::Blank),
        _ => None,
    }
}

fn field_at(r: &[u8], i: u8) -> Option<Field>
    ensures { option_of result ≡ field_at r.now i }
{
    field(byte_at(r, usize::from(i)), pair_at(r, u16::from(i) + 1))
}

// The length of a record with its kind byte; 0 for an unknown kind.
// A kind stays the deck's byte, as in the paper's table: the definitions compute with it, and an unknown one is a value too (3).
pub fn size_of(kind: u8) -> usize
    ensures { result ≡ size_of kind }
{
    match kind {
        1 => 4,
        2 => 12,
        3 => 10,
        4 => 8,
        5 => 4,
        6 => 8,
        _ => 0,
    }
}

fn symbols_in(kind: u8) -> usize
    ensures { result ≡ symbols_in kind }
{
    match kind {
        1 => 0,
        2 | 3 => 3,
        _ => 1,
    }
}

// How many symbols the record at r has; none if it is not whole, since 3 and 2 come before 4.
pub fn symbols_at(r: &[u8]) -> usize
    ensures { result ≡ symbols_at r.now }
{
    let kind = byte_at(r, 0);
    let size = size_of(kind);
    if size == 0 || r.len() < size {
        return 0;
    }
    symbols_in(kind)
}

// The place of symbol i of a record.
fn place_of(kind: u8, i: usize) -> u8
    ensures { result ≡ place_of kind i }
{
    match (i, kind) {
        (0, _) => 1,
        (1, 2) => 6,
        (1, _) => 4,
        (_, 2) => 9,
        _ => 7,
    }
}

pub fn symbol(r: &[u8], kind: u8, i: usize) -> Option<Field>
    ensures { option_of result ≡ field_at r.now (place_of kind i) }
{
    field_at(r, place_of(kind, i))
}

// "A NAME of class `0` is 4".
fn name_as(f: Field) -> Option<Name>
    ensures { option_of (option_map name_of result) ≡ name_as f }
{
    match f {
        Field::Regional(b, n) => Some(Name::Regional(b, n)),
        Field::Local(n) => Some(Name::Local(n)),
        Field::Zero => None,
        Field::Blank => Some(Name::Blank),
    }
}

// "A routine SYMB may not be blank".
fn may_symb(f: Field) -> bool
    ensures { result ≡ may_symb f }
{
    !matches!(f, Field::Blank)
}

// "A data LINK is blank or 0."
fn may_link_data(f: Field) -> bool
    ensures { result ≡ may_link_data f }
{
    matches!(f, Field::Zero | Field::Blank)
}

// "region: letter, count 1..9,999"
#[tactic(auto, unfolding(paper::specs::Record::guard))]
fn region(b: u8, n: u16) -> Option<Record>
    ensures { option_of (option_map record_of result) ≡ guard (is_letter b && leb 1 n && leb n largest_number) (some (region b n)) }
{
    let fits = b.is_ascii_uppercase() && 1 <= n && n <= limits::LARGEST_NUMBER;
    fits.then_some(Record::Region(b, n))
}

// "routine word: NAME, P, Q, SYMB, LINK"; "P is 0..7, Q is 0..2."
#[tactic(auto, unfolding(paper::specs::Record::guard))]
fn routine(name: Name, p: u8, q: u8, symb: Field, link: Field) -> Option<Record>
    ensures { option_of (option_map record_of result) ≡ guard (may_symb symb && leb p largest_p && leb q 2) (some (routine (name_of name) p q symb link)) }
{
    let fits = may_symb(symb) && p <= limits::LARGEST_P && q <= limits::LARGEST_Q;
    fits.then_some(Record::Routine(name, p, q, symb, link))
}

// "data word: NAME, SYMB, LINK"
#[tactic(auto, unfolding(paper::specs::Record::guard))]
fn datum(name: Name, symb: Field, link: Field) -> Option<Record>
    ensures { option_of (option_map record_of result) ≡ guard (may_link_data link) (some (datum (name_of name) symb link)) }
{
    may_link_data(link).then_some(Record::Datum(name, symb, link))
}

// "signed 32 bits", as the value + 2^31
#[tactic(auto, unfolding(paper::specs::Record::signed32))]
fn excess(n: u32) -> u32
    ensures { value_of result ≡ signed32 n }
{
    n.wrapping_add(cells::ZERO)
}

fn long_at(r: &[u8], i: u8) -> u32
    ensures { result ≡ long_at r.now i }
{
    let at = u16::from(i);
    u32::from(pair_at(r, at)) * 65536 + u32::from(pair_at(r, at + 2))
}

// "signed 32 bits"
fn as_integer(n: u32) -> u64
    ensures { some (term_of result) ≡ as_integer n }
{
    u64::from(excess(n))
}

// "A deck term that is not finite is 4"
#[tactic(auto, unfolding(paper::specs::Record::guard))]
fn as_floating(n: u32) -> Option<u64>
    ensures { option_of (option_map term_of result) ≡ as_floating n }
{
    floats::is_finite(n).then_some(cells::FLOATING + u64::from(n))
}

// "start symbol, regional"
fn start(f: Field) -> Option<Record>
    ensures { option_of (option_map record_of result) ≡ start_with f }
{
    match f {
        Field::Regional(b, n) => Some(Record::Start(b, n)),
        _ => None,
    }
}

// The record that begins at r, by its symbols; none where a field breaks the rules (4).
#[tactic(auto, using(crate::proofs::Laws::kinds))]
pub fn parse(r: &[u8], kind: u8, symbols: [Field; 3]) -> Option<Record>
    requires { (kind ≡ byte_at r.now 0) × Written kind r.now symbols (symbols_in kind) }
    ensures { option_of (option_map record_of result) ≡ record_at r.now }
{
    let [first, symb, link] = symbols;
    match kind {
        1 => region(byte_at(r, 1), pair_at(r, 2)),
        2 => routine(name_as(first)?, byte_at(r, 4), byte_at(r, 5), symb, link),
        3 => datum(name_as(first)?, symb, link),
        4 => Some(Record::Number(name_as(first)?, as_integer(long_at(r, 4)))),
        5 => start(first),
        6 => Some(Record::Number(name_as(first)?, as_floating(long_at(r, 4))?)),
        _ => None,
    }
}
