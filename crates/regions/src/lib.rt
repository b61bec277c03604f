// The region table, both ways: from letter and number to a cell, and back; where the regions end; and whether they are sound. Document 01,
// "The store".
#![tactic(auto)]

ghost use Rattle.std.specs.Prelude.{◌≡◌, cond, ◌+◌, ◌<◌, ◌≤◌, ltb, length, drop};
ghost use Rattle.paper.specs.Limits.{first_deck};
ghost use Rattle.paper.specs.Region.{region_of, end_of_regions, layout, letter_taken, new_letter, regions_sound, cell_from, cell_of, letters_from, letters_of};
ghost use Rattle.regions.specs.Table.{regions_of, no_regions, with_region, Laid};
ghost use Rattle.regions.specs.Lent.{region_in, rows_of, letters_in, Tells};

use paper::limits;

// Limits in the widths of the places they are compared at.
const FIRST_DECK: usize = limits::FIRST_DECK as usize;

const LARGEST_NUMBER: usize = limits::LARGEST_NUMBER as usize;

// How many H, W and J cells there are.
const MANY_H: u16 = limits::W0 - limits::H0;

const MANY_W: u16 = limits::J0 - limits::W0;

const MANY_J: u16 = limits::FIRST_DECK - limits::J0;

// The table as a run lends it: place 0 is where the regions end, place i + 1 is letter * 65536 + count of region i, or 0 where there is none.
pub type Table = [u32; PLACES];

const PLACES: usize = 1 + limits::MANY_REGIONS;

// Letter and count of the first n deck regions, in record order. There are 23 letters besides H, W and J. The arrays and n lie open, since a
// caller of a run may hand in any, n above 23 and letters that repeat among them, and `regions_sound` answers for all of these. So what a table laid or told has
// (`Laid`, `Made`, `Told`) is asked where it is used, and no type promises it.
#[derive(Clone, Copy)]
pub struct Regions {
    pub letters: [u8; limits::MANY_REGIONS],
    pub counts: [u16; limits::MANY_REGIONS],
    pub n: usize,
}

impl Regions {
    pub fn none() -> Self
        ensures { result ≡ no_regions }
    {
        Self {
            letters: [0; limits::MANY_REGIONS],
            counts: [0; limits::MANY_REGIONS],
            n: 0,
        }
    }

    // One region more, at the end; a full table stays as it is.
    pub fn with(mut self, letter: u8, count: u16) -> Self
        ensures { result ≡ with_region self letter count }
    {
        let n = self.n;
        if n < limits::MANY_REGIONS {
            self.letters[n] = letter;
            self.counts[n] = count;
            self.n = n + 1;
        }
        self
    }

    // How many regions the table holds.
    pub fn len(self) -> usize
        ensures { (result ≡ length (regions_of self)) × (result ≤ 23) }
    {
        self.n.min(limits::MANY_REGIONS)
    }

    // Where the regions end, laid out from the first deck cell.
    pub fn top(self) -> usize
        ensures { result ≡ end_of_regions (regions_of self) first_deck }
    {
        let mut at = FIRST_DECK;
        for &count in &self.counts[..self.len()] {
            at += usize::from(count);
        }
        at
    }

    // Whether letter b is H, W or J, or that of a region from number `from` on.
    pub fn letter_taken(self, b: u8, from: usize) -> bool
        ensures { result ≡ letter_taken (layout (drop from (regions_of self))) b }
    {
        let letters = &self.letters[..self.len()];
        matches!(b, b'H' | b'W' | b'J') || letters.iter().skip(from).any(|&letter| letter == b)
    }

    // Whether a region before those from number `from` on may have letter b.
    fn letter_new(self, b: u8, from: usize) -> bool
        ensures { result ≡ new_letter b (drop from (regions_of self)) }
    {
        b.is_ascii_uppercase() && !self.letter_taken(b, from)
    }

    // Whether the regions are sound in n cells.
    pub fn regions_sound(self, n: usize) -> bool
        ensures { result ≡ regions_sound n first_deck (regions_of self) }
    {
        let mut at = FIRST_DECK;
        for i in 0..self.len() {
            let count = usize::from(self.counts[i]);
            at += count;
            if !(self.letter_new(self.letters[i], i + 1)
                & (1 <= count)
                & (count <= LARGEST_NUMBER)
                & (at <= n))
            {
                return false;
            }
        }
        true
    }

    // The cell of a symbol of a deck region; 0 where there is none, as in the definitions.
    fn in_deck(self, b: u8, n: u16) -> u16
        requires { Laid self }
        ensures { result ≡ cell_from (regions_of self) first_deck b n }
    {
        let mut from = limits::FIRST_DECK;
        for (&letter, &count) in self.letters.iter().zip(&self.counts[..self.len()]) {
            if letter == b {
                return inside(n, count, from);
            }
            from += count;
        }
        0
    }

    // The cell of a regional symbol; 0 where it is outside its region or its region undeclared.
    pub fn cell_of(self, b: u8, n: u16) -> u16
        requires { Laid self }
        ensures { result ≡ cell_of (regions_of self) b n }
    {
        match b {
            b'H' => inside(n, MANY_H, limits::H0),
            b'W' => inside(n, MANY_W, limits::W0),
            b'J' => inside(n, MANY_J, limits::J0),
            _ => self.in_deck(b, n),
        }
    }

    // The table as a run lends it.
    pub fn table(self) -> Table
        ensures { Tells result (regions_of self) }
    {
        let mut t = [0u32; PLACES];
        let mut at = FIRST_DECK;
        for i in 0..self.len() {
            let count = self.counts[i];
            t[i + 1] = row(self.letters[i], count);
            at += usize::from(count);
        }
        t[0] = at as u32;
        t
    }
}

// Number n of a region of `count` cells from cell `from` on.
fn inside(n: u16, count: u16, from: u16) -> u16
    requires { from + count < 65536 }
    ensures { result ≡ cond (ltb n count) (from + n) 0 }
{
    if n < count { from + n } else { 0 }
}

fn row(letter: u8, count: u16) -> u32
    ensures { region_in result ≡ region_of letter count }
{
    (letter as u32) * 65536 + (count as u32)
}

// Letter and number of a cell from the first deck cell on; none where it is not reserved.
fn in_rows(table: &Table, c: u16) -> Option<(u8, u16)>
    requires { first_deck ≤ c }
    ensures { letters_in result ≡ letters_from (rows_of table.now) first_deck c }
{
    let mut at = limits::FIRST_DECK;
    for &x in &table[1..] {
        let count = (x % 65536) as u16;
        if c - at < count {
            return Some(((x / 65536 % 256) as u8, c - at));
        }
        at += count;
    }
    None
}

// "H0..H9 are cells 1..10, W0..W9 are 11..20, J0..J199 are 21..220", and then the deck's: letter and number of a reserved cell.
pub fn letters_of(table: &Table, c: u16) -> Option<(u8, u16)>
    ensures { letters_in result ≡ letters_of (rows_of table.now) c }
{
    match c {
        0 => None,
        limits::H0..limits::W0 => Some((b'H', c - limits::H0)),
        limits::W0..limits::J0 => Some((b'W', c - limits::W0)),
        limits::J0..limits::FIRST_DECK => Some((b'J', c - limits::J0)),
        _ => in_rows(table, c),
    }
}
