// The test of soundness: document 01, "A store is sound if ..", for any numbers and any table; and the question that every call begins with.
#![tactic(auto)]

ghost use Rattle.std.specs.Prelude.{◌≡◌, ◌*◌, ◌^◌, ◌<◌, ◌≤◌, get_or};
ghost use Rattle.paper.specs.Cell.{size_fits};
ghost use Rattle.paper.specs.Sound.{word_sound, free_list, free_start};
ghost use Rattle.cells.specs.Layout.{word_of};
ghost use Rattle.cells.specs.Bridge.{unpacked};
ghost use Rattle.sound.specs.Store.{term_sound, number_sound, pass_of, store_sound};
ghost use Rattle.sound.specs.Asked.{Asks};

use paper::{RunAnswer, limits};
use regions::Regions;

// Limits in the widths of the places they are compared at.
const H3: usize = limits::H3 as usize;

const J0: usize = limits::J0 as usize;

const FIRST_DECK: usize = limits::FIRST_DECK as usize;

const LARGEST_P: u64 = limits::LARGEST_P as u64;

// "every number is below N, P is at most 7, Q is 0, 1, 2 or 4"; "Words in H and W cells have Q 0, 2 or 4."
fn word_sound(x: u64, n: usize, c: usize) -> bool
    ensures { result ≡ word_sound n c (word_of x) }
{
    let p = x / cells::P % 256;
    let q = x / cells::Q % 256;
    let symb = (x / cells::SYMB % 65536) as usize;
    let link = (x % 65536) as usize;
    let hw = (0 < c) & (c < J0);
    (p <= LARGEST_P) & ((q == 0) | ((q == 1) & !hw) | (q == 2) | (q == 4)) & (symb < n) & (link < n)
}

// CR 8: "H3 is an integer"; CR 9: a floating term has no place below the deck's cells, and "a sound store holds finite ones only".
fn term_sound(x: u64, c: usize) -> bool
    requires { (2 * 2 ^ 48 ≤ x) × (x < 3 * 2 ^ 48) }
    ensures { result ≡ term_sound c x }
{
    if x < cells::TERM + cells::FLOATING {
        return (c == H3) | (FIRST_DECK <= c);
    }
    (x < cells::TERM + cells::SORTS)
        & (FIRST_DECK <= c)
        & floats::is_finite((x % cells::FLOATING) as u32)
}

// Whether x may be the number of cell c, of n cells of which the reserved ones end at `end`.
fn number_sound(x: u64, n: usize, end: usize, c: usize) -> bool
    ensures { result ≡ number_sound n end c x }
{
    if x < cells::FREE {
        return word_sound(x, n, c) & (((c < J0) & (c != H3)) | (FIRST_DECK <= c));
    }
    if x < cells::TERM {
        return (x < cells::FREE + cells::SYMB) & (end <= c) & (((x % 65536) as usize) < n);
    }
    if x < cells::PROCESS {
        return term_sound(x, c);
    }
    (x == cells::PROCESS) & (J0 <= c) & (c < FIRST_DECK)
}

// One pass: how many cells are free, or none where a number is not that of a sound cell.
fn cells_sound(cells: &[u64], end: usize) -> Option<usize>
    ensures { result ≡ pass_of end cells.now }
{
    let mut free = 0;
    for (c, &x) in cells.iter().enumerate() {
        if !number_sound(x, cells.len(), end, c) {
            return None;
        }
        free += usize::from(cells::is_free(x));
    }
    Some(free)
}

// "H2's LINK starts the free list."
fn free_start(cells: &[u64]) -> usize
    ensures { result ≡ free_start (unpacked cells.now) }
{
    (cells::word_in(cells::peek(cells, limits::H2)) % 65536) as usize
}

// The number at c; past the end, that of a word of zeros.
fn number_at(cells: &[u64], c: usize) -> u64
    ensures { result ≡ get_or cells.now c 0 }
{
    cells.get(c).copied().unwrap_or(0)
}

// Whether the list from cell `start` meets k free cells and then ends in 0.
fn free_list(cells: &[u64], k: usize, start: usize) -> bool
    ensures { result ≡ free_list k (unpacked cells.now) start }
{
    let mut c = start;
    for _ in 0..k {
        let x = number_at(cells, c);
        if (c == 0) | !cells::is_free(x) {
            return false;
        }
        c = usize::from(cells::free_link(x));
    }
    c == 0
}

// "A store is sound if ..", the table and the numbers being in form.
pub fn sound(cells: &[u64], regions: Regions) -> bool
    ensures { result ≡ store_sound regions cells.now }
{
    let table = (regions.n <= limits::MANY_REGIONS) & regions.regions_sound(cells.len());
    if !(table & (cells::peek(cells, 0) == 0)) {
        return false;
    }
    match cells_sound(cells, regions.top()) {
        None => false,
        Some(k) => free_list(cells, k, free_start(cells)),
    }
}

// "N from 256"; CR 11: "Raise N to 65,535".
pub fn size_fits(n: usize) -> bool
    ensures { result ≡ size_fits n }
{
    (limits::SMALLEST_N <= n) & (n <= limits::LARGEST_N)
}

// What a run and a plain call ask of a store first: 1, "N out of range", then 20, "store not sound". Of a sound store, where its regions end.
pub fn asks(cells: &[u64], regions: Regions) -> Result<u16, RunAnswer>
    ensures { Asks regions cells.now result }
{
    if !size_fits(cells.len()) {
        return Err(RunAnswer::BadSize);
    }
    if !sound(cells, regions) {
        return Err(RunAnswer::NotSound);
    }
    Ok(regions.top() as u16)
}
