// What a line of answer is made of.
ghost use Rattle.std.specs.Prelude.{◌≡◌, ◌<◌, drop};
ghost use Rattle.vectors.specs.Lines.{digest_from, all_are, spoilt, unwritten, glyph_of, digit_of};

use crate::MANY_BYTES;
use crate::input::byte;
use paper::LoadAnswer;
use regions::Regions;

pub(crate) fn text(rt: &impl Print, t: &[u8]) {
    let _ = rt.write_all(t);
}

pub(crate) fn number(rt: &impl Print, n: u64) {
    let _ = rt.print(n);
}

// The digest of a case's line (tools/pack-vectors).
const PRIME: u64 = 1000000007;

const FACTOR: u64 = 1000003;

// The cells in one number: for each cell w, h * FACTOR + w by the prime.
pub(crate) fn digest(cells: &[u64]) -> u64
    ensures { result ≡ digest_from 0 cells.now }
{
    cells
        .iter()
        .fold(0, |h, w| (h % PRIME * FACTOR + *w % PRIME) % PRIME)
}

// The end of a line: the digest of the cells.
pub(crate) fn end(rt: &impl Print, d: u64) {
    text(rt, b" | ");
    number(rt, d);
    text(rt, b"\n");
}

// The answer of a load, and the offset where it was refused.
pub(crate) fn load(rt: &impl Print, a: LoadAnswer) {
    number(rt, u64::from(a.number()));
    match a {
        LoadAnswer::Broken(_, at) => {
            text(rt, b" ");
            number(rt, at as u64);
        }
        _ => text(rt, b" -"),
    }
}

// "A:12,B:3" in record order.
pub(crate) fn regions(rt: &impl Print, r: Regions) {
    let m = r.len();
    if m == 0 {
        text(rt, b"-");
    }
    for i in 0..m {
        if 0 < i {
            text(rt, b",");
        }
        text(rt, &[r.letters[i], b':']);
        number(rt, u64::from(r.counts[i]));
    }
}

// What stands in every cell before a load.
const SPOILT: u64 = 12297829382473034410;

pub(crate) fn spoil(cells: &mut [u64]) {
    cells.fill(SPOILT);
}

fn untouched(cells: &[u64]) -> bool
    ensures { result ≡ all_are spoilt cells.now }
{
    cells.iter().all(|x| *x == SPOILT)
}

// The cells after a load: "1 | N out of range; store untouched".
pub(crate) fn loaded(rt: &impl Print, a: LoadAnswer, cells: &[u64]) {
    match a {
        LoadAnswer::BadSize if untouched(cells) => text(rt, b" | -\n"),
        LoadAnswer::BadSize => text(rt, b" | touched\n"),
        _ => end(rt, digest(cells)),
    }
}

// What stands in the output room before a run.
const UNWRITTEN: u8 = 238;

pub(crate) fn clear(out: &mut [u8]) {
    out.fill(UNWRITTEN);
}

// "output bytes past the lines keep what they held"
fn kept(out: &[u8], len: usize) -> bool
    ensures { result ≡ all_are unwritten (drop len out.now) }
{
    out.iter().skip(len).all(|x| *x == UNWRITTEN)
}

fn glyph(x: u8) -> u8
    requires { x < 16 }
    ensures { result ≡ glyph_of x }
{
    if x < 10 { b'0' + x } else { b'a' - 10 + x }
}

// The first or the second digit of a byte.
fn digit(b: u8, first: bool) -> u8
    ensures { result ≡ digit_of b first }
{
    glyph(if first { b / 16 } else { b % 16 })
}

// Two digits for each byte.
fn hex(out: &[u8], digits: &mut [u8]) {
    for (k, d) in digits.iter_mut().enumerate() {
        *d = digit(byte(out, k / 2), k % 2 == 0);
    }
}

// Two for each byte of the room.
const MANY_DIGITS: usize = 2 * MANY_BYTES;

// The lines of a run, in hex.
pub(crate) fn lines(rt: &impl Print, out: &[u8], len: usize) {
    let mut digits = [0u8; MANY_DIGITS];
    if len == 0 {
        text(rt, b"-");
    }
    if len < MANY_BYTES {
        let digits = &mut digits[..len * 2];
        hex(out, digits);
        text(rt, digits);
    }
    if out.len() < len || !kept(out, len) {
        text(rt, b" past the lines");
    }
}

fn zeros(cells: &[u16], from: usize) -> bool
    ensures { result ≡ all_are 0 (drop from cells.now) }
{
    cells.iter().skip(from).all(|c| *c == 0)
}

// The cells of a walk; past them stand zeros.
pub(crate) fn met(rt: &impl Print, cells: &[u16], n: usize) {
    for c in cells.iter().take(n) {
        text(rt, b" ");
        number(rt, u64::from(*c));
    }
    if !zeros(cells, n) {
        text(rt, b" past the walk");
    }
}
