// Numbers, region tables and cells from bytes; numbers are big-endian.
ghost use Rattle.std.specs.Prelude.{◌≡◌, ◌+◌, ◌<◌, ◌≤◌, length, IfSome};
ghost use Rattle.paper.specs.Record.{byte_at, pair_at};
ghost use Rattle.vectors.specs.Input.{three_at, four_at, eight_at};

use regions::Regions;
use std::io::Read;

// The next k bytes of the input, at the start of the buffer; none where there are fewer, or where the buffer is smaller.
pub(crate) fn take<'a>(stdin: &mut impl Read, bytes: &'a mut [u8], k: usize) -> Option<&'a [u8]>
    ensures { IfSome result (λ taken. (length taken.now ≡ k) × (k ≤ length bytes.old)) }
{
    let taken = bytes.get_mut(..k)?;
    stdin.read_exact(taken).ok()?;
    Some(taken)
}

// Past the end 0.
pub(crate) fn byte(b: &[u8], at: usize) -> u8
    ensures { result ≡ byte_at b.now at }
{
    b.get(at).copied().unwrap_or(0)
}

// Two bytes from `at` on.
fn two(b: &[u8], at: usize) -> u16
    requires { at < 1000000 }
    ensures { result ≡ pair_at b.now at }
{
    u16::from_be_bytes([byte(b, at), byte(b, at + 1)])
}

pub(crate) fn pair(b: &[u8], at: u16) -> usize
    ensures { (result ≡ pair_at b.now at) × (result < 65536) }
{
    usize::from(two(b, usize::from(at)))
}

// N has three bytes, so that a case can have more cells than a store.
pub(crate) fn three(b: &[u8], at: u16) -> usize
    ensures { (result ≡ three_at b.now at) × (result < 16777216) }
{
    let i = usize::from(at);
    usize::from(byte(b, i)) * 65536 + usize::from(two(b, i + 1))
}

pub(crate) fn four(b: &[u8], at: u16) -> u32
    ensures { result ≡ four_at b.now at }
{
    let i = usize::from(at);
    u32::from(two(b, i)) * 65536 + u32::from(two(b, i + 2))
}

// The eight bytes of a cell.
fn cell(b: &[u8]) -> u64
    ensures { result ≡ eight_at b.now 0 }
{
    u64::from(four(b, 0)) * 4294967296 + u64::from(four(b, 4))
}

// The n cells that come next, each read by itself, so that no buffer has to hold them all; one past `cells` is read and dropped. None where
// there are fewer.
pub(crate) fn cells(
    stdin: &mut impl Read,
    bytes: &mut [u8],
    cells: &mut [u64],
    n: usize,
) -> Option<()> {
    for c in 0..n {
        let x = cell(take(stdin, bytes, 8)?);
        if let Some(place) = cells.get_mut(c) {
            *place = x;
        }
    }
    Some(())
}

// A table that has its place for 23 regions filled, and says that it has n.
fn table(b: &[u8], n: u8) -> Regions
    ensures { result.n ≡ n }
{
    let mut r = Regions::none();
    for i in 0..usize::from(n) {
        r = r.with(byte(b, i * 3), two(b, i * 3 + 1));
    }
    r.n = usize::from(n);
    r
}

// The regions that come next; none where there are fewer.
pub(crate) fn regions(stdin: &mut impl Read, bytes: &mut [u8]) -> Option<Regions> {
    let n = byte(take(stdin, bytes, 1)?, 0);
    let rows = take(stdin, bytes, usize::from(n) * 3)?;
    Some(table(rows, n))
}
