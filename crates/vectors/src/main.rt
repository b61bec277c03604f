// Runs cases over the public calls: each is read from standard input in the form that tools/pack-vectors writes, and answered in a line.
#![tactic(auto)]

mod answers;
mod cases;
mod input;

use std::io::Read;

// More than a store may have, so that N out of range is a case too.
const MANY_CELLS: usize = 70000;

// What the cells hold before the first case; each case writes its own. Not zeros, for the reason of `undo::UNREAD`.
const UNREAD: u64 = 1;

// Enough for a deck or the room of a run, whose length in a case has two bytes.
const MANY_BYTES: usize = 65536;

// A proved loop has to end, and nothing says that the input does: there are more turns than any input has cases.
fn all(
    rt: &impl Print,
    stdin: &mut impl Read,
    cells: &mut [u64],
    bytes: &mut [u8],
    out: &mut [u8],
) {
    for _ in 0..u64::MAX {
        if !cases::next(rt, stdin, cells, bytes, out) {
            return;
        }
    }
}

fn main(rt: HostRuntime) {
    let mut cells = [UNREAD; MANY_CELLS];
    let mut bytes = [0u8; MANY_BYTES];
    let mut out = [0u8; MANY_BYTES];
    all(&rt, &mut rt.reader(), &mut cells, &mut bytes, &mut out);
}
