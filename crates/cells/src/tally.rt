// CR 8: the number of a cell that counts one more.
ghost use Rattle.paper.specs.Cell.{term, term_in};
ghost use Rattle.paper.specs.Cycle.{one_more};
ghost use Rattle.cells.specs.Layout.{unpack_of};
ghost use Rattle.cells.specs.Pack.{Packs};

use crate::{SORTS, TERM, ZERO, of_integer, term_in};

// The bits of 2,147,483,647, after which comes 0 again, and its number.
const LARGEST: u64 = 0xFFFFFFFF;

const LAST: u64 = TERM + LARGEST;

// Any integer but the last, as nearly all counts are, is asked for first: its number is one more too.
pub fn one_more(x: u64) -> u64
    ensures { Packs result (term (one_more (term_in (unpack_of x)))) }
{
    if TERM <= x && x < LAST {
        return x + 1;
    }
    let t = term_in(x) % SORTS;
    if t == LARGEST {
        return of_integer(ZERO);
    }
    if t < LARGEST {
        return of_integer((t as u32) + 1);
    }
    // a floating term, which no sound store has there, counts from 0
    of_integer(ZERO + 1)
}
