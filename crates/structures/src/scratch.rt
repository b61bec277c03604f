// Marks show a repeat at once. They are taken away by going over the cells met, so that the next walk finds none.
ghost use Rattle.std.specs.Prelude.{◌≡◌, ◌<◌, ◌≤◌, get_or, set, take};
ghost use Rattle.paper.specs.Limits.{largest_n};
ghost use Rattle.structures.specs.Marks.{blank, Only};

use crate::{MANY_NUMBERS, Marks, Order};
use paper::limits;

// What a walk is lent: an order for the cells that it meets, and marks. No cell is marked but while a walk or a copy goes on: there the two
// are lent one by one.
#[derive(Drop)]
pub struct Scratch {
    pub order: Order,
    pub marks: Marks,
    pub ghost unmarked: { marks ≡ blank },
}

impl Scratch {
    // The order is not read before it is written, so only the marks are told of. Zeros, as the marks are, for `Scratch` to be laid where it stays.
    pub fn new() -> Self
        ensures { result.marks ≡ blank }
    {
        Scratch {
            order: [0; limits::LARGEST_N],
            marks: [0; MANY_NUMBERS],
        }
    }

    // The cells that a walk has met, in walk order, where it answered n.
    pub fn met(&self, n: usize) -> &[u16]
        requires { n ≤ largest_n }
        ensures { result.now ≡ take n self.now.order }
    {
        &self.order[..n]
    }
}

// What is marked at c. There is a mark for every number, so no bound is asked for.
pub(crate) fn mark_at(marks: &Marks, c: u16) -> u16
    ensures { result ≡ get_or marks.now c 0 }
{
    marks[c as usize]
}

// Cell c comes next in the order, and is marked.
pub(crate) fn enlist(order: &mut Order, marks: &mut Marks, n: usize, c: u16)
    requires { n < largest_n }
    ensures { (order.new ≡ set order.old n c) × (marks.new ≡ set marks.old c 1) }
{
    order[n] = c;
    marks[c as usize] = 1;
}

// The marks of the cells met are taken away.
pub(crate) fn clear(met: &[u16], marks: &mut Marks)
    requires { Only marks.old met.now }
    ensures { marks.new ≡ blank }
{
    for c in met {
        marks[*c as usize] = 0;
    }
}
