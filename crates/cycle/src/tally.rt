// CR 8: the count of cycles in H3.
ghost use Rattle.std.specs.Prelude.{◌<◌, length};
ghost use Rattle.cycle.specs.Turns.{Counted};

use paper::limits;

const H3: usize = limits::H3 as usize;

pub(crate) fn count(cells: &mut [u64])
    requires { 4 < length cells.old }
    ensures { Counted cells.old cells.new }
{
    cells[H3] = cells::one_more(cells[H3]);
}
