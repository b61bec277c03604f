// Demand 3: preserve, copy and erase as "plain actions outside any cycle"; and the walk of a symbol. Each asks of the store what a run
// asks, 1 and then 20; refused, it leaves every number as it was.
#![tactic(auto)]

ghost use Rattle.std.specs.Prelude.{◌≡◌, ◌+◌, ◌≤◌, [], length};
ghost use Rattle.paper.specs.Limits.{largest_n};
ghost use Rattle.paper.specs.Act.{Act};
ghost use Rattle.paper.specs.Plain.{preserve_h0, walked};
ghost use Rattle.paper.specs.Process.{J72, J74};
ghost use Rattle.undo.specs.Log.{Room};
ghost use Rattle.undo.specs.Did.{Top, Suits, Did};
ghost use Rattle.structures.specs.Walks.{InRange};
ghost use Rattle.plain.specs.Numbers.{numbers, plain_on, settled_as};
ghost use Rattle.plain.specs.Walks.{padded, met_of, walk_on};

use paper::{Refusal, RunAnswer, Symbol, limits};
use regions::Regions;
use structures::{Order, Scratch};

// A copy makes a write a cell and three more; the log takes two numbers a write, one to count them and four for the cells it saves.
// A run's is longer, and an array's size is no result of a function: so each has its own.
const LOG: usize = 2 * (limits::LARGEST_N + 3) + 5;

// What was refused is undone.
fn settle(cells: &mut [u64], log: &[u64], outcome: Result<(), Refusal>) -> RunAnswer
    requires { Room log.now 0 }
    ensures { numbers result cells.new ≡ settled_as outcome log.now cells.old }
{
    match outcome {
        Ok(()) => RunAnswer::Finished,
        Err(e) => {
            undo::rewind(cells, log);
            RunAnswer::Refused(e)
        }
    }
}

// An action outside any cycle: what the store is asked first, the action itself, and its end. Its log and its scratch lie on the stack while
// it goes on, and not for as long as its caller does.
#[inline(never)]
fn plainly<F: Fn(&mut [u64], &mut [u64], &mut Scratch, u16) -> Result<(), Refusal>>(
    cells: &mut [u64],
    regions: Regions,
    act: F,
) -> RunAnswer
    ghost does: { Act (Unit {0}) }
    requires callable { (x y : _) (w : _) (top : _) → InRange x.now × Suits y.now (length x.now + 3) top
        → F.pre act x y w top }
    requires follows { (x y : _) (w : _) (top : _) (r : _) (x' y' : _) (w' : _) → F.post act x y w top r x' y' w'
        → Did (Top top) (length x.now + 3) does record { entry = x; exit = x' } record { entry = y; exit = y' } r }
    ensures { numbers result cells.new ≡ plain_on does regions cells.old }
{
    match sound::asks(cells, regions) {
        Err(answer) => answer,
        Ok(top) => {
            let mut log = [undo::UNREAD; LOG];
            let mut scratch = Scratch::new();
            undo::begin(cells, &mut log);
            let outcome = act(cells, &mut log, &mut scratch, top);
            settle(cells, &log, outcome)
        }
    }
}

// H0 is preserved.
pub fn preserve(cells: &mut [u64], regions: Regions) -> RunAnswer
    ensures { numbers result cells.new ≡ plain_on preserve_h0 regions cells.old }
{
    plainly(
        cells,
        regions,
        |cells, log, _, _| acts::preserve(cells, log, limits::H0),
    )
}

// The structure that H0 names is copied, and H0 names the copy.
pub fn copy(cells: &mut [u64], regions: Regions) -> RunAnswer
    ensures { numbers result cells.new ≡ plain_on J74 regions cells.old }
{
    plainly(cells, regions, structures::j74)
}

// The structure that H0 names is erased, and H0 is popped.
pub fn erase(cells: &mut [u64], regions: Regions) -> RunAnswer
    ensures { numbers result cells.new ≡ plain_on J72 regions cells.old }
{
    plainly(cells, regions, structures::j72)
}

// The cells of a walk: the first n, in walk order, and zeros; a caller outside is handed them whole, with none where the walk is refused.
#[derive(Clone, Copy)]
pub struct Met {
    pub answer: RunAnswer,
    pub n: usize,
    pub cells: Order,
}

fn none_met(a: RunAnswer) -> Met
    ensures { result ≡ met_of (walked a []) }
{
    Met {
        answer: a,
        n: 0,
        cells: [0; limits::LARGEST_N],
    }
}

// The cells met, and zeros.
fn in_order(met: &[u16]) -> Order
    requires { length met.now ≤ largest_n }
    ensures { result ≡ padded met.now }
{
    let mut cells = [0; limits::LARGEST_N];
    cells[..met.len()].copy_from_slice(met);
    cells
}

// The walk of the structure that x names; its tag plays no part.
pub fn walk(cells: &[u64], regions: Regions, x: Symbol) -> Met
    ensures { result ≡ walk_on x.num regions cells.now }
{
    match sound::asks(cells, regions) {
        Err(answer) => none_met(answer),
        Ok(_) => {
            let mut scratch = Scratch::new();
            match structures::walk(cells, &mut scratch, x.num) {
                Err(e) => none_met(RunAnswer::Refused(e)),
                Ok(n) => Met {
                    answer: RunAnswer::Finished,
                    n: n,
                    cells: in_order(scratch.met(n)),
                },
            }
        }
    }
}
