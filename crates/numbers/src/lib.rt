// The processes on data terms, J110 to J125, line by line the blocks of paper/specs/Process, and the decision over their numbers. Each is one
// function for both sorts; where these part is in `terms`.
#![tactic(auto)]

ghost use Rattle.std.specs.Prelude.{◌≤◌};
ghost use Rattle.paper.specs.Term.{Term};
ghost use Rattle.paper.specs.Process.{pair_at, put_term, combines, compares, compares0, J120, changes, J124, perform};
ghost use Rattle.floats.specs.Kept.{operation_of, relation_of};
ghost use Rattle.undo.specs.Log.{Room};
ghost use Rattle.undo.specs.Did.{Always, Top, Suits, ReadsAs, Did};
ghost use Rattle.acts.specs.GoesOn.{going_on};
ghost use Rattle.numbers.specs.Family.{takes_of, change_of, pair_in, Gives};

mod terms;

use paper::{Refusal, limits};
use std::cmp::Ordering;

// Two terms of one sort, each in 32 bits: integers as their value + 2^31.
#[derive(Clone, Copy)]
pub enum Pair {
    Integers(u32, u32),
    Floats(u32, u32),
}

// What is made of one term: J123, J125.
#[derive(Clone, Copy)]
enum Change {
    Negate,
    AddOne,
}

// J110 to J129, of which those named are listed.
pub fn on_numbers(cells: &mut [u64], log: &mut [u64], top: u16, j: u16) -> Result<(), Refusal>
    requires { Suits log.old 5 top × (110 ≤ j) × (j ≤ 129) }
    ensures { Did (Top top) 5 (perform j) cells log (going_on result) }
{
    match j {
        110 => combines(cells, log, top, false),
        111 => combines(cells, log, top, true),
        114 => compares(cells, log, top, Ordering::Equal),
        115 => compares(cells, log, top, Ordering::Greater),
        116 => compares(cells, log, top, Ordering::Less),
        117 => compares0(cells, log, top, Ordering::Equal),
        118 => compares0(cells, log, top, Ordering::Greater),
        119 => compares0(cells, log, top, Ordering::Less),
        120 => j120(cells, log, top),
        123 => changes(cells, log, top, Change::Negate),
        124 => j124(cells, log, top),
        125 => changes(cells, log, top, Change::AddOne),
        _ => Err(Refusal::NotListed(limits::J0 + j)),
    }
}

// Two terms are met, and are to be of one sort: 23 at the second.
fn pair_at(cells: &[u64], c: u16, d: u16) -> Result<Pair, Refusal>
    ensures { ReadsAs pair_in Always (pair_at c d) cells result }
{
    let t = acts::term_at(cells, c)?;
    let u = acts::term_at(cells, d)?;
    if !cells::alike(t, u) {
        return Err(Refusal::WrongKind(d));
    }
    Ok(terms::pair_of(t, u))
}

// A term that an operation gives: 29 where none fits.
fn put_term(cells: &mut [u64], log: &mut [u64], c: u16, given: Option<u64>) -> Result<(), Refusal>
    requires { Room log.old 1 }
    ensures { (t : Term) → Gives given t → Did Always 1 (put_term c t) cells log result }
{
    let x = given.ok_or(Refusal::OutOfRange(c))?;
    undo::put(cells, log, c, cells::of_term(x));
    Ok(())
}

// J110, and J111 where `minus` holds, as crate floats takes it. "Cells that inputs name are met in the order (0), (1), (2)."
fn combines(cells: &mut [u64], log: &mut [u64], top: u16, minus: bool) -> Result<(), Refusal>
    requires { Suits log.old 5 top }
    ensures { Did (Top top) 5 (combines (operation_of minus)) cells log result }
{
    let w0 = acts::own(cells, limits::H0);
    let w1 = acts::below(cells, limits::H0, w0)?;
    let w2 = acts::below(cells, (w0 % 65536) as u16, w1)?;
    let c0 = (w0 / cells::SYMB % 65536) as u16;
    let c1 = (w1 / cells::SYMB % 65536) as u16;
    acts::term_to(cells, c0)?;
    let p = pair_at(cells, c1, (w2 / cells::SYMB % 65536) as u16)?;
    put_term(cells, log, c0, terms::combined(minus, p))?;
    acts::gives3(cells, log, top, cells::symbol(w0))
}

// J114, J115, J116.
fn compares(cells: &mut [u64], log: &mut [u64], top: u16, k: Ordering) -> Result<(), Refusal>
    requires { Suits log.old 2 top }
    ensures { Did (Top top) 2 (compares (relation_of k)) cells log result }
{
    let w0 = acts::own(cells, limits::H0);
    let w1 = acts::below(cells, limits::H0, w0)?;
    let c0 = (w0 / cells::SYMB % 65536) as u16;
    let p = pair_at(cells, c0, (w1 / cells::SYMB % 65536) as u16)?;
    acts::tests::<2>(cells, log, top, terms::holds(k, p))
}

// J117, J118, J119: of one term, whose other is the zero of its sort.
fn compares0(cells: &mut [u64], log: &mut [u64], top: u16, k: Ordering) -> Result<(), Refusal>
    requires { Suits log.old 1 top }
    ensures { Did (Top top) 1 (compares0 (relation_of k)) cells log result }
{
    let w0 = acts::own(cells, limits::H0);
    let t = acts::term_at(cells, (w0 / cells::SYMB % 65536) as u16)?;
    acts::tests::<1>(cells, log, top, terms::holds(k, terms::with_zero(t)))
}

// "copy integer, named as J74 names", or a floating term
fn j120(cells: &mut [u64], log: &mut [u64], top: u16) -> Result<(), Refusal>
    requires { Suits log.old 3 top }
    ensures { Did (Top top) 3 J120 cells log result }
{
    let w0 = acts::own(cells, limits::H0);
    let t = acts::term_at(cells, (w0 / cells::SYMB % 65536) as u16)?;
    let n = acts::take_as(cells, log, cells::of_term(t))?;
    acts::gives1(cells, log, top, acts::copy_name(w0, n))
}

// J123, J125.
fn changes(cells: &mut [u64], log: &mut [u64], top: u16, change: Change) -> Result<(), Refusal>
    requires { Suits log.old 3 top }
    ensures { Did (Top top) 3 (changes (takes_of change) (change_of change)) cells log result }
{
    let w0 = acts::own(cells, limits::H0);
    let c = (w0 / cells::SYMB % 65536) as u16;
    let t = acts::term_to(cells, c)?;
    undo::refuse_if(!terms::takes(change, t), Refusal::WrongKind(c))?;
    put_term(cells, log, c, terms::changed(change, t))?;
    acts::gives1(cells, log, top, cells::symbol(w0))
}

// "clear a word or integer to integer 0"; no H or W cell is cleared.
fn j124(cells: &mut [u64], log: &mut [u64], top: u16) -> Result<(), Refusal>
    requires { Suits log.old 3 top }
    ensures { Did (Top top) 3 J124 cells log result }
{
    let w0 = acts::own(cells, limits::H0);
    let c = (w0 / cells::SYMB % 65536) as u16;
    let x = acts::target(cells, c)?;
    undo::refuse_if(cells::is_process(x), Refusal::WrongKind(c))?;
    undo::refuse_if(acts::reserved(limits::J0, c), Refusal::WrongKind(c))?;
    undo::put(cells, log, c, cells::of_integer(cells::ZERO));
    acts::gives1(cells, log, top, cells::symbol(w0))
}
