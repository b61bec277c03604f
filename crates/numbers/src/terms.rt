// What the sorts of a data term can do: the operations, the relations, the zero and the negative, each one function for both.
ghost use Rattle.std.specs.Prelude.{◌≡◌, T, Float, true};
ghost use Rattle.std.specs.Float.{binary32};
ghost use Rattle.std.specs.Float.Ieee.{fits};
ghost use Rattle.paper.specs.Term.{integer, floating, bits_of as bits_of_float, alike, pair_of, combined, holds, with_zero, negated};
ghost use Rattle.cells.specs.Layout.{bits_of, value_of, term_of};
ghost use Rattle.floats.specs.Kept.{kept_of, operation_of, relation_of};
ghost use Rattle.numbers.specs.Family.{takes_of, change_of, wide_of, pair_in, Gives};

use crate::{Change, Pair};
use std::cmp::Ordering;

// 2^31 and 2^32, and the integer 0 as an operation gives it.
const HALF: u64 = 0x80000000;

const WHOLE: u64 = 0x100000000;

const WIDE_ZERO: u64 = 0x180000000;

// The 32 bits of a term.
fn bits(x: u64) -> u32
    ensures { result ≡ bits_of x }
{
    (x % cells::FLOATING) as u32
}

// The pair of two terms of one sort.
pub(crate) fn pair_of(x: u64, y: u64) -> Pair
    requires { alike (term_of x) (term_of y) ≡ true }
    ensures { pair_in result ≡ pair_of (term_of x) (term_of y) }
{
    if cells::is_integer(x) {
        Pair::Integers(bits(x), bits(y))
    } else {
        Pair::Floats(bits(x), bits(y))
    }
}

// The sum, or the difference where `minus` holds. It may not fit 32 bits: it stands 2^32 higher (`wide_of`), so that it is never below 0.
fn reckoned(minus: bool, u: u32, v: u32) -> u64
    ensures { wide_of result ≡ (operation_of minus).of_integers (value_of u) (value_of v) }
{
    if minus {
        WIDE_ZERO + u64::from(u) - u64::from(v)
    } else {
        // (u - 2^31) + (v - 2^31) + 3 * 2^31
        HALF + u64::from(u) + u64::from(v)
    }
}

// An integer fits where it is 2^32 and an integer's number.
fn of_wide(x: u64) -> Option<u64>
    ensures { Gives result (integer (wide_of x)) }
{
    (x / WHOLE == 1).then_some(x % WHOLE)
}

fn of_kept(k: Option<u32>) -> Option<u64>
    ensures { (x : Float) → T (fits binary32 x) → k ≡ kept_of x → Gives result (floating (bits_of_float x)) }
{
    k.map(|b| cells::FLOATING + u64::from(b))
}

// J110, and J111 where `minus` holds, on two terms.
pub(crate) fn combined(minus: bool, p: Pair) -> Option<u64>
    ensures { Gives result (combined (operation_of minus) (pair_in p)) }
{
    match p {
        Pair::Integers(a, b) => of_wide(reckoned(minus, a, b)),
        Pair::Floats(a, b) => of_kept(floats::combined(minus, a, b)),
    }
}

// J123.
fn negated(x: u64) -> Option<u64>
    ensures { Gives result (negated (term_of x)) }
{
    if cells::is_integer(x) {
        of_wide(reckoned(true, cells::ZERO, bits(x)))
    } else {
        of_kept(floats::negated(bits(x)))
    }
}

// What a change makes of a term.
pub(crate) fn changed(change: Change, x: u64) -> Option<u64>
    ensures { Gives result (change_of change (term_of x)) }
{
    match change {
        Change::Negate => negated(x),
        Change::AddOne => of_wide(reckoned(false, cells::integer_in(x), cells::ZERO + 1)),
    }
}

// J123 takes either sort, "J125 stays with integers".
pub(crate) fn takes(change: Change, x: u64) -> bool
    ensures { result ≡ takes_of change (term_of x) }
{
    match change {
        Change::Negate => true,
        Change::AddOne => cells::is_integer(x),
    }
}

// Whether the first of the pair stands so to the second.
pub(crate) fn holds(k: Ordering, p: Pair) -> bool
    ensures { result ≡ holds (relation_of k) (pair_in p) }
{
    match p {
        Pair::Integers(a, b) => a.cmp(&b) == k,
        Pair::Floats(a, b) => floats::holds(k, a, b),
    }
}

// A term and the zero of its sort.
pub(crate) fn with_zero(x: u64) -> Pair
    ensures { pair_in result ≡ with_zero (term_of x) }
{
    if cells::is_integer(x) {
        Pair::Integers(bits(x), cells::ZERO)
    } else {
        Pair::Floats(bits(x), 0)
    }
}
