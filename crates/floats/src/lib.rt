// Floating terms, by their 32 bits: the one operation of the format for a sum or a difference, the sign turned, the tests. Bits are taken for a
// number only where they are a number's, so each function answers for all bits.
#![tactic(auto)]

ghost use Rattle.std.specs.Prelude.{◌≡◌, not, T};
ghost use Rattle.std.specs.Float.Ieee.{is_nan, neg};
ghost use Rattle.paper.specs.Term.{float_of, is_finite, plus, minus};
ghost use Rattle.floats.specs.Kept.{kept_of, operation_of, relation_of};

use std::cmp::Ordering;

// The sign bit, and the bits of infinity: those of a finite number are below it but for the sign.
const SIGN: u32 = 0x80000000;

const INFINITY: u32 = 0x7F800000;

pub fn is_finite(b: u32) -> bool
    ensures { result ≡ is_finite b }
{
    b % SIGN < INFINITY
}

fn is_nan(b: u32) -> bool
    ensures { result ≡ is_nan (float_of b) }
{
    INFINITY < b % SIGN
}

// "a result that is not finite is 29"
fn keep(x: f32) -> Option<u32>
    requires { T (not (is_nan x)) }
    ensures { result ≡ kept_of x }
{
    let b = f32::to_bits(x);
    is_finite(b).then_some(b)
}

// "rounded once, as one operation of the format"
fn sum(x: f32, y: f32) -> f32
    ensures { result ≡ plus.of_floats x y }
{
    x + y
}

fn difference(x: f32, y: f32) -> f32
    ensures { result ≡ minus.of_floats x y }
{
    x - y
}

fn operated(minus: bool, x: f32, y: f32) -> f32
    ensures { result ≡ (operation_of minus).of_floats x y }
{
    if minus { difference(x, y) } else { sum(x, y) }
}

// The sum, or the difference where `minus` holds: its bits, where it is finite. J110 and J111 differ in nothing else, so a bool says which.
pub fn combined(minus: bool, a: u32, b: u32) -> Option<u32>
    ensures { result ≡ kept_of ((operation_of minus).of_floats (float_of a) (float_of b)) }
{
    if !is_finite(a) || !is_finite(b) {
        return None;
    }
    keep(operated(minus, f32::from_bits(a), f32::from_bits(b)))
}

// The sign bit turned.
pub fn negated(b: u32) -> Option<u32>
    ensures { result ≡ kept_of (neg (float_of b)) }
{
    if !is_finite(b) {
        return None;
    }
    keep(-f32::from_bits(b))
}

// Whether a stands so to b. "-0 equals 0 in tests"; a NaN stands in none of the three ways.
pub fn holds(k: Ordering, a: u32, b: u32) -> bool
    ensures { result ≡ (relation_of k).of_floats (float_of a) (float_of b) }
{
    if is_nan(a) {
        return false;
    }
    if is_nan(b) {
        return false;
    }
    f32::from_bits(a).partial_cmp(&f32::from_bits(b)) == Some(k)
}
