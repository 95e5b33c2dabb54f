// Values of a kind and a width, as i64, and the patterns of bits that carry them. A kind is a number here: it is a word
// of a lent table, which may be any, and every function is proved for all of them.
ghost use Rattle.std.specs.Prelude.{◌≡◌, ◌≤◌, ◌<◌, ◌^◌, negsuc, pos, ◌<ℤ◌};
ghost use Rattle.bits.specs.Values.{limit_of, encoded, decode};
ghost use Rattle.bits.specs.Widths.{widest};

use crate::power;

// The first natural number that the kind of value does not have.
fn limit(kind: usize, width: usize) -> usize
    requires { width ≤ widest }
    ensures { result ≡ limit_of kind width }
{
    let whole = power(width);
    if kind == 1 { whole / 2 } else { whole }
}

fn encode_natural(kind: usize, width: usize, m: usize) -> Option<usize>
    requires { width ≤ widest }
    ensures { result ≡ encoded kind width (pos m) }
{
    (m < limit(kind, width)).then_some(m)
}

// Of the value -(m + 1).
fn encode_negative(kind: usize, width: usize, m: usize) -> Option<usize>
    requires { width ≤ widest }
    ensures { result ≡ encoded kind width (negsuc m) }
{
    if (kind == 1) & (m < limit(kind, width)) {
        Some(power(width) - 1 - m)
    } else {
        None
    }
}

// How far below zero a negative value is, less one: k of -(k + 1).
fn below_zero(value: i64) -> usize
    requires { value <ℤ pos 0 }
    ensures { value ≡ negsuc result }
{
    (-1 - value) as usize
}

// The pattern that carries a value, where it is in range.
pub fn encode(kind: usize, width: usize, value: i64) -> Option<usize>
    requires { width ≤ widest }
    ensures { result ≡ encoded kind width value }
{
    if value < 0 {
        encode_negative(kind, width, below_zero(value))
    } else {
        encode_natural(kind, width, value as usize)
    }
}

// The value -(k + 1).
fn negative(k: usize) -> i64
    requires { k < 2 ^ widest }
    ensures { result ≡ negsuc k }
{
    -1 - (k as i64)
}

pub fn decode(kind: usize, width: usize, pattern: usize) -> i64
    requires { (width ≤ widest) × (pattern < 2 ^ width) }
    ensures { result ≡ decode kind width pattern }
{
    if pattern < limit(kind, width) {
        pattern as i64
    } else {
        negative(power(width) - 1 - pattern)
    }
}
