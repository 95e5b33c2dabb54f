// What a row of the map shows: runs of bits that one variable holds, and whether one row serves both parts of a
// register.
ghost use Rattle.std.specs.Prelude.{◌≡◌, ◌+◌, ◌-◌, ◌≤◌, ◌^◌, not, IfSome};
ghost use Rattle.details.specs.Search.{first};
ghost use Rattle.details.specs.Rows.{holder_of, weight_held, weight_of, together, run_below, same_bit, same_holders, same_register};

use crate::entries::{alike_words, count_of, register_part};
use crate::holders::{holds_bit, weight_in};
use tables::Part;

// The variable that holds bit b of register i.
pub fn holder_of(variables: &[u32], part: Part, i: u32, b: u32) -> Option<u32>
    ensures { result ≡ holder_of variables.now part i b }
{
    let number = 64 * (i as usize) + b as usize;
    (0..count_of(variables)).find(|&v| holds_bit(variables, part, number, v))
}

// The weight that it has in that variable, if one holds it.
pub fn weight_held(variables: &[u32], part: Part, i: u32, b: u32) -> Option<usize>
    ensures is { result ≡ weight_held variables.now part i b }
    ensures small { IfSome result (λ weight. weight + 2 ^ 32 ≤ 2 ^ 64) }
{
    let v = holder_of(variables, part, i, b)?;
    weight_in(variables, part, 64 * (i as usize) + b as usize, v)
}

// The same as a number, by which two bits are compared: where no variable holds the bit, what the words behind the last
// variable say, which loading leaves 0.
pub fn weight_of(variables: &[u32], part: Part, i: u32, b: u32) -> usize
    ensures is { result ≡ weight_of variables.now part i b }
    ensures small { result + 2 ^ 32 ≤ 2 ^ 64 }
{
    let v = holder_of(variables, part, i, b).unwrap_or(count_of(variables));
    weight_in(variables, part, 64 * (i as usize) + b as usize, v).unwrap_or(0)
}

// Does one variable hold both bits, as far apart in it as in the register? A bit that none holds is only with itself.
fn are_together(variables: &[u32], part: Part, i: u32, a: u32, b: u32) -> bool
    ensures { result ≡ together variables.now part i a b }
{
    let high = weight_of(variables, part, i, a);
    let low = weight_of(variables, part, i, b);
    (holder_of(variables, part, i, b) == holder_of(variables, part, i, a))
        & (low + a as usize == high + b as usize)
}

// Does the bit that lies k below the highest of a register's first `left` bits belong together with it?
fn belongs(variables: &[u32], i: u32, part: Part, left: u32, k: u32) -> bool
    ensures { result ≡ together variables.now part i (left - 1) (left - 1 - k) }
{
    let top = left.saturating_sub(1);
    are_together(variables, part, i, top, top.saturating_sub(k))
}

// How far below the highest of these bits the first one lies that does not.
fn first_apart(variables: &[u32], i: u32, part: Part, left: u32) -> Option<u32>
    ensures { result ≡ first left (λ k. not (together variables.now part i (left - 1) (left - 1 - k))) }
{
    (0..left).find(|&k| !belongs(variables, i, part, left, k))
}

// How many of a register's first `left` bits, from the highest down, belong together.
pub fn run_below(variables: &[u32], i: u32, part: Part, left: u32) -> u32
    ensures { result ≡ run_below variables.now i part left }
{
    first_apart(variables, i, part, left).unwrap_or(left)
}

fn same_bit(variables: &[u32], i: u32, b: u32) -> bool
    ensures { result ≡ same_bit variables.now i b }
{
    (holder_of(variables, Part::Read, i, b) == holder_of(variables, Part::Write, i, b))
        & (weight_of(variables, Part::Read, i, b) == weight_of(variables, Part::Write, i, b))
}

fn same_holders(variables: &[u32], i: u32) -> bool
    ensures { result ≡ same_holders variables.now i }
{
    (0..32).all(|b| same_bit(variables, i, b))
}

// Are both parts of a register alike, its place, its mask and who holds its bits?
pub fn same_register(registers: &[u32], variables: &[u32], i: u32) -> bool
    ensures { result ≡ same_register registers.now variables.now i }
{
    let read = register_part(i, Part::Read);
    alike_words(registers, read, register_part(i, Part::Write), 6) & same_holders(variables, i)
}
