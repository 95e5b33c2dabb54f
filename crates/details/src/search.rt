// Searches in the tables: the first entry, range, piece or bit, from 0 up, of which something holds.
ghost use Rattle.std.specs.Prelude.{◌≡◌, eqb, get_or, not};
ghost use Rattle.bits.specs.Widths.{widest};
ghost use Rattle.tables.specs.Tables.{count_of, range_count, range_of, register_at, register_part_of};
ghost use Rattle.tables.specs.Rules.{range_fits};
ghost use Rattle.tables.specs.Scan.{overlap};
ghost use Rattle.tables.specs.View.{part_no};
ghost use Rattle.details.specs.Search.{first, serves_with, clashes_with, tells_with, is_star, could_tell_by, undotted, overlaps_at};

use crate::entries::{
    Entry, count_of, mask_bit, piece_of, range_count, range_high, range_low, register_has,
    register_part, register_word,
};
use tables::registers::clashes;
use tables::{Part, Piece};

// Does range k of a parameter go down or past 255?
fn misfits(parameters: &[u32], i: u32, k: u32) -> bool
    ensures { result ≡ not (range_fits (range_of parameters.now i k)) }
{
    let high = range_high(parameters, i, k);
    !((range_low(parameters, i, k) <= high) & (high <= 255))
}

// Does register j have the place of register i in a part?
pub fn serves_with(registers: &[u32], i: u32, part: Part, j: u32) -> bool
    ensures { result ≡ serves_with registers.now i part j }
{
    register_has(registers, j, part)
        & (register_word(registers, j, part, 1) == register_word(registers, i, part, 1))
        & (register_word(registers, j, part, 2) == register_word(registers, i, part, 2))
}

// .. and may it not?
fn clashes_with(registers: &[u32], i: u32, part: Part, j: u32) -> bool
    ensures { result ≡ clashes_with registers.now i part j }
{
    let port = register_word(registers, i, part, 1);
    let offset = register_word(registers, i, part, 2);
    let earlier = register_part(j, part);
    clashes(
        registers,
        part.number(),
        register_part(i, part),
        port,
        offset,
        earlier,
    )
}

// Is a bit fixed 0 in one mask and 1 in the other?
fn tells_with(registers: &[u32], i: u32, part: Part, j: u32, b: u32) -> bool
    ensures { result ≡ tells_with registers.now i part j b }
{
    let fixed = mask_bit(registers, i, part, 4, b);
    let one = mask_bit(registers, i, part, 5, b);
    let other_fixed = mask_bit(registers, j, part, 4, b);
    let other_one = mask_bit(registers, j, part, 5, b);
    (fixed & !one) & (other_fixed & other_one) | (fixed & one) & (other_fixed & !other_one)
}

fn is_star(registers: &[u32], i: u32, part: Part, b: u32) -> bool
    ensures { result ≡ is_star (register_part_of registers.now (part_no part) i) b }
{
    !mask_bit(registers, i, part, 3, b) & !mask_bit(registers, i, part, 4, b)
}

// Is a bit fixed in one mask and `*` in the other?
fn could_tell_by(registers: &[u32], i: u32, part: Part, j: u32, b: u32) -> bool
    ensures { result ≡ could_tell_by (register_part_of registers.now (part_no part) i) (register_part_of registers.now (part_no part) j) b }
{
    let fixed = mask_bit(registers, i, part, 4, b);
    let other_fixed = mask_bit(registers, j, part, 4, b);
    fixed & is_star(registers, j, part, b) | is_star(registers, i, part, b) & other_fixed
}

// Does a bit lie from low to high, and is it no dot?
fn is_undotted(registers: &[u32], i: u32, part: Part, low: usize, high: usize, b: u32) -> bool
    ensures { result ≡ undotted registers.now i part low high b }
{
    let bit = b as usize;
    let dots = register_word(registers, i, part, 3);
    (low <= bit) & (bit <= high) & !bits::bit_of(dots, bit)
}

fn overlaps(a: Piece, b: Piece) -> bool
    ensures { result ≡ overlap a b }
{
    (a.register == b.register) & (a.low <= b.high) & (b.low <= a.high)
}

// Does piece j of a part share a bit with piece k?
fn overlaps_at(variables: &[u32], v: u32, part: Part, k: u32, j: u32) -> bool
    ensures { result ≡ overlaps_at variables.now v part k j }
{
    let earlier = piece_of(variables, v, part, j);
    let piece = piece_of(variables, v, part, k);
    overlaps(earlier, piece)
}

// A range of a parameter that goes down or past 255 (rule 8).
pub fn misfit(parameters: &[u32], i: u32) -> Option<u32>
    ensures { result ≡ first (range_count parameters.now i) (λ k. not (range_fits (range_of parameters.now i k))) }
{
    (0..range_count(parameters, i)).find(|&k| misfits(parameters, i, k))
}

// A register whose name stands at this place.
pub fn named_at(registers: &[u32], place: usize) -> Option<u32>
    ensures { result ≡ first (count_of registers.now) (λ i. eqb (get_or registers.now (register_at i) 0) place) }
{
    (0..count_of(registers)).find(|&i| Entry::Register.place(registers, i) == place)
}

// A register before this one that may not have its place in a part (rule 10).
pub fn clashing(registers: &[u32], i: u32, part: Part) -> Option<u32>
    ensures { result ≡ first i (clashes_with registers.now i part) }
{
    (0..i).find(|&j| clashes_with(registers, i, part, j))
}

// A bit that tells the masks of two registers apart in a part.
pub fn telling(registers: &[u32], i: u32, part: Part, j: u32) -> Option<u32>
    ensures { result ≡ first widest (tells_with registers.now i part j) }
{
    (0..32).find(|&b| tells_with(registers, i, part, j, b))
}

// A bit that could: it is fixed in one of them and `*` in the other.
pub fn could_tell(registers: &[u32], i: u32, part: Part, j: u32) -> Option<u32>
    ensures { result ≡ first widest (could_tell_by (register_part_of registers.now (part_no part) i) (register_part_of registers.now (part_no part) j)) }
{
    (0..32).find(|&b| could_tell_by(registers, i, part, j, b))
}

// A bit of this register, from low to high, that is no dot (rule 11).
pub fn undotted(registers: &[u32], i: u32, part: Part, low: usize, high: usize) -> Option<u32>
    ensures { result ≡ first widest (undotted registers.now i part low high) }
{
    (0..32).find(|&b| is_undotted(registers, i, part, low, high, b))
}

// A piece of this variable's part before piece k that shares a bit with it (rule 11).
pub fn overlapping(variables: &[u32], v: u32, part: Part, k: u32) -> Option<u32>
    ensures { result ≡ first k (overlaps_at variables.now v part k) }
{
    (0..k).find(|&j| overlaps_at(variables, v, part, k, j))
}
