// The numbers made bit by bit: the byte to write, the value with one more byte read into it, and what may have been
// gathered.
ghost use Rattle.std.specs.Prelude.{◌≡◌, ◌≤◌};
ghost use Rattle.bits.specs.Widths.{widest};
ghost use Rattle.wiring.specs.Pieces.{Usable};
ghost use Rattle.wiring.specs.Assembly.{Written, Gathered, Kept, written_bit, gathered_bit, kept_bit, assembled};

use crate::order::read_before;
use crate::pieces::{carried_by, source_of};
use crate::{BitList, Cell};

// Bit `b` of the byte to write: the value's bit `place`, if the variable has one there.
fn written_bit(cell: Cell, value: usize, b: usize, place: Option<usize>) -> bool
    ensures { result ≡ written_bit cell value b place }
{
    match place {
        Some(p) => bits::bit_of(value, p),
        None => {
            if bits::bit_of(cell.dots, b) {
                bits::bit_of(cell.held, b)
            } else {
                bits::bit_of(cell.ones, b)
            }
        }
    }
}

// Bit `p` of the value after register `r` was read as `byte`.
fn gathered_bit(
    r: usize,
    byte: usize,
    so_far: usize,
    p: usize,
    source: Option<(usize, usize)>,
) -> bool
    ensures { result ≡ gathered_bit r byte so_far p source }
{
    match source {
        Some((q, b)) => {
            if q == r {
                bits::bit_of(byte, b)
            } else {
                bits::bit_of(so_far, p)
            }
        }
        None => false,
    }
}

// Bit `p` of what a value may hold after `step` reads.
fn kept_bit(
    variables: &[u32],
    part: BitList,
    step: usize,
    so_far: usize,
    p: usize,
    source: Option<(usize, usize)>,
) -> bool
    requires { Usable part }
    ensures { result ≡ kept_bit variables.now part step so_far p source }
{
    match source {
        Some((q, _)) => read_before(variables, part, q, step) && bits::bit_of(so_far, p),
        None => false,
    }
}

// The byte to write to a register of the part, with a value of the variable.
pub fn written(variables: &[u32], part: BitList, cell: Cell, value: usize, width: usize) -> usize
    requires usable { Usable part }
    requires width_le_widest { width ≤ widest }
    ensures { result ≡ assembled variables.now part (Written cell value) width }
{
    bits::number_of(width, |b| {
        let place = carried_by(variables, part, cell.register, b);
        written_bit(cell, value, b, place)
    })
}

// The value gathered so far, with register `r` read as `byte`.
pub fn gathered(
    variables: &[u32],
    part: BitList,
    r: usize,
    byte: usize,
    so_far: usize,
    width: usize,
) -> usize
    requires usable { Usable part }
    requires width_le_widest { width ≤ widest }
    ensures { result ≡ assembled variables.now part (Gathered r byte so_far) width }
{
    bits::number_of(width, |p| {
        let source = source_of(variables, part, p);
        gathered_bit(r, byte, so_far, p, source)
    })
}

// Of a value gathered so far, the bits whose registers are among the first `step` that are read.
pub fn kept(variables: &[u32], part: BitList, step: usize, so_far: usize, width: usize) -> usize
    requires usable { Usable part }
    requires width_le_widest { width ≤ widest }
    ensures { result ≡ assembled variables.now part (Kept step so_far) width }
{
    bits::number_of(width, |p| {
        let source = source_of(variables, part, p);
        kept_bit(variables, part, step, so_far, p, source)
    })
}
