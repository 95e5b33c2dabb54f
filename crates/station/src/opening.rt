// The opening: the record takes the power-on numbers, and every mark is cleared.
ghost use Rattle.std.specs.Prelude.{◌≡◌, ◌≤◌, ◌<◌, ◌%◌, ◌^◌, length, slice_index, EachIndex};
ghost use Rattle.bits.specs.Widths.{widest};
ghost use Rattle.station.specs.Standing.{tables_of};
ghost use Rattle.station.specs.Station.{power_of};
ghost use Rattle.tables.specs.View.{sound};
ghost use Rattle.station.specs.Calls.{opening};
ghost use Rattle.station.specs.Promise.{lent, Meets};

use crate::standing::Lent;
use crate::{Answer, Operation, Outcome};
use tables::words::word;

// A number without its bits from a width up.
fn cut(number: usize, width: usize) -> usize
    requires { number < 2 ^ widest }
    ensures { result ≡ number % 2 ^ width }
{
    if width <= bits::WIDEST {
        number & (bits::power(width) - 1)
    } else {
        number
    }
}

// The record takes the power-on numbers, each cut to its register's width, and 0 where there is none.
fn take_numbers(registers: &[u32], power: &[u32], held: &mut [u32])
    requires { length held.old < 2 ^ 32 }
    ensures { EachIndex held.new (λ r. slice_index held.new r ≡ power_of registers.now power.now r) }
{
    for (r, number) in held.iter_mut().enumerate() {
        let width = word(registers, 15 * r + 1 + 2);
        *number = cut(word(power, r), width) as u32;
    }
}

// Opens the station on these tables: every other call goes on from the record and the marks that it leaves.
pub fn open(
    parameters: &[u32],
    registers: &[u32],
    variables: &[u32],
    power: &[u32],
    held: &mut [u32],
    marks: &mut [u8],
    operation: Operation,
) -> Outcome
    ensures { Meets
        (opening sound
        (tables_of parameters.now registers.now variables.now)
        power.now
        (lent held.old marks.old operation))
        held.new marks.new result }
{
    let lent = Lent {
        parameters,
        registers,
        variables,
        held: held.len(),
        marks: marks.len(),
        operation,
    };
    if let Err(why) = lent.check_opening(power.len()) {
        return Outcome::refused(operation, why);
    }
    take_numbers(registers, power, &mut held[..word(registers, 0)]);
    marks[..word(variables, 0)].fill(0);
    Outcome::over(Answer::Opened)
}
