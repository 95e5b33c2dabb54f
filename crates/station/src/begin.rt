// The two begins: each offers the first access.
ghost use Rattle.std.specs.Prelude.{◌≡◌};
ghost use Rattle.station.specs.Standing.{tables_of};
ghost use Rattle.station.specs.Station.{outside_of};
ghost use Rattle.tables.specs.View.{sound};
ghost use Rattle.station.specs.Calls.{begin_read, begin_write};
ghost use Rattle.station.specs.Promise.{lent, Meets};

use crate::refusal::Refusal;
use crate::standing::Lent;
use crate::{Operation, Outcome};
use tables::Part;

// Begins to read a variable: the answer offers its first access, or refuses.
pub fn begin_read(
    parameters: &[u32],
    registers: &[u32],
    variables: &[u32],
    held: &[u32],
    marks: &[u8],
    operation: Operation,
    v: usize,
) -> Outcome
    ensures { Meets
        (begin_read sound
        (tables_of parameters.now registers.now variables.now)
        (lent held.now marks.now operation)
        v)
        held.now marks.now result }
{
    let lent = Lent {
        parameters,
        registers,
        variables,
        held: held.len(),
        marks: marks.len(),
        operation,
    };
    if let Err(why) = lent.check_begin(v, Part::Read) {
        return Outcome::refused(operation, why);
    }
    if marks[v] != 0 {
        return Outcome::refused(operation, Refusal::HalfWritten);
    }
    lent.variable(v).offer_read(0, 0)
}

// Why a value outside its type is refused: as 0 lies in every type, the sign tells which end it lies beyond.
fn outside(value: i64) -> Refusal
    ensures { result ≡ outside_of value }
{
    if value < 0 {
        Refusal::Below
    } else {
        Refusal::Above
    }
}

// Begins to write a value to a variable: the answer offers its first access, or refuses. Nothing is recorded before it
// is confirmed.
pub fn begin_write(
    parameters: &[u32],
    registers: &[u32],
    variables: &[u32],
    held: &[u32],
    marks: &[u8],
    operation: Operation,
    v: usize,
    value: i64,
) -> Outcome
    ensures { Meets
        (begin_write sound
        (tables_of parameters.now registers.now variables.now)
        (lent held.now marks.now operation)
        v value)
        held.now marks.now result }
{
    let lent = Lent {
        parameters,
        registers,
        variables,
        held: held.len(),
        marks: marks.len(),
        operation,
    };
    if let Err(why) = lent.check_begin(v, Part::Write) {
        return Outcome::refused(operation, why);
    }
    let variable = lent.variable(v);
    match bits::values::encode(variable.kind(), variable.width(), value) {
        Some(pattern) => variable.offer_write(held, 0, pattern),
        None => Outcome::refused(operation, outside(value)),
    }
}
