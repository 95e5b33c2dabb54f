// An abandoned operation: a write leaves its mark, a read nothing.
ghost use Rattle.station.specs.Standing.{tables_of};
ghost use Rattle.tables.specs.View.{sound};
ghost use Rattle.station.specs.Calls.{abandon};
ghost use Rattle.station.specs.Promise.{lent, Meets};

use crate::refusal::Refusal;
use crate::standing::Lent;
use crate::{Answer, Operation, Outcome};

// Ends the operation in hand. The access on offer may have been performed or not, so a write leaves its variable
// half-written.
pub fn abandon(
    parameters: &[u32],
    registers: &[u32],
    variables: &[u32],
    held: &[u32],
    marks: &mut [u8],
    operation: Operation,
) -> Outcome
    ensures { Meets
        (abandon sound
        (tables_of parameters.now registers.now variables.now)
        (lent held.now marks.old operation))
        held.now marks.new result }
{
    let lent = Lent {
        parameters,
        registers,
        variables,
        held: held.len(),
        marks: marks.len(),
        operation,
    };
    if let Err(why) = lent.check() {
        return Outcome::refused(operation, why);
    }
    match operation {
        Operation::Idle => return Outcome::refused(operation, Refusal::NoneInHand),
        Operation::Reading { .. } => {}
        Operation::Writing { variable, .. } => marks[variable] = 1,
    }
    Outcome::over(Answer::Abandoned)
}
