// Reading a variable in units: the station's begin and confirmation, with a calibration. The operation in hand is an
// ordinary read; the calibration is lent at the begin, and again at each confirmation. To abandon such a read is the
// station's call.
#![tactic(auto)]

ghost use Rattle.std.specs.Prelude.{◌≡◌};
ghost use Rattle.tables.specs.View.{sound};
ghost use Rattle.station.specs.Standing.{tables_of};
ghost use Rattle.station.specs.Promise.{lent, Meets};
ghost use Rattle.calibrated.specs.Readings.{is_refused, is_numeric, has_units, units_for, done_in, answer_for, outcome_for, is_early, is_write, units_refused, refused_by, begin_in_units, confirm_in_units, MeetsInUnits};

use station::{Answer, Operation, Outcome};
use tables::words::word;
use units::Calibration;

// There are no units: the calibration is not finite, or the variable not numeric.
const NO_UNITS: usize = 53;

// Done gives the reading in units, or is refused and over all the same; every other answer is the station's.
#[derive(Clone, Copy)]
pub enum InUnits {
    Reading { value: f64, accesses: usize },
    Stopped(usize),
    Same(Answer),
}

#[derive(Clone, Copy)]
pub struct OutcomeInUnits {
    pub operation: Operation,
    pub answer: InUnits,
}

// ---- whether there are units

// Whether a variable is there, and an `int` or a `signed int`.
#[tactic(auto, unfolding(crate::specs::Readings::is_numeric))]
fn is_numeric(variables: &[u32], v: usize) -> bool
    ensures { result ≡ is_numeric variables.now v }
{
    v < word(variables, 0) && word(variables, 59 * v + 1 + 2) <= 1
}

#[tactic(auto, unfolding(crate::specs::Readings::has_units))]
fn has_units(variables: &[u32], v: usize, calibration: Calibration) -> bool
    ensures { result ≡ has_units variables.now v calibration }
{
    units::is_usable(calibration) && is_numeric(variables, v)
}

fn is_refused(answer: Answer) -> bool
    ensures { result ≡ is_refused answer }
{
    matches!(answer, Answer::Refused(_) | Answer::Stopped { .. })
}

// ---- the calls

// Begins to read a variable in units: what `station::begin_read` answers, but 53 before any access where there are no
// units.
pub fn begin_read_in_units(
    parameters: &[u32],
    registers: &[u32],
    variables: &[u32],
    held: &[u32],
    marks: &[u8],
    operation: Operation,
    v: usize,
    calibration: Calibration,
) -> Outcome
    ensures { Meets
        (begin_in_units sound
        (tables_of parameters.now registers.now variables.now)
        (lent held.now marks.now operation)
        v calibration)
        held.now marks.now result }
{
    let begun = station::begin_read(parameters, registers, variables, held, marks, operation, v);
    if is_refused(begun.answer) || has_units(variables, v, calibration) {
        return begun;
    }
    Outcome {
        operation,
        answer: Answer::Refused(NO_UNITS),
    }
}

fn done_in(value: i64, accesses: usize, calibration: Calibration) -> InUnits
    ensures { result ≡ done_in value accesses calibration }
{
    match units::convert(value, calibration) {
        Ok(value) => InUnits::Reading { value, accesses },
        Err(why) => InUnits::Stopped(why.number()),
    }
}

// The answer to a confirmation: only a read brings a reading, and only when it is done.
fn answer_for(operation: Operation, calibration: Calibration, answer: Answer) -> InUnits
    ensures { result ≡ answer_for operation calibration answer }
{
    match (operation, answer) {
        (Operation::Reading { .. }, Answer::Done { value, accesses }) => {
            done_in(value, accesses, calibration)
        }
        _ => InUnits::Same(answer),
    }
}

// What the station's confirmation is told as: 53 leaves the operation in hand.
fn told_for(
    units: bool,
    operation: Operation,
    calibration: Calibration,
    outcome: Outcome,
) -> OutcomeInUnits
    ensures { result ≡ outcome_for units operation calibration outcome }
{
    if is_refused(outcome.answer) || units {
        return OutcomeInUnits {
            operation: outcome.operation,
            answer: answer_for(operation, calibration, outcome.answer),
        };
    }
    OutcomeInUnits {
        operation,
        answer: InUnits::Same(Answer::Refused(NO_UNITS)),
    }
}

// Is this 20, 21 or 22, which every call tests first?
fn is_early(answer: Answer) -> bool
    ensures { result ≡ is_early answer }
{
    matches!(answer, Answer::Refused(number) if number < 23)
}

// Refuses by 20 to 22, or else by 53, and records nothing: a begin, which changes nothing, makes the same tests first.
fn refuse_units(
    parameters: &[u32],
    registers: &[u32],
    variables: &[u32],
    held: &[u32],
    marks: &[u8],
    operation: Operation,
) -> OutcomeInUnits
    ensures { result ≡ refused_by
        (units_refused sound
        (tables_of parameters.now registers.now variables.now)
        (lent held.now marks.now operation)) }
{
    let begun = station::begin_read(parameters, registers, variables, held, marks, operation, 0);
    let answer = if is_early(begun.answer) {
        begun.answer
    } else {
        Answer::Refused(NO_UNITS)
    };
    OutcomeInUnits {
        operation,
        answer: InUnits::Same(answer),
    }
}

fn is_write(operation: Operation) -> bool
    ensures { result ≡ is_write operation }
{
    matches!(operation, Operation::Writing { .. })
}

// Whether the operation in hand has units; where none is, nothing speaks against them.
fn units_for(operation: Operation, variables: &[u32], calibration: Calibration) -> bool
    ensures { result ≡ units_for operation variables.now calibration }
{
    match operation {
        Operation::Idle => true,
        Operation::Reading { variable, .. } | Operation::Writing { variable, .. } => {
            has_units(variables, variable, calibration)
        }
    }
}

// Confirms an access: what `station::confirm` does, but a read that is done gives its reading in units, or 54 instead.
pub fn confirm_in_units(
    parameters: &[u32],
    registers: &[u32],
    variables: &[u32],
    held: &mut [u32],
    marks: &mut [u8],
    operation: Operation,
    number: u32,
    calibration: Calibration,
) -> OutcomeInUnits
    ensures { MeetsInUnits
        (confirm_in_units sound
        (tables_of parameters.now registers.now variables.now)
        (lent held.old marks.old operation)
        number calibration)
        held.new marks.new result }
{
    let units = units_for(operation, variables, calibration);
    if is_write(operation) && !units {
        return refuse_units(parameters, registers, variables, held, marks, operation);
    }
    let outcome = station::confirm(
        parameters, registers, variables, held, marks, operation, number,
    );
    told_for(units, operation, calibration, outcome)
}
