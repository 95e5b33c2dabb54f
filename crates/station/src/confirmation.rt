// A confirmation: it offers the next access, or says done at the last; or the byte read contradicts its register, and
// the read is over.
ghost use Rattle.std.specs.Prelude.{◌≡◌, ◌+◌, ◌≤◌, ◌<◌, ◌^◌, length};
ghost use Rattle.tables.specs.Words.{word_at};
ghost use Rattle.station.specs.Variable.{width_of, access_count};
ghost use Rattle.station.specs.Standing.{tables_of};
ghost use Rattle.station.specs.Station.{Leaves, next_read, after_read, next_write, held_after};
ghost use Rattle.tables.specs.View.{sound};
ghost use Rattle.station.specs.Calls.{confirm};
ghost use Rattle.station.specs.Promise.{lent, Meets};

use crate::refusal::Refusal;
use crate::standing::Lent;
use crate::variable::{Variable, fits_mask};
use crate::{Operation, Outcome};
use tables::Part;

// `step` accesses of the read are confirmed: the next is offered, or none is left and the read is done.
#[tactic(auto, unfolding(crate::specs::Station::next_read))]
fn next_read(variable: &Variable, step: usize, gathered: usize) -> Outcome
    requires { gathered < 2 ^ width_of variable.now.variables.now variable.now.number }
    ensures { result ≡ next_read variable.now.registers.now variable.now.variables.now variable.now.number
        step gathered }
{
    if step < variable.access_count(Part::Read) {
        variable.offer_read(step, gathered)
    } else {
        variable.finish(Part::Read, gathered)
    }
}

// `step` accesses of the write are confirmed: the next is offered, or none is left, the write is done and its mark
// cleared.
#[tactic(auto, unfolding(crate::specs::Station::next_write))]
fn next_write(
    variable: &Variable,
    held: &[u32],
    marks: &mut [u8],
    step: usize,
    value: usize,
) -> Outcome
    requires v_in_bounds { variable.now.number < length marks.old }
    requires value_bound { value < 2 ^ width_of variable.now.variables.now variable.now.number }
    ensures { Leaves
        (next_write variable.now.registers.now variable.now.variables.now held.now marks.old
        variable.now.number step value)
        held.now marks.new result }
{
    if step < variable.access_count(Part::Write) {
        return variable.offer_write(held, step, value);
    }
    marks[variable.number] = 0;
    variable.finish(Part::Write, value)
}

// The record takes the byte of the access that is confirmed.
#[tactic(auto, unfolding(crate::specs::Station::held_after))]
fn record_byte(variable: &Variable, held: &mut [u32], step: usize, value: usize)
    requires step_bound { step < access_count variable.now.variables.now variable.now.number 1 }
    requires registers_in_bounds { word_at variable.now.registers.now 0 ≤ length held.old }
    ensures { held.new ≡ held_after variable.now.registers.now variable.now.variables.now held.old
        variable.now.number step value }
{
    let register = variable.register_at(Part::Write, step);
    held[register] = variable.byte_to_write(held, value, register);
}

// An access of the read in hand is confirmed, and brought this byte: its fixed bits are compared first of all.
#[tactic(auto, unfolding(crate::specs::Station::after_read))]
fn confirm_read(variable: &Variable, step: usize, gathered: usize, byte: u32) -> Outcome
    requires { step < access_count variable.now.variables.now variable.now.number 0 }
    ensures { result ≡ after_read variable.now.registers.now variable.now.variables.now variable.now.number
        step gathered byte }
{
    let register = variable.register_at(Part::Read, step);
    if !fits_mask(variable.registers, register, byte) {
        return Outcome::contradicted(register);
    }
    next_read(variable, step + 1, variable.gather(step, gathered, byte))
}

// An access of the write in hand is confirmed: only now does the record take its byte.
fn confirm_write(
    variable: &Variable,
    held: &mut [u32],
    marks: &mut [u8],
    step: usize,
    value: usize,
) -> Outcome
    requires step_bound { step < access_count variable.now.variables.now variable.now.number 1 }
    requires registers_in_bounds { word_at variable.now.registers.now 0 ≤ length held.old }
    requires v_in_bounds { variable.now.number < length marks.old }
    requires value_bound { value < 2 ^ width_of variable.now.variables.now variable.now.number }
    ensures { Leaves
        (next_write variable.now.registers.now variable.now.variables.now
        (held_after variable.now.registers.now variable.now.variables.now held.old variable.now.number step value)
        marks.old variable.now.number (step + 1) value)
        held.new marks.new result }
{
    record_byte(variable, held, step, value);
    next_write(variable, held, marks, step + 1, value)
}

// The access on offer was performed, and brought this byte: the answer offers the next one, or says done.
pub fn confirm(
    parameters: &[u32],
    registers: &[u32],
    variables: &[u32],
    held: &mut [u32],
    marks: &mut [u8],
    operation: Operation,
    byte: u32,
) -> Outcome
    ensures { Meets
        (confirm sound (tables_of parameters.now registers.now variables.now)
        (lent held.old marks.old operation) byte)
        held.new marks.new result }
{
    let lent = Lent {
        parameters,
        registers,
        variables,
        held: held.len(),
        marks: marks.len(),
        operation,
    };
    if let Err(why) = lent.check() {
        return Outcome::refused(operation, why);
    }
    match operation {
        Operation::Idle => Outcome::refused(operation, Refusal::NoneInHand),
        Operation::Reading {
            variable,
            step,
            gathered,
        } => confirm_read(&lent.variable(variable), step, gathered, byte),
        Operation::Writing {
            variable,
            step,
            value,
        } => confirm_write(&lent.variable(variable), held, marks, step, value),
    }
}
