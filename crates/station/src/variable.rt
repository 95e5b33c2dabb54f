// A variable of sound tables: what they say of it, and the accesses of its operations with the bytes that they carry.
ghost use Rattle.std.specs.Prelude.{◌≡◌, ◌<◌, ◌^◌};
ghost use Rattle.tables.specs.View.{part_no};
ghost use Rattle.station.specs.Variable.{part_of, has_part_lem, kind_of, width_of, access_count, register_of, Ready, Byte};
ghost use Rattle.station.specs.Standing.{gathered_so};
ghost use Rattle.station.specs.Access.{cell_of, byte_to_write, fits_mask, gather_byte, access_of};
ghost use Rattle.station.specs.Station.{offered_read, offered_write, finished};

use crate::{Access, Answer, Operation, Outcome};
use tables::Part;
use tables::words::word;
use wiring::{BitList, Cell};

#[derive(Clone, Copy)]
pub struct Variable<'a> {
    pub registers: &'a [u32],
    pub variables: &'a [u32],
    pub number: usize,
    ghost reads: { Ready registers.now variables.now number 0 },
    ghost writes: { Ready registers.now variables.now number 1 },
}

impl Variable<'_> {
    fn bits(&self, part: Part) -> BitList
        ensures { result ≡ part_of self.now.variables.now self.now.number (part_no part) }
    {
        let at = 59 * self.number + 6 + 27 * (part as usize);
        BitList {
            at,
            count: word(self.variables, at + 2),
        }
    }

    pub fn has_part(&self, part: Part) -> bool
        ensures { result ≡ has_part_lem self.now.variables.now self.now.number (part_no part) }
    {
        word(self.variables, 59 * self.number + 6 + 27 * (part as usize)) == 1
    }

    pub fn kind(&self) -> usize
        ensures { result ≡ kind_of self.now.variables.now self.now.number }
    {
        word(self.variables, 59 * self.number + 1 + 2)
    }

    pub fn width(&self) -> usize
        ensures { result ≡ width_of self.now.variables.now self.now.number }
    {
        word(self.variables, 59 * self.number + 1 + 3)
    }

    // How many accesses an operation takes.
    pub fn access_count(&self, part: Part) -> usize
        ensures { result ≡ access_count self.now.variables.now self.now.number (part_no part) }
    {
        wiring::register_count(self.variables, self.bits(part))
    }

    // The register of access `step`.
    pub fn register_at(&self, part: Part, step: usize) -> usize
        ensures { result ≡ register_of self.now.variables.now self.now.number (part_no part) step }
    {
        wiring::register_at(self.variables, self.bits(part), step)
    }

    // ---- what is read

    // The gathered bits lie only where registers were already read.
    #[tactic(auto, unfolding(crate::specs::Standing::gathered_so))]
    pub fn is_gathered(&self, step: usize, gathered: usize) -> bool
        ensures { result ≡ gathered_so self.now.variables.now self.now.number step gathered }
    {
        let part = self.bits(Part::Read);
        wiring::kept(self.variables, part, step, gathered, self.width()) == gathered
    }

    // The value after access `step` of a read brought `byte`.
    #[tactic(auto, unfolding(crate::specs::Access::gather_byte))]
    pub fn gather(&self, step: usize, so_far: usize, byte: u32) -> usize
        ensures { result ≡ gather_byte self.now.variables.now self.now.number step so_far byte }
    {
        wiring::gathered(
            self.variables,
            self.bits(Part::Read),
            self.register_at(Part::Read, step),
            byte as usize,
            so_far,
            self.width(),
        )
    }

    pub fn offer_read(&self, step: usize, gathered: usize) -> Outcome
        requires { step < access_count self.now.variables.now self.now.number 0 }
        ensures { result ≡ offered_read self.now.registers.now self.now.variables.now self.now.number step gathered }
    {
        let register = self.register_at(Part::Read, step);
        Outcome {
            operation: Operation::Reading {
                variable: self.number,
                step,
                gathered,
            },
            answer: Answer::Offer(access_of(self.registers, Part::Read, register, 0)),
        }
    }

    // ---- what is written

    #[tactic(auto, unfolding(crate::specs::Access::byte_to_write))]
    pub fn byte_to_write(&self, held: &[u32], value: usize, register: usize) -> u32
        requires { Byte self.now.registers.now register }
        ensures { result ≡ byte_to_write self.now.registers.now self.now.variables.now held.now
            self.now.number value register }
    {
        wiring::written(
            self.variables,
            self.bits(Part::Write),
            cell_of(self.registers, held, register),
            value,
            word(self.registers, 15 * register + 1 + 2),
        ) as u32
    }

    pub fn offer_write(&self, held: &[u32], step: usize, value: usize) -> Outcome
        requires { step < access_count self.now.variables.now self.now.number 1 }
        ensures { result ≡ offered_write self.now.registers.now self.now.variables.now held.now
            self.now.number step value }
    {
        let register = self.register_at(Part::Write, step);
        let byte = self.byte_to_write(held, value, register);
        Outcome {
            operation: Operation::Writing {
                variable: self.number,
                step,
                value,
            },
            answer: Answer::Offer(access_of(self.registers, Part::Write, register, byte)),
        }
    }

    // The operation is over: done gives the value and the number of accesses.
    pub fn finish(&self, part: Part, value: usize) -> Outcome
        requires { value < 2 ^ width_of self.now.variables.now self.now.number }
        ensures { result ≡ finished self.now.variables.now self.now.number (part_no part) value }
    {
        Outcome {
            operation: Operation::Idle,
            answer: Answer::Done {
                value: bits::values::decode(self.kind(), self.width(), value),
                accesses: self.access_count(part),
            },
        }
    }
}

fn cell_of(registers: &[u32], held: &[u32], register: usize) -> Cell
    requires { register < 64 }
    ensures { result ≡ cell_of registers.now held.now register }
{
    Cell {
        register,
        dots: word(registers, 15 * register + 4 + 6 * 1 + 3),
        ones: word(registers, 15 * register + 4 + 6 * 1 + 5),
        held: word(held, register),
    }
}

// Has the byte that was read at the fixed bits of the register's read mask what is fixed there?
pub fn fits_mask(registers: &[u32], register: usize, byte: u32) -> bool
    requires { register < 64 }
    ensures { result ≡ fits_mask registers.now register byte }
{
    let fixed = word(registers, 15 * register + 4 + 6 * 0 + 4);
    let ones = word(registers, 15 * register + 4 + 6 * 0 + 5);
    byte as usize & fixed == ones
}

// An access of a part of a register, with its byte.
fn access_of(registers: &[u32], part: Part, register: usize, byte: u32) -> Access
    requires { register < 64 }
    ensures { result ≡ access_of registers.now part (part_no part) register byte }
{
    let at = 15 * register + 4 + 6 * (part as usize);
    Access {
        direction: part,
        parameter: word(registers, at + 1),
        offset: word(registers, at + 2),
        byte,
    }
}
