// The rules of all registers. For rule 10 there is a map of slots, 256 for each part, and each place falls into one:
// a register part whose slot is new is compared with none before it.
ghost use Rattle.std.specs.Prelude.{◌≡◌, ◌<◌, ◌^◌, set, eqb};
ghost use Rattle.tables.specs.Every.{every};
ghost use Rattle.tables.specs.Tables.{count_of, register_part_in, register_part_of};
ghost use Rattle.tables.specs.Rules.{place_taken, register_fault};
ghost use Rattle.tables.specs.Scan.{slot_map, place_slot};
ghost use Rattle.tables.specs.View.{part_no};

use crate::Part;
use crate::marks::{mark, unmarked};
use crate::registers::{fault_by, place_taken};
use crate::words::word;

// The slot of the place of a part: the offsets of one parameter do not meet, nor do those of many with up to 16 each.
fn slot(registers: &[u32], at: usize) -> usize
    requires { at < 2 ^ 40 }
    ensures { result ≡ place_slot (register_part_in registers.now at) }
{
    (16 * word(registers, at + 1) + word(registers, at + 2)) % 256
}

// Enters the slot of register i's part.
fn enter_slot(slots: &mut [u8], registers: &[u32], part: Part, i: usize)
    requires { i < 2 ^ 32 }
    ensures { slots.new ≡ set slots.old (place_slot (register_part_of registers.now (part_no part) i)) 1 }
{
    mark(slots, slot(registers, part.of_register(i)));
}

// Rule 10 for register i's part, with the slots of that part of the registers before it.
fn taken_before(slots: &[u8], registers: &[u32], part: Part, i: usize) -> bool
    requires i_bound { i < 2 ^ 32 }
    requires slots_value { slots.now ≡ slot_map registers.now (part_no part) i }
    ensures { result ≡ place_taken registers.now (part_no part) i }
{
    !unmarked(slots, slot(registers, part.of_register(i))) && place_taken(registers, part, i)
}

// Do the registers keep rules 8, 10 and 12?
pub fn registers_kept(parameters: &[u32], registers: &[u32]) -> bool
    ensures { result ≡ every (count_of registers.now) (λ i. eqb (register_fault parameters.now registers.now i) 0) }
{
    let mut reads = [0u8; 256];
    let mut writes = [0u8; 256];
    for i in 0..word(registers, 0) {
        let taken = taken_before(&reads, registers, Part::Read, i)
            | taken_before(&writes, registers, Part::Write, i);
        if fault_by(parameters, registers, i, taken) != 0 {
            return false;
        }
        enter_slot(&mut reads, registers, Part::Read, i);
        enter_slot(&mut writes, registers, Part::Write, i);
    }
    true
}
