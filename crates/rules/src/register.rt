// Judging a register: rules 6 to 10 and 12.
ghost use Rattle.std.specs.Prelude.{◌≡◌, ◌&&◌, ◌<◌, ◌^◌, Some};
ghost use Rattle.rules.specs.State.{state_in, state_of, unless_stopped};
ghost use Rattle.rules.specs.Names.{Fresh};
ghost use Rattle.rules.specs.Words.{appended};
ghost use Rattle.tables.specs.Rules.{offset_in};
ghost use Rattle.rules.specs.Register.{natural_in, is_natural, natural_of, has_part_lem, masks_long, masks_kept, port_of, part_mask, part_entry, port_found, unknown_port, bad_offset, register_written, part_words, register_entry, judge_register};

use crate::declared::{Judging, Known};
use crate::fault::{Fault, fault_if, fault_of};
use crate::mask::Mask;
use crate::{mask, modifiers, names, words};
use expression::Worth;
use syntax::{Masks, Port, Register};
use tables::words::{pick, word};
use tables::{parameters, registers};

fn natural(value: i32) -> Option<usize>
    ensures { result ≡ natural_in (Some value) }
{
    usize::try_from(value).ok()
}

// An offset, where it is a natural number.
fn natural_in(worth: Worth) -> Option<usize>
    ensures { result ≡ natural_in worth }
{
    worth.and_then(natural)
}

#[tactic(auto, unfolding(crate::specs::Register::port_found))]
fn port_found(text: &[u8], parameters: &[u32], port: Port) -> Option<usize>
    ensures { result ≡ port_found text.now parameters.now port }
{
    let name = names::name_of(text, port.place, port.length);
    names::find(text, parameters, 36, name)
}

// Rule 7, of a port.
#[tactic(auto, unfolding(crate::specs::Register::unknown_port))]
fn unknown_port(text: &[u8], parameters: &[u32], port: Port) -> Option<Fault>
    ensures { result ≡ unknown_port text.now parameters.now port }
{
    let found = port_found(text, parameters, port);
    fault_if(found.is_none(), 7, port.place)
}

// Is an offset a natural number of the parameter's set?
fn is_placed(parameters: &[u32], index: usize, worth: Worth) -> bool
    requires { index < 2 ^ 32 }
    ensures { result ≡ (is_natural worth && offset_in parameters.now index (natural_of worth)) }
{
    natural_in(worth).is_some_and(|offset| parameters::offset_in(parameters, index, offset))
}

// Rule 8, of a port: at its offset, or at the declared name where that is left out.
#[tactic(auto, unfolding(crate::specs::Register::bad_offset))]
fn bad_offset(text: &[u8], parameters: &[u32], place: usize, port: Port) -> Option<Fault>
    ensures { result ≡ bad_offset text.now parameters.now place port }
{
    let index = port_found(text, parameters, port).unwrap_or(0);
    let placed = is_placed(parameters, index, port.worth);
    fault_if(!placed, 8, port.sign.unwrap_or(place))
}

#[tactic(auto, unfolding(crate::specs::Register::has_part_lem))]
fn has_part(register: Register, other: u8) -> bool
    ensures { result ≡ has_part_lem register other }
{
    let first = register.first;
    register.two | !(first.mark == other)
}

// Has each mask as many elements as the register has bits?
#[tactic(auto, unfolding(crate::specs::Register::masks_long))]
fn masks_long(register: Register) -> bool
    ensures { result ≡ masks_long register }
{
    let masks = register.masks;
    !masks.odd & (!masks.is_masked() | (masks.extent == register.width as usize))
}

// Rule 9, of the masks.
#[tactic(auto, unfolding(crate::specs::Register::masks_kept))]
fn masks_kept(register: Register) -> bool
    ensures { result ≡ masks_kept register }
{
    let masks = register.masks;
    let read = has_part(register, 2);
    let write = has_part(register, 1);
    let one_read = modifiers::at_most_one(read, masks.bare, masks.read);
    let one_write = modifiers::at_most_one(write, masks.bare, masks.write);
    masks_long(register) & one_read & one_write
}

// Rules 6 to 9, as the register is written.
fn register_written(known: Known, register: Register, fresh: bool) -> Option<Fault>
    requires { Fresh fresh known.text.now (state_in known) register.place register.length }
    ensures { result ≡ register_written known.entry.text.now (state_in known.entry) register }
{
    let text = known.text;
    let parameters = known.parameters;
    let place = register.place;
    let first = register.first;
    let second = register.two.then_some(register.second);
    let six = known.declared_before(place, register.length, fresh);
    let seven = unknown_port(text, parameters, first);
    let also_seven = second.and_then(|port| unknown_port(text, parameters, port));
    let eight = bad_offset(text, parameters, place, first);
    let also_eight = second.and_then(|port| bad_offset(text, parameters, place, port));
    let paired = modifiers::are_paired(!register.two, first.mark, register.second.mark);
    let nine = fault_if(!(paired & masks_kept(register)), 9, place);
    six.or(seven)
        .or(also_seven)
        .or(eight)
        .or(also_eight)
        .or(nine)
}

// The port of the part with this modifier.
#[tactic(auto, unfolding(crate::specs::Register::port_of))]
fn port_of(register: Register, mark: u8) -> Port
    ensures { result ≡ port_of register mark }
{
    let first = register.first;
    if register.two & !(first.mark == mark) {
        register.second
    } else {
        first
    }
}

// The mask of a part: its own, or the bare one, or all dots.
#[tactic(auto, unfolding(crate::specs::Register::part_mask))]
fn part_mask(text: &[u8], width: u32, masks: Masks, own: u8, quote: usize) -> Mask
    ensures { result ≡ part_mask text.now width masks own quote }
{
    let given = 1 <= (masks.bare as u32) + (own as u32);
    let place = pick(own == 0, masks.whole, quote);
    mask::mask_at(text, width, given.then_some(place))
}

// The words of a part that is there or not.
#[tactic(auto, unfolding(crate::specs::Register::part_entry))]
fn part_entry(present: bool, index: usize, offset: usize, mask: Mask) -> [u32; 6]
    ensures { result ≡ part_entry present index offset mask }
{
    let index = words::narrow(index);
    let offset = words::narrow(offset);
    if present {
        [1, index, offset, mask.dots, mask.fixed, mask.ones]
    } else {
        [0, 0, 0, 0, 0, 0]
    }
}

#[tactic(auto, unfolding(crate::specs::Register::part_words))]
fn part_words(
    text: &[u8],
    parameters: &[u32],
    register: Register,
    mark: u8,
    other: u8,
    own: u8,
    quote: usize,
) -> [u32; 6]
    ensures { result ≡ part_words text.now parameters.now register mark other own quote }
{
    let port = port_of(register, mark);
    let index = port_found(text, parameters, port).unwrap_or(0);
    let offset = natural_in(port.worth).unwrap_or(0);
    let mask = part_mask(text, register.width, register.masks, own, quote);
    part_entry(has_part(register, other), index, offset, mask)
}

// Appends the register's entry.
fn add_register(text: &[u8], parameters: &[u32], table: &mut [u32], register: Register)
    ensures { table.new ≡ appended 15 table.old (register_entry text.now parameters.now register) }
{
    let count = word(table, 0);
    let at = 15 * count + 1;
    let masks = register.masks;
    let head = [
        words::narrow(register.place),
        words::narrow(register.length),
        register.width,
    ];
    let read = part_words(text, parameters, register, 1, 2, masks.read, masks.reading);
    let write = part_words(text, parameters, register, 2, 1, masks.write, masks.writing);
    words::store(table, at, &head);
    words::store(table, at + 3, &read);
    words::store(table, at + 9, &write);
    words::count_one(table, count);
}

// After a first fault nothing more is judged.
pub fn judge_register(
    text: &[u8],
    judging: Judging,
    parameters: &[u32],
    registers: &mut [u32],
    variables: &[u32],
    register: Register,
    fresh: bool,
) -> Judging
    requires { Fresh fresh text.now (state_of judging parameters.now registers.old variables.now) register.place register.length }
    ensures { state_of result parameters.now registers.new variables.now ≡ unless_stopped (state_of judging parameters.now registers.old variables.now) (judge_register text.now (state_of judging parameters.now registers.old variables.now) register) }
{
    if judging.fault.is_some() {
        return judging;
    }
    let known = Known {
        text,
        judging,
        parameters,
        registers,
        variables,
    };
    let written = register_written(known, register, fresh);
    if written.is_some() {
        return Judging {
            fault: written,
            ..judging
        };
    }
    let count = word(registers, 0);
    add_register(text, parameters, registers, register);
    let number = registers::register_fault(parameters, registers, count);
    Judging {
        fault: fault_of(number, register.place),
        ..judging
    }
}
