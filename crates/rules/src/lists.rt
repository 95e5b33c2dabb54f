// The bit lists of a variable: the registers that they name, and which list gives which part.
ghost use Rattle.std.specs.Prelude.{◌≡◌, ◌+◌, ◌-◌, ◌*◌, ◌<◌, ◌≤◌, ◌^◌, [], ◌∷◌, get_or, length};
ghost use Rattle.tables.specs.View.{part_no};
ghost use Rattle.tables.specs.Words.{register_width};
ghost use Rattle.rules.specs.Words.{word_of, written};
ghost use Rattle.rules.specs.Lists.{high_in, piece_named, unknown_in, pieces_on, all_have, list_no, list_for, part_words};

use crate::fault::{Fault, fault_if};
use crate::modifiers::are_paired;
use crate::names::{find, name_of};
use crate::words::{narrow, put, store};
use syntax::Variable;
use tables::Part;
use tables::words::{pick, word};

// A list of a variable that gives a part.
#[derive(Clone, Copy, PartialEq, Eq)]
pub enum Given {
    First,
    Second,
}

// A number of a list that was read; 0 past its end.
pub fn item(list: &[usize], at: usize) -> usize
    ensures { result ≡ get_or list.now at 0 }
{
    list.get(at).copied().unwrap_or(0)
}

// The register that a piece names.
#[tactic(auto, unfolding(crate::specs::Lists::piece_named))]
pub fn piece_named(text: &[u8], registers: &[u32], list: &[usize], k: usize) -> Option<usize>
    requires { k < 2 ^ 32 }
    ensures { result ≡ piece_named text.now registers.now list.now k }
{
    let place = item(list, 5 * k);
    let length = item(list, 5 * k + 1);
    let name = name_of(text, place, length);
    find(text, registers, 15, name)
}

#[tactic(auto, unfolding(crate::specs::Words::written))]
pub fn store_piece(pieces: &mut [u32], at: usize, register: usize, high: usize, low: usize)
    requires { at < 2 ^ 32 }
    ensures { pieces.new ≡ written pieces.old at (word_of register ∷ word_of high ∷ word_of low ∷ []) }
{
    put(pieces, at, narrow(register));
    put(pieces, at + 1, narrow(high));
    put(pieces, at + 2, narrow(low));
}

// The highest bit that a register has.
fn top_of(registers: &[u32], register: u32) -> usize
    ensures { result ≡ register_width registers.now register - 1 }
{
    let width = word(registers, 15 * (register as usize) + 1 + 2);
    width.saturating_sub(1)
}

// The high bit of a piece: as it is read, or the register's highest, where that is taken whole.
#[tactic(auto, unfolding(crate::specs::Lists::high_in))]
fn high_of(registers: &[u32], list: &[usize], k: usize, register: u32) -> usize
    requires { k < 2 ^ 32 }
    ensures { result ≡ high_in registers.now list.now k register }
{
    let top = top_of(registers, register);
    let high = item(list, 5 * k + 3);
    pick(item(list, 5 * k + 2) == 1, top, high)
}

// Stores the pieces of a list as the tables hold them. Rule 7: the first name that is no register's.
pub fn resolve(
    text: &[u8],
    registers: &[u32],
    list: &[usize],
    count: usize,
    pieces: &mut [u32],
) -> Option<Fault>
    requires { count ≤ 8 }
    ensures known { result ≡ unknown_in text.now registers.now list.now count }
    ensures stored { pieces.new ≡ pieces_on text.now registers.now list.now pieces.old count }
{
    let mut fault = None;
    for k in 0..count {
        let found = piece_named(text, registers, list, k);
        let place = item(list, 5 * k);
        fault = fault.or(fault_if(found.is_none(), 7, place));
        let register = found.unwrap_or(0);
        let high = high_of(registers, list, k, narrow(register));
        let low = item(list, 5 * k + 4);
        store_piece(pieces, 3 * k, register, high, low);
    }
    fault
}

// Is every piece of a register that has the part?
pub fn all_have(registers: &[u32], part: Part, pieces: &[u32], count: usize) -> bool
    requires { count ≤ 8 }
    ensures { result ≡ all_have registers.now (part_no part) pieces.now count }
{
    (0..count).all(|k| {
        let register = word(pieces, 3 * k);
        word(registers, 15 * register + 4 + 6 * part.number()) == 1
    })
}

// Which list gives the part, if one does.
#[tactic(auto, unfolding(crate::specs::Lists::list_for))]
pub fn list_for(registers: &[u32], variable: Variable, first: &[u32], part: Part) -> Option<Given>
    requires { variable.count ≤ 8 }
    ensures { list_no result ≡ list_for registers.now variable first.now (part_no part) }
{
    let own = part.number() + 1;
    let alone = variable.rest.count == 0;
    if !are_paired(alone, variable.mark, variable.rest.mark) {
        return None;
    }
    if variable.mark as usize == own {
        return Some(Given::First);
    }
    if variable.rest.mark as usize == own {
        return Some(Given::Second);
    }
    let bare = (variable.mark == 0) & all_have(registers, part, first, variable.count);
    bare.then_some(Given::First)
}

// The number of a list, by which a part is stored: 1 for the first, 2 for the second, 0 for none.
pub fn list_number(given: Option<Given>) -> usize
    ensures { result ≡ list_no given }
{
    match given {
        Some(Given::First) => 1,
        Some(Given::Second) => 2,
        None => 0,
    }
}

// A part that is there, from a place of the variables on.
#[tactic(auto, unfolding(crate::specs::Words::written))]
pub fn store_part(variables: &mut [u32], at: usize, trigger: u32, count: usize, pieces: &[u32])
    requires at_bound { at < 2 ^ 32 }
    requires pieces_len_bound { length pieces.now < 2 ^ 32 }
    ensures { variables.new ≡ written variables.old at (1 ∷ trigger ∷ word_of count ∷ pieces.now) }
{
    put(variables, at, 1);
    put(variables, at + 1, trigger);
    put(variables, at + 2, narrow(count));
    store(variables, at + 3, pieces);
}

// The part that a list gives, or zeros. A list is named by its number here, and any other number names none.
#[tactic(auto, unfolding(crate::specs::Lists::part_words))]
pub fn store_given(
    variables: &mut [u32],
    at: usize,
    variable: Variable,
    trigger: u32,
    from: usize,
    first: &[u32],
    second: &[u32],
)
    requires at_bound { at < 2 ^ 32 }
    requires first_len_bound { length first.now < 2 ^ 32 }
    requires second_len_bound { length second.now < 2 ^ 32 }
    ensures { variables.new ≡ written variables.old at (part_words variable first.now second.now trigger from) }
{
    match from {
        1 => store_part(variables, at, trigger, variable.count, first),
        2 => store_part(variables, at, trigger, variable.rest.count, second),
        _ => store(variables, at, &[0; 27]),
    }
}
