// Where the fault lies in a declaration that breaks rule 9, 11, 12 or 13: document 01 gives the declaration's name, and
// a second caret stands here.
use crate::sought::{nth_of_kind, nth_sought};
use details::entries::{Entry, piece_count, variable_has};
use details::places::opening;
use rules::modifiers::are_paired;
use syntax::kinds::{COLON, NUMBER, OPEN_BRACKET, READ, TRIGGER, VOLATILE, WRITE};
use syntax::{Masks, Register};
use tables::Part;
use token::Token;
use why::is_faulty;
use wording::parts::last;

// A mask of another length than the register's width, or the last of those that are too many.
fn mask_place(text: &[u8], place: usize, masks: Masks, width: u32) -> Option<usize> {
    let width = width as usize;
    if masks.odd || masks.is_masked() && masks.extent != width {
        return nth_sought(text, place, 1, |token, _| {
            matches!(token, Token::Bits(_, length) if length != width)
        });
    }
    Some(if 1 < masks.bare {
        masks.whole
    } else {
        masks.reading.max(masks.writing)
    })
}

// 9: the second of two ports that do not pair, or a mask.
fn register_fault(text: &[u8], place: usize, register: Register) -> Option<usize> {
    if are_paired(!register.two, register.first.mark, register.second.mark) {
        mask_place(text, place, register.masks, register.width)
    } else {
        Some(register.second.place)
    }
}

// Where the kth piece of a list stands: the reading lays five numbers for each.
fn piece_place(list: &[usize], k: u32) -> Option<usize> {
    list.get(5 * k as usize).copied()
}

// 11: the first piece of a part with which something is wrong, in the list that gives the part.
fn part_fault(registers: &[u32], variables: &[u32], part: Part, list: &[usize]) -> Option<usize> {
    let v = last(variables);
    let k = (0..piece_count(variables, v, part)).find(|&k| is_faulty(
        registers, variables, v, part, k,
    ))?;
    piece_place(list, k)
}

// 11: a piece, or the second of two lists that do not pair. A list for one part has its number as modifier.
fn list_fault(text: &[u8], registers: &[u32], variables: &[u32], place: usize) -> Option<usize> {
    let mut first = [0usize; 40];
    let mut second = [0usize; 40];
    let open = opening(text, place).unwrap_or(text.len());
    let variable = syntax::variable_after(text, Ok(open), &mut first, &mut second);
    let rest = variable.rest;
    let two = 0 < rest.count;
    if Entry::Variable.place(variables, last(variables)) != place {
        return two.then_some(second[0]);
    }
    let read = if two && rest.mark == 1 {
        &second
    } else {
        &first
    };
    let write = if two && rest.mark == 2 {
        &second
    } else {
        &first
    };
    part_fault(registers, variables, Part::Read, read).or(part_fault(
        registers,
        variables,
        Part::Write,
        write,
    ))
}

// 12: a variable's type, or the width of a register or a parameter.
fn width_fault(text: &[u8], variables: &[u32], place: usize) -> Option<usize> {
    if Entry::Variable.place(variables, last(variables)) == place {
        nth_sought(text, place, 1, |_, before| before == Some(COLON))
    } else {
        nth_sought(text, place, 1, |token, before| {
            token.kind() == NUMBER && before == Some(OPEN_BRACKET)
        })
    }
}

// A trigger of a part that is the second, or for bits that are not there.
fn trigger_fault(
    text: &[u8],
    place: usize,
    present: bool,
    own: u8,
    bare: u8,
    word: u16,
) -> Option<usize> {
    if present && 1 < u32::from(own) + u32::from(bare) {
        nth_of_kind(text, place, 2, TRIGGER)
    } else if !present && 0 < own {
        nth_sought(text, place, 1, |token, before| {
            token.kind() == TRIGGER && before == Some(word)
        })
    } else {
        None
    }
}

// 13: an attribute that is repeated, or for a part that is not there.
fn attribute_fault(text: &[u8], variables: &[u32], place: usize) -> Option<usize> {
    let mut first = [0usize; 40];
    let mut second = [0usize; 40];
    let open = opening(text, place).unwrap_or(text.len());
    let variable = syntax::variable_after(text, Ok(open), &mut first, &mut second);
    let b = variable.rest.behaviours;
    let v = last(variables);
    let reads = variable_has(variables, v, Part::Read);
    let writes = variable_has(variables, v, Part::Write);
    if 1 < b.volatile {
        nth_of_kind(text, place, 2, VOLATILE)
    } else if !reads && 0 < b.volatile {
        nth_of_kind(text, place, 1, VOLATILE)
    } else {
        trigger_fault(text, place, reads, b.read, b.bare, READ).or(trigger_fault(
            text, place, writes, b.write, b.bare, WRITE,
        ))
    }
}

pub fn fault_place(
    text: &[u8],
    registers: &[u32],
    variables: &[u32],
    rule: u32,
    place: usize,
) -> Option<usize> {
    match rule {
        9 => {
            let open = opening(text, place).unwrap_or(text.len());
            register_fault(text, place, syntax::register_after(text, Ok(open)))
        }
        11 => list_fault(text, registers, variables, place),
        12 => width_fault(text, variables, place),
        13 => attribute_fault(text, variables, place),
        _ => None,
    }
}
