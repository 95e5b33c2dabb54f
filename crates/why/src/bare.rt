// Refusal 16: the dots of a register that no variable maps, and the mask without them.
use details::broken::{first_bare, is_bare};
use details::entries::{Entry, mask_bit, register_width};
use rules::words::narrow;
use std::io;
use tables::Part;
use wording::write::{for_part, say_name, write};

// The bits, highest first, as 7, 3, 0.
fn show_bits(
    out: &mut impl io::Write,
    registers: &[u32],
    variables: &[u32],
    i: u32,
    part: Part,
) -> io::Result<()> {
    let mut separator = " ";
    for b in (0..narrow(register_width(registers, i))).rev() {
        if is_bare(registers, variables, i, part, b) {
            write!(out, "{separator}{b}")?;
            separator = ", ";
        }
    }
    Ok(())
}

// An element of the mask that has `*` where no variable maps a dot. Words 3, 4 and 5 of a part are its dots, what is
// fixed, and its ones.
fn element(registers: &[u32], variables: &[u32], i: u32, part: Part, b: u32) -> char {
    if is_bare(registers, variables, i, part, b) {
        '*'
    } else if mask_bit(registers, i, part, 3, b) {
        '.'
    } else if !mask_bit(registers, i, part, 4, b) {
        '*'
    } else if mask_bit(registers, i, part, 5, b) {
        '1'
    } else {
        '0'
    }
}

// The elements between quotes, highest first.
fn show_mask(
    out: &mut impl io::Write,
    registers: &[u32],
    variables: &[u32],
    i: u32,
    part: Part,
) -> io::Result<()> {
    write!(out, "'")?;
    for b in (0..narrow(register_width(registers, i))).rev() {
        write!(out, "{}", element(registers, variables, i, part, b))?;
    }
    write!(out, "'")
}

// dots of `r` that no variable maps: 7, 3, 0 for reading
// the mask that leaves them out: '*...*..*' for reading
pub fn show_bare(
    out: &mut impl io::Write,
    text: &[u8],
    registers: &[u32],
    variables: &[u32],
    i: u32,
    part: Part,
) -> io::Result<()> {
    if first_bare(registers, variables, i, part).is_some() {
        say_name(
            out,
            b"dots of $ that no variable maps:",
            Entry::Register.name(text, registers, i),
        )?;
        show_bits(out, registers, variables, i, part)?;
        for_part(out, part)?;
        write!(out, "the mask that leaves them out: ")?;
        show_mask(out, registers, variables, i, part)?;
        for_part(out, part)?;
    }
    Ok(())
}
