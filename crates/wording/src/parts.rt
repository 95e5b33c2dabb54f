// Parameters, registers and their places, by name.
use crate::write::quoted;
pub use details::entries::Entry;
use details::entries::{
    count_of, range_count, range_high, range_low, register_width, register_word,
};
use rules::words::narrow;
use std::io;
use tables::Part;

// The entry that was written last.
pub fn last(table: &[u32]) -> u32 {
    count_of(table).saturating_sub(1)
}

// 3..0, or 3 alone
fn show_ends(out: &mut impl io::Write, first: usize, last: usize) -> io::Result<()> {
    write!(out, "{first}")?;
    if first != last {
        write!(out, "..{last}")?;
    }
    Ok(())
}

// [3..0]
pub fn show_bracket(out: &mut impl io::Write, first: usize, last: usize) -> io::Result<()> {
    write!(out, "[")?;
    show_ends(out, first, last)?;
    write!(out, "]")
}

// 0..3
pub fn show_range(out: &mut impl io::Write, parameters: &[u32], i: u32, k: u32) -> io::Result<()> {
    show_ends(
        out,
        range_low(parameters, i, k),
        range_high(parameters, i, k),
    )
}

// What parts range k from the one before it: there are five ranges to a line.
fn separator(k: u32) -> &'static str {
    if k == 0 {
        ""
    } else if k % 5 == 0 {
        ",\n                      "
    } else {
        ", "
    }
}

// offsets 0..3, 8; or offset 0, where there is but one
pub fn show_offsets(out: &mut impl io::Write, parameters: &[u32], i: u32) -> io::Result<()> {
    let n = range_count(parameters, i);
    if (n == 1) & (range_low(parameters, i, 0) == range_high(parameters, i, 0)) {
        write!(out, "offset ")?;
    } else {
        write!(out, "offsets ")?;
    }
    for k in 0..n {
        write!(out, "{}", separator(k))?;
        show_range(out, parameters, i, k)?;
    }
    Ok(())
}

// The highest bit that a register has.
pub fn top_bit(registers: &[u32], i: u32) -> usize {
    register_width(registers, i).saturating_sub(1)
}

// The parameter of a register's part.
pub fn port_of(registers: &[u32], i: u32, part: Part) -> u32 {
    narrow(register_word(registers, i, part, 1))
}

// base @ 0
pub fn show_place(
    out: &mut impl io::Write,
    text: &[u8],
    parameters: &[u32],
    registers: &[u32],
    i: u32,
    part: Part,
) -> io::Result<()> {
    let port = port_of(registers, i, part);
    out.write_all(Entry::Parameter.name(text, parameters, port))?;
    write!(out, " @ {}", register_word(registers, i, part, 2))
}

// bit 3 of `status`, by the bit's number
pub fn show_bit(
    out: &mut impl io::Write,
    text: &[u8],
    registers: &[u32],
    bit: usize,
) -> io::Result<()> {
    write!(out, "bit {} of ", bit % 64)?;
    quoted(out, Entry::Register.name(text, registers, narrow(bit / 64)))
}
