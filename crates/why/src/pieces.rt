// Refusal 11: the piece that cannot be, or the lists that do not pair.
use details::entries::{Entry, piece_count, piece_of, register_has, variable_part};
use details::places::opening;
use details::search::{overlapping, undotted};
use rules::words::narrow;
use std::io;
use tables::pieces::bit_count;
use tables::{Part, Piece};
use wording::parts::{last, show_bit, show_bracket, top_bit};
use wording::write::{for_part, quoted, say_name};

fn show_many(out: &mut impl io::Write, variables: &[u32], v: u32, part: Part) -> io::Result<()> {
    let at = variable_part(v, part);
    if at < 4294967296 {
        let bits = bit_count(variables, at);
        if 32 < bits {
            write!(out, "{bits} bits")?;
            for_part(out, part)?;
        }
    }
    Ok(())
}

// No list gives a part: a bad pairing, or registers that have no part in common.
fn show_lists(out: &mut impl io::Write, text: &[u8], place: usize) -> io::Result<()> {
    // The reading lays five numbers for each of at most 8 pieces into a list that it is lent.
    let mut first = [0usize; 40];
    let mut second = [0usize; 40];
    let open = opening(text, place).unwrap_or(text.len());
    let variable = syntax::variable_after(text, Ok(open), &mut first, &mut second);
    if variable.rest.count == 0 {
        writeln!(out, "its registers have no part in common")
    } else {
        writeln!(
            out,
            "of two bit lists, one is for `read` and the other for `write`"
        )
    }
}

// `r`[9..0]
fn show_piece(
    out: &mut impl io::Write,
    text: &[u8],
    registers: &[u32],
    piece: Piece,
) -> io::Result<()> {
    let i = narrow(piece.register);
    quoted(out, Entry::Register.name(text, registers, i))?;
    show_bracket(out, piece.high, piece.low)
}

// A range inside a register: the part may be missing, or a bit of it no dot.
fn show_inside(
    out: &mut impl io::Write,
    text: &[u8],
    registers: &[u32],
    part: Part,
    piece: Piece,
) -> io::Result<()> {
    let i = narrow(piece.register);
    if !register_has(registers, i, part) {
        say_name(
            out,
            b"$ has no part",
            Entry::Register.name(text, registers, i),
        )?;
        return for_part(out, part);
    }
    if let Some(b) = undotted(registers, i, part, piece.low, piece.high) {
        show_bit(out, text, registers, 64 * (i as usize) + b as usize)?;
        write!(out, " is no dot of its mask")?;
        for_part(out, part)?;
    }
    Ok(())
}

// What is wrong with a piece by itself.
#[derive(Clone, Copy, PartialEq, Eq)]
enum Shape {
    Past,
    Rising,
    Twice,
}

fn shape_of(registers: &[u32], variables: &[u32], v: u32, part: Part, k: u32) -> Option<Shape> {
    let piece = piece_of(variables, v, part, k);
    let top = top_bit(registers, narrow(piece.register));
    if top < piece.high || top < piece.low {
        Some(Shape::Past)
    } else if piece.high < piece.low {
        Some(Shape::Rising)
    } else if overlapping(variables, v, part, k).is_some() {
        Some(Shape::Twice)
    } else {
        None
    }
}

// Is something wrong with piece k of a part?
pub fn is_faulty(registers: &[u32], variables: &[u32], v: u32, part: Part, k: u32) -> bool {
    let piece = piece_of(variables, v, part, k);
    let i = narrow(piece.register);
    shape_of(registers, variables, v, part, k).is_some()
        || !register_has(registers, i, part)
        || undotted(registers, i, part, piece.low, piece.high).is_some()
}

fn show_fault(
    out: &mut impl io::Write,
    text: &[u8],
    registers: &[u32],
    variables: &[u32],
    v: u32,
    part: Part,
    k: u32,
) -> io::Result<()> {
    let piece = piece_of(variables, v, part, k);
    let Some(shape) = shape_of(registers, variables, v, part, k) else {
        return show_inside(out, text, registers, part, piece);
    };
    show_piece(out, text, registers, piece)?;
    match shape {
        Shape::Past => {
            let top = top_bit(registers, narrow(piece.register));
            write!(out, " goes past bit {top}")?;
        }
        Shape::Rising => write!(out, " rises instead of going down")?,
        Shape::Twice => write!(out, " has a bit that is listed before")?,
    }
    for_part(out, part)
}

// What is wrong with each piece of a part.
fn show_faults(
    out: &mut impl io::Write,
    text: &[u8],
    registers: &[u32],
    variables: &[u32],
    v: u32,
    part: Part,
) -> io::Result<()> {
    for k in 0..piece_count(variables, v, part) {
        show_fault(out, text, registers, variables, v, part, k)?;
    }
    Ok(())
}

pub fn show_pieces(
    out: &mut impl io::Write,
    text: &[u8],
    registers: &[u32],
    variables: &[u32],
    place: usize,
) -> io::Result<()> {
    let v = last(variables);
    if Entry::Variable.place(variables, v) == place {
        show_faults(out, text, registers, variables, v, Part::Read)?;
        show_faults(out, text, registers, variables, v, Part::Write)?;
        show_many(out, variables, v, Part::Read)?;
        show_many(out, variables, v, Part::Write)
    } else {
        show_lists(out, text, place)
    }
}
