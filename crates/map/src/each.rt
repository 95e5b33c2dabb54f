// The pieces of a variable's part, one after the other: the bits of each, or its access.
use crate::described::Described;
use details::entries::{Entry, piece_count, piece_of};
use details::holders::mentioned_before;
use rules::words::narrow;
use std::io;
use tables::Part;
use wording::parts::{port_of, show_bracket, show_place, top_bit};

// Would the pieces, or the places of their registers, pass the width of a line?
fn is_wide(device: Described, v: u32, part: Part) -> bool {
    let mut bits_room: usize = 73;
    let mut place_room: usize = 73;
    for k in 0..piece_count(device.variables, v, part) {
        let i = narrow(piece_of(device.variables, v, part, k).register);
        let name = Entry::Register.name(device.text, device.registers, i);
        let port = port_of(device.registers, i, part);
        let port_name = Entry::Parameter.name(device.text, device.parameters, port);
        bits_room = bits_room.saturating_sub(9).saturating_sub(name.len());
        place_room = place_room
            .saturating_sub(11)
            .saturating_sub(port_name.len());
    }
    (bits_room == 0) | (place_room == 0)
}

// What parts a piece from the one before it: the list goes on in the line, or in the next one where it is wide.
fn gap(device: Described, v: u32, part: Part) -> &'static str {
    if is_wide(device, v, part) {
        "\n       "
    } else {
        " "
    }
}

// high[3..0] # low, where high is not whole and low is
pub fn show_bits(
    out: &mut impl io::Write,
    device: Described,
    v: u32,
    part: Part,
) -> io::Result<()> {
    for k in 0..piece_count(device.variables, v, part) {
        let piece = piece_of(device.variables, v, part, k);
        let i = narrow(piece.register);
        if 0 < k {
            write!(out, " #{}", gap(device, v, part))?;
        }
        out.write_all(Entry::Register.name(device.text, device.registers, i))?;
        if (piece.high != top_bit(device.registers, i)) | (0 < piece.low) {
            show_bracket(out, piece.high, piece.low)?;
        }
    }
    Ok(())
}

// base @ 0, then base @ 1: each register once, in order of first mention
pub fn show_accesses(
    out: &mut impl io::Write,
    device: Described,
    v: u32,
    part: Part,
) -> io::Result<()> {
    for k in 0..piece_count(device.variables, v, part) {
        if !mentioned_before(device.variables, v, part, k) {
            let i = narrow(piece_of(device.variables, v, part, k).register);
            if 0 < k {
                write!(out, ", then{}", gap(device, v, part))?;
            }
            show_place(
                out,
                device.text,
                device.parameters,
                device.registers,
                i,
                part,
            )?;
        }
    }
    Ok(())
}
