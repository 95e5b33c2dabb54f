// Refusals 8, 9 and 10: offsets, ports and masks, and places that are taken.
use details::entries::{Entry, mask_bit, range_count, register_has};
use details::places::opening;
use details::search::{clashing, could_tell, misfit, telling};
use expression::Worth;
use rules::modifiers::are_paired;
use rules::names::{find, name_of};
use rules::words::narrow;
use std::io;
use syntax::{Masks, Port, Register};
use tables::Part;
use tables::parameters::offset_in;
use wording::parts::{last, show_offsets, show_place, show_range};
use wording::write::{for_part, say, say_name};

fn show_misfit(out: &mut impl io::Write, text: &[u8], parameters: &[u32]) -> io::Result<()> {
    let i = last(parameters);
    let k = misfit(parameters, i).unwrap_or(range_count(parameters, i));
    write!(out, "the range ")?;
    show_range(out, parameters, i, k)?;
    say_name(
        out,
        b" of $ goes down, or past 255\n",
        Entry::Parameter.name(text, parameters, i),
    )
}

// The parameter that a port names.
fn port_parameter(text: &[u8], parameters: &[u32], port: Port) -> u32 {
    let name = name_of(text, port.place, port.length);
    narrow(find(text, parameters, 36, name).unwrap_or(0))
}

fn is_placed(text: &[u8], parameters: &[u32], port: Port) -> bool {
    let i = port_parameter(text, parameters, port);
    port.worth
        .and_then(|n| usize::try_from(n).ok())
        .is_some_and(|n| offset_in(parameters, i as usize, n))
}

fn show_worth(out: &mut impl io::Write, worth: Worth) -> io::Result<()> {
    match worth {
        Some(n @ 0..) => write!(out, "the offset is {n}"),
        Some(_) => write!(out, "the offset is below 0"),
        None => write!(
            out,
            "the offset divides by zero, or leaves the range of 32 bits"
        ),
    }
}

// the offset is 4; `base` has the offsets 0..3
fn show_unplaced(
    out: &mut impl io::Write,
    text: &[u8],
    parameters: &[u32],
    port: Port,
) -> io::Result<()> {
    let i = port_parameter(text, parameters, port);
    show_worth(out, port.worth)?;
    say_name(
        out,
        b"; $ has the ",
        Entry::Parameter.name(text, parameters, i),
    )?;
    show_offsets(out, parameters, i)?;
    writeln!(out)
}

fn show_offset(
    out: &mut impl io::Write,
    text: &[u8],
    parameters: &[u32],
    register: Register,
) -> io::Result<()> {
    let port = if is_placed(text, parameters, register.first) {
        register.second
    } else {
        register.first
    };
    show_unplaced(out, text, parameters, port)
}

fn show_masks(out: &mut impl io::Write, masks: Masks, width: u32) -> io::Result<()> {
    if masks.odd || masks.is_masked() && masks.extent != width as usize {
        writeln!(out, "a mask has another number of elements than {width}")
    } else if 1 < masks.bare {
        writeln!(out, "two masks without `read` or `write`")
    } else {
        writeln!(
            out,
            "a part has two masks, or a mask is for a part that the register has not"
        )
    }
}

fn show_pairing(out: &mut impl io::Write, register: Register) -> io::Result<()> {
    if are_paired(!register.two, register.first.mark, register.second.mark) {
        show_masks(out, register.masks, register.width)
    } else {
        writeln!(
            out,
            "of two ports, one is for `read` and the other for `write`"
        )
    }
}

// .. `low` had `0` there
fn show_wanted(
    out: &mut impl io::Write,
    text: &[u8],
    registers: &[u32],
    i: u32,
    one: bool,
) -> io::Result<()> {
    let name = Entry::Register.name(text, registers, i);
    let bit = usize::from(!one);
    say(out, b"$ had `#` there", bit, name, b"")
}

// A bit that is fixed in one mask and `*` in the other would do.
fn show_chance(
    out: &mut impl io::Write,
    text: &[u8],
    registers: &[u32],
    i: u32,
    part: Part,
    j: u32,
) -> io::Result<()> {
    if let Some(b) = could_tell(registers, i, part, j) {
        write!(out, "; bit {b} would tell them apart if ")?;
        if mask_bit(registers, i, part, 4, b) {
            show_wanted(out, text, registers, j, mask_bit(registers, i, part, 5, b))?;
        } else {
            show_wanted(out, text, registers, i, mask_bit(registers, j, part, 5, b))?;
        }
    }
    Ok(())
}

// Write parts may share a place where a bit tells them apart; of read parts it is said that this does not help.
fn show_apart(
    out: &mut impl io::Write,
    text: &[u8],
    registers: &[u32],
    i: u32,
    part: Part,
    j: u32,
) -> io::Result<()> {
    if let Some(b) = telling(registers, i, part, j) {
        writeln!(
            out,
            "bit {b} tells their masks apart, but a place is shared for writing only"
        )?;
    } else if part == Part::Write {
        write!(out, "no bit is fixed 0 in one mask and 1 in the other")?;
        show_chance(out, text, registers, i, part, j)?;
        writeln!(out)?;
    }
    Ok(())
}

// base @ 0 serves `high` already for reading
fn show_served(
    out: &mut impl io::Write,
    text: &[u8],
    parameters: &[u32],
    registers: &[u32],
    part: Part,
) -> io::Result<()> {
    let i = last(registers);
    if register_has(registers, i, part)
        && let Some(j) = clashing(registers, i, part)
    {
        show_place(out, text, parameters, registers, i, part)?;
        say_name(
            out,
            b" serves $ already",
            Entry::Register.name(text, registers, j),
        )?;
        for_part(out, part)?;
        show_apart(out, text, registers, i, part, j)?;
    }
    Ok(())
}

pub fn show_ports(
    out: &mut impl io::Write,
    text: &[u8],
    parameters: &[u32],
    registers: &[u32],
    rule: u32,
    place: usize,
) -> io::Result<()> {
    if rule == 10 {
        show_served(out, text, parameters, registers, Part::Read)?;
        return show_served(out, text, parameters, registers, Part::Write);
    }
    let Some(open) = opening(text, place) else {
        return show_misfit(out, text, parameters);
    };
    let register = syntax::register_after(text, Ok(open));
    if rule == 8 {
        show_offset(out, text, parameters, register)
    } else {
        show_pairing(out, register)
    }
}
