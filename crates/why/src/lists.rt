// Refusals 11 to 16: bits, by the names of their registers and variables.
use crate::attributes::show_attributes;
use crate::bare::show_bare;
use crate::pieces::show_pieces;
use details::broken::{shared_bit, shared_register};
use details::entries::{
    Entry, count_of, parameter_width, register_has, register_width, variable_has, variable_part,
    variable_width,
};
use details::holders::pulls_trigger;
use details::search::named_at;
use rules::words::narrow;
use std::io;
use tables::Part;
use tables::pieces::bit_count;
use wording::parts::{last, port_of, show_bit};
use wording::write::{for_part, say, say_name};

// 14: bit 4 of `r` is mapped already by `v` for reading
fn show_taken(
    out: &mut impl io::Write,
    text: &[u8],
    registers: &[u32],
    variables: &[u32],
    part: Part,
) -> io::Result<()> {
    if let Some((bit, u)) = shared_bit(variables, last(variables), part) {
        show_bit(out, text, registers, bit)?;
        say_name(
            out,
            b" is mapped already by $",
            Entry::Variable.name(text, variables, u),
        )?;
        for_part(out, part)?;
    }
    Ok(())
}

fn show_puller(
    out: &mut impl io::Write,
    text: &[u8],
    variables: &[u32],
    v: u32,
    part: Part,
) -> io::Result<()> {
    say_name(out, b" of $", Entry::Variable.name(text, variables, v))?;
    if pulls_trigger(variables, part, v) {
        write!(out, " (a trigger)")?;
    }
    Ok(())
}

// 15: `r` holds bits of `v` (a trigger) and of `w` for reading
fn show_pulled(
    out: &mut impl io::Write,
    text: &[u8],
    registers: &[u32],
    variables: &[u32],
    part: Part,
) -> io::Result<()> {
    let v = last(variables);
    if let Some((register, u)) = shared_register(variables, v, part) {
        say_name(
            out,
            b"$ holds bits",
            Entry::Register.name(text, registers, narrow(register)),
        )?;
        show_puller(out, text, variables, u, part)?;
        write!(out, " and")?;
        show_puller(out, text, variables, v, part)?;
        for_part(out, part)?;
    }
    Ok(())
}

fn show_width(out: &mut impl io::Write, width: usize) -> io::Result<()> {
    writeln!(
        out,
        "its width is {width}, and only 8, 16 and 32 are allowed"
    )
}

// Has register i this part, at a port of another width?
fn is_unlike(parameters: &[u32], registers: &[u32], i: u32, part: Part) -> bool {
    let port = parameter_width(parameters, port_of(registers, i, part));
    register_has(registers, i, part) && port != register_width(registers, i)
}

// its width is 8, and that of its port `base` is 16
fn show_unlike(
    out: &mut impl io::Write,
    text: &[u8],
    parameters: &[u32],
    registers: &[u32],
    i: u32,
    part: Part,
) -> io::Result<()> {
    let port = port_of(registers, i, part);
    let name = Entry::Parameter.name(text, parameters, port);
    say(
        out,
        b"its width is #, and that of its port $",
        register_width(registers, i),
        name,
        b"",
    )?;
    writeln!(out, " is {}", parameter_width(parameters, port))
}

fn show_register(
    out: &mut impl io::Write,
    text: &[u8],
    parameters: &[u32],
    registers: &[u32],
    i: u32,
) -> io::Result<()> {
    let width = register_width(registers, i);
    if !bits::is_width(width) {
        show_width(out, width)
    } else if is_unlike(parameters, registers, i, Part::Read) {
        show_unlike(out, text, parameters, registers, i, Part::Read)
    } else {
        show_unlike(out, text, parameters, registers, i, Part::Write)
    }
}

// ; of its read part: 12
fn show_bits_of(out: &mut impl io::Write, variables: &[u32], v: u32, part: Part) -> io::Result<()> {
    let at = variable_part(v, part);
    if at < 4294967296 && variable_has(variables, v, part) {
        let name = match part {
            Part::Read => "read",
            Part::Write => "write",
        };
        write!(out, "; of its {name} part: {}", bit_count(variables, at))?;
    }
    Ok(())
}

fn show_type(out: &mut impl io::Write, variables: &[u32], v: u32) -> io::Result<()> {
    write!(out, "bits of its type: {}", variable_width(variables, v))?;
    show_bits_of(out, variables, v, Part::Read)?;
    show_bits_of(out, variables, v, Part::Write)?;
    writeln!(out)
}

// 12: a variable, a register or a parameter, whichever is declared there.
fn show_widths(
    out: &mut impl io::Write,
    text: &[u8],
    parameters: &[u32],
    registers: &[u32],
    variables: &[u32],
    place: usize,
) -> io::Result<()> {
    let v = last(variables);
    let i = last(registers);
    if Entry::Variable.place(variables, v) == place {
        show_type(out, variables, v)
    } else if Entry::Register.place(registers, i) == place {
        show_register(out, text, parameters, registers, i)
    } else {
        show_width(out, parameter_width(parameters, last(parameters)))
    }
}

fn show_late(
    out: &mut impl io::Write,
    text: &[u8],
    registers: &[u32],
    variables: &[u32],
    rule: u32,
    place: usize,
) -> io::Result<()> {
    match rule {
        14 => {
            show_taken(out, text, registers, variables, Part::Read)?;
            show_taken(out, text, registers, variables, Part::Write)
        }
        15 => {
            show_pulled(out, text, registers, variables, Part::Read)?;
            show_pulled(out, text, registers, variables, Part::Write)
        }
        _ => {
            let i = named_at(registers, place).unwrap_or(count_of(registers));
            show_bare(out, text, registers, variables, i, Part::Read)?;
            show_bare(out, text, registers, variables, i, Part::Write)
        }
    }
}

pub fn show_lists(
    out: &mut impl io::Write,
    text: &[u8],
    parameters: &[u32],
    registers: &[u32],
    variables: &[u32],
    rule: u32,
    place: usize,
) -> io::Result<()> {
    match rule {
        11 => show_pieces(out, text, registers, variables, place),
        12 => show_widths(out, text, parameters, registers, variables, place),
        13 => show_attributes(out, text, variables, place),
        _ => show_late(out, text, registers, variables, rule, place),
    }
}
