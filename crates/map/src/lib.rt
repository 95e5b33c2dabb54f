// The map of an accepted description: its parameters, a row for each eight bits of a register, and its variables.
#![tactic(auto)]

mod described;
mod each;
mod row;
mod summary;

use crate::described::Described;
use crate::row::show_row;
use crate::summary::show_variable;
use details::entries::{Entry, count_of, parameter_width, register_has, same_place};
use details::rows::same_register;
use details::search::{serves_with, telling};
use rules::Judging;
use rules::names::name_of;
use std::io;
use tables::Part;
use wording::parts::{show_offsets, show_place};
use wording::write::{fill, quoted};

// base        offsets 0..3, 16 bits: of a wider port than the usual one it is said how wide
fn show_parameter(out: &mut impl io::Write, device: Described, i: u32) -> io::Result<()> {
    let width = parameter_width(device.parameters, i);
    let name = Entry::Parameter.name(device.text, device.parameters, i);
    write!(out, "  ")?;
    out.write_all(name)?;
    fill(out, name.len().saturating_add(2), 14)?;
    show_offsets(out, device.parameters, i)?;
    if width != 8 {
        write!(out, ", {width} bits")?;
    }
    writeln!(out)
}

// The same rows serve both parts where they are alike.
fn show_rows(out: &mut impl io::Write, device: Described, i: u32) -> io::Result<()> {
    if same_register(device.registers, device.variables, i) {
        return show_row(out, device, i, Part::Read, "r w");
    }
    if register_has(device.registers, i, Part::Read) {
        show_row(out, device, i, Part::Read, "r  ")?;
    }
    if register_has(device.registers, i, Part::Write) {
        show_row(out, device, i, Part::Write, "  w")?;
    }
    Ok(())
}

// The registers before this one that share its write place, as: , told from `low` by bit 7
fn show_beside(out: &mut impl io::Write, text: &[u8], registers: &[u32], i: u32) -> io::Result<()> {
    for j in 0..i {
        if serves_with(registers, i, Part::Write, j) {
            write!(out, ",\n    told from ")?;
            quoted(out, Entry::Register.name(text, registers, j))?;
            let bit = telling(registers, i, Part::Write, j).unwrap_or(32);
            write!(out, " by bit {bit}")?;
        }
    }
    Ok(())
}

// high: base @ 0
fn show_places(out: &mut impl io::Write, device: Described, i: u32) -> io::Result<()> {
    let Described {
        text,
        parameters,
        registers,
        ..
    } = device;
    let read = register_has(registers, i, Part::Read);
    let write_part = register_has(registers, i, Part::Write);
    out.write_all(Entry::Register.name(text, registers, i))?;
    write!(out, ": ")?;
    if same_place(registers, i) {
        show_place(out, text, parameters, registers, i, Part::Read)?;
    } else {
        if read {
            write!(out, "read ")?;
            show_place(out, text, parameters, registers, i, Part::Read)?;
        }
        if read & write_part {
            write!(out, ", ")?;
        }
        if write_part {
            write!(out, "write ")?;
            show_place(out, text, parameters, registers, i, Part::Write)?;
        }
    }
    if write_part {
        show_beside(out, text, registers, i)?;
    }
    writeln!(out)
}

fn show_parameters(out: &mut impl io::Write, device: Described) -> io::Result<()> {
    for i in 0..count_of(device.parameters) {
        show_parameter(out, device, i)?;
    }
    Ok(())
}

fn show_registers(out: &mut impl io::Write, device: Described) -> io::Result<()> {
    for i in 0..count_of(device.registers) {
        show_places(out, device, i)?;
        show_rows(out, device, i)?;
    }
    Ok(())
}

fn show_variables(out: &mut impl io::Write, device: Described) -> io::Result<()> {
    for v in 0..count_of(device.variables) {
        show_variable(out, device, v)?;
    }
    Ok(())
}

pub fn show_map(
    out: &mut impl io::Write,
    text: &[u8],
    judging: Judging,
    parameters: &[u32],
    registers: &[u32],
    variables: &[u32],
) -> io::Result<()> {
    let device = Described {
        text,
        parameters,
        registers,
        variables,
    };
    write!(out, "\ndevice ")?;
    out.write_all(name_of(text, judging.place, judging.extent))?;
    writeln!(out)?;
    show_parameters(out, device)?;
    writeln!(
        out,
        "\nregisters  7        6        5        4        3        2        1        0"
    )?;
    show_registers(out, device)?;
    if 0 < count_of(variables) {
        writeln!(out, "\nvariables")?;
        show_variables(out, device)?;
    }
    Ok(())
}
