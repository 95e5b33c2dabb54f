// The variables: type, range, bits and accesses of each part, and what is special about it.
use crate::described::Described;
use crate::each::{show_accesses, show_bits};
use details::entries::{
    Entry, piece_count, same_parts, variable_has, variable_kind, variable_volatile, variable_width,
};
use details::holders::pulls_trigger;
use details::ranges::{depth_of, greatest_of};
use std::io;
use tables::Part;
use wording::write::fill;

fn show_type(out: &mut impl io::Write, kind: usize, width: usize) -> io::Result<()> {
    match kind {
        2 => write!(out, "bool"),
        1 => write!(out, "signed int({width})"),
        _ => write!(out, "int({width})"),
    }
}

// 0..4095, or -2048..2047: the least value and the greatest
fn show_values(out: &mut impl io::Write, kind: usize, width: usize) -> io::Result<()> {
    if 0 < width && width <= 32 {
        if kind == 1 {
            write!(out, "-")?;
        }
        let depth = depth_of(kind, width);
        write!(out, "{depth}..{}", greatest_of(kind, width))?;
    }
    Ok(())
}

// `volatile` belongs to reading.
fn show_attributes(
    out: &mut impl io::Write,
    variables: &[u32],
    v: u32,
    part: Part,
) -> io::Result<()> {
    if (part == Part::Read) & variable_volatile(variables, v) {
        write!(out, ", volatile")?;
    }
    if pulls_trigger(variables, part, v) {
        write!(out, ", trigger")?;
    }
    Ok(())
}

// The part, its bits, its accesses and its attributes. The accesses of a list stand under it, those of a single piece
// beside it.
fn show_part(
    out: &mut impl io::Write,
    device: Described,
    v: u32,
    part: Part,
    label: &str,
) -> io::Result<()> {
    write!(out, "{label}")?;
    show_bits(out, device, v, part)?;
    if 1 < piece_count(device.variables, v, part) {
        write!(out, "\n       (")?;
    } else {
        write!(out, " (")?;
    }
    show_accesses(out, device, v, part)?;
    write!(out, ")")?;
    show_attributes(out, device.variables, v, part)?;
    writeln!(out)
}

// One line where both parts are alike, otherwise a line for each part that is there.
fn show_parts(out: &mut impl io::Write, device: Described, v: u32) -> io::Result<()> {
    if same_parts(device.variables, v) {
        return show_part(out, device, v, Part::Read, "  r w  ");
    }
    if variable_has(device.variables, v, Part::Read) {
        show_part(out, device, v, Part::Read, "  r    ")?;
    }
    if variable_has(device.variables, v, Part::Write) {
        show_part(out, device, v, Part::Write, "    w  ")?;
    }
    Ok(())
}

pub fn show_variable(out: &mut impl io::Write, device: Described, v: u32) -> io::Result<()> {
    let kind = variable_kind(device.variables, v);
    let width = variable_width(device.variables, v);
    let name = Entry::Variable.name(device.text, device.variables, v);
    out.write_all(name)?;
    fill(out, name.len(), 32)?;
    show_type(out, kind, width)?;
    write!(out, ", ")?;
    show_values(out, kind, width)?;
    writeln!(out)?;
    show_parts(out, device, v)
}
