// A register's part as rows of eight cells, the highest bits first: the variable that holds a run of bits, and which of
// its bits they are, or what the mask says of a bit.
ghost use Rattle.std.specs.Prelude.{◌≤◌};

use crate::described::Described;
use details::entries::{Entry, mask_bit, register_width, variable_width};
use details::rows::{holder_of, run_below, weight_of};
use rules::names::name_of;
use rules::words::narrow;
use std::io;
use tables::Part;
use wording::parts::show_bracket;
use wording::write::blanks;

// A weight and two signs beside it: how wide they are. A variable has at most 32 bits.
fn weight_columns(weight: usize) -> usize
    ensures { result ≤ 4 }
{
    if weight < 10 { 3 } else { 4 }
}

// How wide `show_bracket` writes the bits of a variable that a cell holds, as [11..8].
fn weights_columns(high: usize, low: usize) -> usize {
    let one = weight_columns(high);
    if low == high {
        return one;
    }
    one + weight_columns(low)
}

// A name in so many columns, cut where it is longer; how many it takes.
fn show_label(out: &mut impl io::Write, name: &[u8], columns: usize) -> io::Result<usize> {
    if name.len() < columns {
        write!(out, " ")?;
        out.write_all(name)?;
        return Ok(name.len() + 1);
    }
    if name.len() == columns {
        out.write_all(name)?;
    } else if 0 < columns {
        out.write_all(name_of(name, 0, columns - 1))?;
        write!(out, "~")?;
    }
    Ok(columns)
}

// A name, and which of its bits are here, unless all are.
fn show_cell(
    out: &mut impl io::Write,
    name: &[u8],
    whole: bool,
    high: usize,
    low: usize,
    columns: usize,
) -> io::Result<()> {
    let weights = if whole { 0 } else { weights_columns(high, low) };
    let used = show_label(out, name, columns.saturating_sub(weights))?;
    if !whole {
        show_bracket(out, high, low)?;
    }
    blanks(out, columns.saturating_sub(used).saturating_sub(weights))?;
    write!(out, "|")
}

// A bit that no variable holds: `0`, `1` or `*`.
fn show_fixed(
    out: &mut impl io::Write,
    registers: &[u32],
    i: u32,
    part: Part,
    b: u32,
) -> io::Result<()> {
    if mask_bit(registers, i, part, 5, b) {
        write!(out, "    1   |")
    } else if mask_bit(registers, i, part, 4, b) {
        write!(out, "    0   |")
    } else {
        write!(out, "    *   |")
    }
}

// Eight columns for a bit, and one for each bar inside: a row fits in 80.
fn cell_columns(run: u32) -> usize {
    (9 * (run as usize)).saturating_sub(1)
}

// The cell of variable v whose highest bit is below `left`; how many bits it takes, down to the row's lowest.
fn show_held(
    out: &mut impl io::Write,
    device: Described,
    v: u32,
    i: u32,
    part: Part,
    left: u32,
    lowest: u32,
) -> io::Result<u32> {
    let variables = device.variables;
    let run = run_below(variables, i, part, left).min(left.saturating_sub(lowest));
    let high = weight_of(variables, part, i, left.saturating_sub(1));
    let low = weight_of(variables, part, i, left.saturating_sub(run));
    let whole = run as usize == variable_width(variables, v);
    let name = Entry::Variable.name(device.text, variables, v);
    show_cell(out, name, whole, high, low, cell_columns(run))?;
    Ok(run)
}

// The cell whose highest bit is below `left`; how many bits it takes.
fn show_next(
    out: &mut impl io::Write,
    device: Described,
    i: u32,
    part: Part,
    left: u32,
    lowest: u32,
) -> io::Result<u32> {
    let top = left.saturating_sub(1);
    match holder_of(device.variables, part, i, top) {
        Some(v) => show_held(out, device, v, i, part, left, lowest),
        None => {
            show_fixed(out, device.registers, i, part, top)?;
            Ok(1)
        }
    }
}

//   r w |, or r w +8| where a bit's number is that of its column and 8 more
fn show_head(out: &mut impl io::Write, marks: &str, lowest: u32) -> io::Result<()> {
    if lowest == 0 {
        write!(out, "  {marks} |")
    } else if lowest < 10 {
        write!(out, "{marks} +{lowest}|")
    } else {
        write!(out, "{marks}+{lowest}|")
    }
}

// The cells of the row that ends below `left`. Each turn shows a run of bits, which says how many it takes.
fn show_cells(
    out: &mut impl io::Write,
    device: Described,
    i: u32,
    part: Part,
    left: u32,
    lowest: u32,
) -> io::Result<()> {
    let mut here = left;
    while lowest < here {
        let run = show_next(out, device, i, part, here, lowest)?;
        here = here.saturating_sub(run.max(1));
    }
    writeln!(out)
}

pub fn show_row(
    out: &mut impl io::Write,
    device: Described,
    i: u32,
    part: Part,
    marks: &str,
) -> io::Result<()> {
    let width = narrow(register_width(device.registers, i));
    for row in (0..width.div_ceil(8)).rev() {
        let lowest = 8 * row;
        show_head(out, marks, lowest)?;
        show_cells(
            out,
            device,
            i,
            part,
            width.min(lowest.saturating_add(8)),
            lowest,
        )?;
    }
    Ok(())
}
