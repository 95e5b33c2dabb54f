// The lines that are written.
use crate::session::{ALL, Description, Reply, Session, lent};
use calibrated::InUnits;
use station::{Access, Answer, Operation};
use std::io;
use tables::Part;
use tables::words::word;

// A number of a register as hexadecimal digits: two for every eight bits of its width. They are written at once, as
// standard output has no buffer, and `{:02X}` writes the zeros in front on their own.
fn show_hex(out: &mut impl io::Write, number: u32, width: usize) -> io::Result<()> {
    let digits = script::digits_of(u64::from(number));
    match width {
        ..=8 => out.write_all(&digits[14..]),
        9..=16 => out.write_all(&digits[12..]),
        _ => out.write_all(&digits[8..]),
    }
}

// The width of a parameter, which its registers have too. There are at most 16.
fn port_width(parameters: &[u32], parameter: usize) -> usize {
    if parameter < 16 {
        word(parameters, 36 * parameter + 1 + 2)
    } else {
        0
    }
}

// The width of a register. There are at most 64.
fn register_width(registers: &[u32], register: usize) -> usize {
    if register < 64 {
        word(registers, 15 * register + 1 + 2)
    } else {
        0
    }
}

fn access(out: &mut impl io::Write, offered: Access, parameters: &[u32]) -> io::Result<()> {
    let Access {
        parameter,
        offset,
        ..
    } = offered;
    match offered.direction {
        Part::Read => write!(out, "offer read {parameter} {offset} 0x")?,
        Part::Write => write!(out, "offer write {parameter} {offset} 0x")?,
    }
    show_hex(out, offered.byte, port_width(parameters, parameter))
}

fn answer(out: &mut impl io::Write, given: Answer, parameters: &[u32]) -> io::Result<()> {
    match given {
        Answer::Offer(offered) => {
            access(out, offered, parameters)?;
            writeln!(out)
        }
        Answer::Done { value, accesses } => writeln!(out, "done {value} {accesses}"),
        Answer::Opened => writeln!(out, "opened"),
        Answer::Abandoned => writeln!(out, "abandoned"),
        Answer::Refused(number) => writeln!(out, "refused {number}"),
        Answer::Stopped { number, register } => writeln!(out, "refused {number} {register}"),
    }
}

fn told(out: &mut impl io::Write, given: InUnits, parameters: &[u32]) -> io::Result<()> {
    match given {
        InUnits::Reading { value, accesses } => {
            out.write_all(b"done ")?;
            out.write_all(&script::digits_of(units::bits_of(value)))?;
            writeln!(out, " {accesses}")
        }
        InUnits::Stopped(number) => writeln!(out, "refused {number}"),
        InUnits::Same(same) => answer(out, same, parameters),
    }
}

fn looked(out: &mut impl io::Write, found: Option<usize>) -> io::Result<()> {
    match found {
        Some(v) => writeln!(out, "variable {v}"),
        None => writeln!(out, "none"),
    }
}

fn operation(out: &mut impl io::Write, held: Operation) -> io::Result<()> {
    match held {
        Operation::Idle => write!(out, " operation idle"),
        Operation::Reading {
            variable,
            step,
            gathered,
        } => write!(out, " operation read {variable} {step} {gathered}"),
        Operation::Writing {
            variable,
            step,
            value,
        } => write!(out, " operation write {variable} {step} {value}"),
    }
}

fn numbers_of(out: &mut impl io::Write, list: &[u32], registers: &[u32]) -> io::Result<()> {
    for (i, &number) in list.iter().enumerate() {
        write!(out, " ")?;
        show_hex(out, number, register_width(registers, i))?;
    }
    Ok(())
}

fn marks_of(out: &mut impl io::Write, list: &[u8]) -> io::Result<()> {
    for mark in list {
        write!(out, " {mark}")?;
    }
    Ok(())
}

// All of the record and the marks, whatever is lent.
fn state(
    out: &mut impl io::Write,
    description: Description,
    kept: &[u32],
    marks: &[u8],
    session: Session,
) -> io::Result<()> {
    let registers = description.registers;
    let variables = description.variables;
    let held = lent(session.opened, ALL, word(registers, 0), kept.len());
    let marked = lent(session.opened, ALL, word(variables, 0), marks.len());
    write!(out, "record")?;
    numbers_of(out, &kept[..held], registers)?;
    write!(out, " marks")?;
    marks_of(out, &marks[..marked])?;
    operation(out, session.operation)?;
    writeln!(out)
}

pub fn reply(
    out: &mut impl io::Write,
    given: Reply,
    description: Description,
    kept: &[u32],
    marks: &[u8],
    session: Session,
) -> io::Result<()> {
    match given {
        Reply::Silence => Ok(()),
        Reply::Answered(answered) => told(out, answered, description.parameters),
        Reply::Looked(found) => looked(out, found),
        Reply::Stand => state(out, description, kept, marks, session),
        Reply::Lent => writeln!(out, "lent"),
        Reply::Held => writeln!(out, "held"),
        Reply::Unknown => writeln!(out, "unknown"),
    }
}
