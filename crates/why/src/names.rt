// Refusals 6 and 7: the name, and what it is declared as, if it is.
use crate::slips::is_slip;
use details::entries::{Entry, count_of};
use details::places::{in_register, lines_before, name_at};
use rules::Judging;
use rules::names::{find, stands_at};
use rules::words::narrow;
use std::io;
use wording::write::{from_one, quoted, say_name};

// Where a name is declared, if it is, and as what.
fn show_declared(
    out: &mut impl io::Write,
    text: &[u8],
    name: &[u8],
    what: &str,
    place: Option<usize>,
) -> io::Result<()> {
    if let Some(place) = place {
        let line = from_one(lines_before(text, place));
        quoted(out, name)?;
        writeln!(out, " is {what}, declared in line {line}")?;
    }
    Ok(())
}

// The declared names that a name is one slip away from.
fn show_near<'a, N: Fn(u32) -> &'a [u8]>(
    out: &mut impl io::Write,
    name: &[u8],
    count: u32,
    declared: N,
) -> io::Result<()>
    requires { N.IsAlwaysCallable declared }
{
    for i in 0..count {
        let near = declared(i);
        if is_slip(name, near) {
            say_name(out, b"did you mean $?\n", near)?;
        }
    }
    Ok(())
}

// A register's port names a parameter, a variable's piece a register.
fn show_due(
    out: &mut impl io::Write,
    text: &[u8],
    parameters: &[u32],
    registers: &[u32],
    place: usize,
) -> io::Result<()> {
    let name = name_at(text, place);
    if in_register(text, place) {
        writeln!(out, "here a parameter is due")?;
        show_near(out, name, count_of(parameters), |i| {
            Entry::Parameter.name(text, parameters, i)
        })
    } else {
        writeln!(out, "here a register is due")?;
        show_near(out, name, count_of(registers), |i| {
            Entry::Register.name(text, registers, i)
        })
    }
}

pub fn show_name(
    out: &mut impl io::Write,
    text: &[u8],
    judging: Judging,
    parameters: &[u32],
    registers: &[u32],
    variables: &[u32],
    rule: u32,
    place: usize,
) -> io::Result<()> {
    let name = name_at(text, place);
    let device = stands_at(text, judging.place, judging.extent, name).then_some(judging.place);
    let parameter = find(text, parameters, 36, name).map(|i| Entry::Parameter.place(
        parameters,
        narrow(i),
    ));
    let register = find(text, registers, 15, name).map(|i| Entry::Register.place(
        registers,
        narrow(i),
    ));
    let variable = find(text, variables, 59, name).map(|i| Entry::Variable.place(
        variables,
        narrow(i),
    ));
    show_declared(out, text, name, "the device", device)?;
    show_declared(out, text, name, "a parameter", parameter)?;
    show_declared(out, text, name, "a register", register)?;
    show_declared(out, text, name, "a variable", variable)?;
    if device.or(parameter).or(register).or(variable).is_none() {
        say_name(out, b"$ is not declared before this\n", name)?;
    }
    if rule == 7 {
        show_due(out, text, parameters, registers, place)?;
    }
    Ok(())
}
