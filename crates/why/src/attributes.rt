// Refusal 13: the attribute that is repeated, or is for a missing part.
use details::entries::variable_has;
use details::places::opening;
use std::io;
use tables::Part;
use wording::parts::last;
use wording::write::for_part;

// How often a part is made a trigger: by its own attribute, and by a bare one.
fn show_trigger(
    out: &mut impl io::Write,
    variables: &[u32],
    own: u8,
    bare: u8,
    part: Part,
) -> io::Result<()> {
    let present = variable_has(variables, last(variables), part);
    let times = u32::from(own) + u32::from(bare);
    if present && 1 < times {
        write!(out, "two triggers")?;
        for_part(out, part)?;
    }
    if !present && 0 < own {
        write!(out, "a trigger, but no bits")?;
        for_part(out, part)?;
    }
    Ok(())
}

fn show_volatile(out: &mut impl io::Write, variables: &[u32], times: u8) -> io::Result<()> {
    if 1 < times {
        writeln!(out, "`volatile` stands twice")?;
    } else if 0 < times && !variable_has(variables, last(variables), Part::Read) {
        writeln!(
            out,
            "`volatile` speaks of reading, and there are no bits for it"
        )?;
    }
    Ok(())
}

pub fn show_attributes(
    out: &mut impl io::Write,
    text: &[u8],
    variables: &[u32],
    place: usize,
) -> io::Result<()> {
    // The reading lays five numbers for each of at most 8 pieces into a list that it is lent.
    let mut first = [0usize; 40];
    let mut second = [0usize; 40];
    let open = opening(text, place).unwrap_or(text.len());
    let variable = syntax::variable_after(text, Ok(open), &mut first, &mut second);
    let b = variable.rest.behaviours;
    show_volatile(out, variables, b.volatile)?;
    show_trigger(out, variables, b.read, b.bare, Part::Read)?;
    show_trigger(out, variables, b.write, b.bare, Part::Write)
}
