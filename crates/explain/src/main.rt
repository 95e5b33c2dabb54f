// A description, explained to the person who writes it. A refused one: where, which rule in plain words, what breaks
// it, the line with a caret, and where the manual has more. An accepted one: a map of its registers and variables. It
// reads as many bytes as tell a description that is too long.
#![tactic(auto)]

mod fault;
mod further;
mod rule;
mod section;
mod sought;
mod source;

use loader::{Counts, Refused};
use rules::Judging;
use std::io;

fn show_refused(
    out: &mut impl io::Write,
    text: &[u8],
    judging: Judging,
    parameters: &[u32],
    registers: &[u32],
    variables: &[u32],
    rule: u32,
    place: usize,
) -> io::Result<()> {
    let fault = fault::fault_place(text, registers, variables, rule, place);
    source::show_position(out, text, place)?;
    writeln!(out)?;
    rule::show_rule(out, rule)?;
    why::show_why(
        out, text, judging, parameters, registers, variables, rule, place,
    )?;
    source::show_source(out, text, place, fault)?;
    if 6 <= rule && rule <= 15 {
        further::show_further(out, text, place)?;
    }
    section::show_section(out, rule)
}

// The tables that loading leaves empty where it refuses are filled again up to the broken rule. They are arrays of the
// loader's sizes, so that no explanation fails for want of memory.
fn explain(
    out: &mut impl io::Write,
    text: &[u8],
    verdict: Result<Counts, Refused>,
) -> io::Result<()> {
    let mut parameters = [0u32; 577];
    let mut registers = [0u32; 961];
    let mut variables = [0u32; 7553];
    let judging = details::judged::judge_all(text, &mut parameters, &mut registers, &mut variables);
    match verdict {
        Ok(_) => map::show_map(out, text, judging, &parameters, &registers, &variables),
        Err(Refused { number, place }) => show_refused(
            out,
            text,
            judging,
            &parameters,
            &registers,
            &variables,
            number,
            place,
        ),
    }
}

fn tell(out: &mut impl io::Write, text: &[u8]) -> io::Result<()> {
    let mut line = [0u8; 80];
    let end = lines::line_on(text, &mut line);
    out.write_all(&line[..end])?;
    if 8192 < text.len() {
        rule::show_rule(out, 2)?;
        return section::show_section(out, 2);
    }
    explain(out, text, lines::verdict_on(text))
}

fn main(rt: HostRuntime) -> io::Result<()> {
    let mut buffer = [0u8; 8193];
    let n = streams::read_full(&mut rt.stdin(), &mut buffer)?;
    tell(&mut rt.stdout(), &buffer[..n])
}
