// What breaks the rule by which a description is refused, by names and numbers.
#![tactic(auto)]

mod attributes;
mod bare;
mod expected;
mod lists;
mod names;
mod pieces;
mod ports;
mod reading;
mod slips;

pub use pieces::is_faulty;
use rules::Judging;
use std::io;

pub fn show_why(
    out: &mut impl io::Write,
    text: &[u8],
    judging: Judging,
    parameters: &[u32],
    registers: &[u32],
    variables: &[u32],
    rule: u32,
    place: usize,
) -> io::Result<()> {
    match rule {
        0..=5 => reading::show_reading(out, text, rule, place),
        6 | 7 => names::show_name(
            out, text, judging, parameters, registers, variables, rule, place,
        ),
        8..=10 => ports::show_ports(out, text, parameters, registers, rule, place),
        _ => lists::show_lists(out, text, parameters, registers, variables, rule, place),
    }
}
