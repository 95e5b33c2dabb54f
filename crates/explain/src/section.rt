// Where the manual has more on a rule: the sections that the table at its head gives for the rule's number.
use std::io;

pub fn show_section(out: &mut impl io::Write, rule: u32) -> io::Result<()> {
    let sections = match rule {
        3 | 6 | 7 => "Text",
        4 => "Text; Not supported yet",
        8 => "Ports and offsets",
        9 => "Registers; Masks",
        10 => "Registers",
        11 | 14 => "Bit lists",
        12 => "Types",
        13 | 15 => "Volatile and trigger",
        16 => "Masks",
        _ => "Sizes",
    };
    writeln!(out, "\nsee docs/DEVIL.md: {sections}")
}
