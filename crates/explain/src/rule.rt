// The rules in plain words, as docs/REFUSALS.md has them.
use std::io;

fn words_of(rule: u32) -> &'static str {
    match rule {
        1 => "a table is too short",
        2 => "a description has at most 8,192 bytes",
        3 => "no token begins here",
        4 => "no description goes on like this",
        5 => "a size is passed",
        6 => "one name space for all: each name is declared once",
        7 => "a name is declared before it is used, and of the right kind",
        8 => "an offset is a number of the parameter's set",
        9 =>
            "one port for both parts or one for each, and one mask for a part, of an element for each bit",
        10 =>
            "a parameter and an offset serve one register in each part, or for writing several that fixed bits tell apart",
        11 => "a bit list has up to 32 bits, each once, each a dot of a register with that part",
        12 =>
            "parameters and registers have 8, 16 or 32 bits, alike; a type has as many as each part",
        13 => "`volatile` and `trigger` stand once for a part, and the part is there",
        14 => "a bit serves one variable in each part",
        15 => "a trigger shares no register with another variable in that part",
        _ => "each dot of a register is a bit of some variable, in each part",
    }
}

pub fn show_rule(out: &mut impl io::Write, rule: u32) -> io::Result<()> {
    writeln!(out, "rule {rule}: {}", words_of(rule))
}
