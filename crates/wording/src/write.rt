// Words, numbers and names, to a writer. Names are bytes of the text, and a format string takes none: so a message has
// marks where names stand.
use std::io;
use tables::Part;

pub fn write(out: &mut impl io::Write, bytes: &[u8]) -> io::Result<()> {
    out.write_all(bytes)
}

// A word of the text, between quotes.
pub fn quoted(out: &mut impl io::Write, word: &[u8]) -> io::Result<()> {
    write!(out, "`")?;
    out.write_all(word)?;
    write!(out, "`")
}

// The byte at a place, or 0 past the end.
pub fn byte_at(bytes: &[u8], k: usize) -> u8 {
    bytes.get(k).copied().unwrap_or(0)
}

// A message in which `#` stands for a number, `$` for one name and `&` for another.
pub fn say(
    out: &mut impl io::Write,
    message: &[u8],
    n: usize,
    one: &[u8],
    two: &[u8],
) -> io::Result<()> {
    for part in message.split_inclusive(|&b| matches!(b, b'#' | b'$' | b'&')) {
        match part {
            [words @ .., b'#'] => {
                out.write_all(words)?;
                write!(out, "{n}")?;
            }
            [words @ .., b'$'] => {
                out.write_all(words)?;
                quoted(out, one)?;
            }
            [words @ .., b'&'] => {
                out.write_all(words)?;
                quoted(out, two)?;
            }
            words => out.write_all(words)?,
        }
    }
    Ok(())
}

// A message with a name.
pub fn say_name(out: &mut impl io::Write, message: &[u8], name: &[u8]) -> io::Result<()> {
    say(out, message, 0, name, b"")
}

// A number that is counted from 0, as a person counts. (The last one that a machine has stands for itself; no text is
// so long.)
pub fn from_one(n: usize) -> usize {
    n.saturating_add(1)
}

pub fn blanks(out: &mut impl io::Write, n: usize) -> io::Result<()> {
    for _ in 0..n {
        write!(out, " ")?;
    }
    Ok(())
}

// Blanks to the end of a column of which so much is used; where it is full, on a line of their own.
pub fn fill(out: &mut impl io::Write, used: usize, columns: usize) -> io::Result<()> {
    if columns <= used {
        writeln!(out)?;
        blanks(out, columns)
    } else {
        blanks(out, columns - used)
    }
}

// How far it is from one place to another, 0 where that lies before.
pub fn span(from: usize, to: usize) -> usize {
    to.saturating_sub(from)
}

// What a part is for, at the end of a line.
pub fn for_part(out: &mut impl io::Write, part: Part) -> io::Result<()> {
    match part {
        Part::Read => writeln!(out, " for reading"),
        Part::Write => writeln!(out, " for writing"),
    }
}
