// The line of the text that holds a place, and a caret under the place; under where the fault lies too, where that is
// another place. A long line is cut around them.
ghost use Rattle.std.specs.Prelude.{◌<◌, ◌≤◌, length, IfSome};

use details::places::{line_start, lines_before};
use rules::names::name_of;
use std::io;
use wording::write::{from_one, span};

// How much of a line is shown, and how much of that before the place.
const SHOWN: usize = 72;

const BEFORE: usize = 48;

// How many bytes the character takes that these begin with; none where none does, or it would move what follows. (No
// character has two spellings, none is a surrogate, none lies above the last; those behind ASCII that move what follows
// are not shown.)
fn character(bytes: &[u8]) -> Option<usize>
    ensures { IfSome result (λ n. (0 < n) × (n ≤ length bytes.now)) }
{
    match bytes {
        [b'\t' | b' '..=b'~', ..] => Some(1),
        [0xc2, 0xa0..=0xbf, ..] => Some(2),
        [0xc3..=0xdf, 0x80..=0xbf, ..] => Some(2),
        [0xe0, 0xa0..=0xbf, 0x80..=0xbf, ..] => Some(3),
        [0xed, 0x80..=0x9f, 0x80..=0xbf, ..] => Some(3),
        [0xe1..=0xec | 0xee..=0xef, 0x80..=0xbf, 0x80..=0xbf, ..] => Some(3),
        [0xf0, 0x90..=0xbf, 0x80..=0xbf, 0x80..=0xbf, ..] => Some(4),
        [0xf1..=0xf3, 0x80..=0xbf, 0x80..=0xbf, 0x80..=0xbf, ..] => Some(4),
        [0xf4, 0x80..=0x8f, 0x80..=0xbf, 0x80..=0xbf, ..] => Some(4),
        _ => None,
    }
}

// The characters of a line, a question mark for a byte that begins none, or blanks as wide as they, to stand before the
// caret. Each turn shows a character, which says how many bytes it takes.
fn show_bytes(out: &mut impl io::Write, bytes: &[u8], blank: bool) -> io::Result<()> {
    let mut rest = bytes;
    while !rest.is_empty() {
        let found = character(rest);
        let (shown, after) = rest.split_at(found.unwrap_or(1));
        if blank && rest[0] != b'\t' {
            write!(out, " ")?;
        } else if found.is_none() {
            write!(out, "?")?;
        } else {
            out.write_all(shown)?;
        }
        rest = after;
    }
    Ok(())
}

// The bytes from one place to another, or blanks as wide as they.
fn show_between(
    out: &mut impl io::Write,
    text: &[u8],
    from: usize,
    to: usize,
    blank: bool,
) -> io::Result<()> {
    show_bytes(out, name_of(text, from, span(from, to)), blank)
}

// Carets under two places of a line that is shown from `from` on; the second only if it lies behind the first, on what
// is shown.
fn show_carets(
    out: &mut impl io::Write,
    text: &[u8],
    from: usize,
    place: usize,
    fault: Option<usize>,
    to: usize,
) -> io::Result<()> {
    show_between(out, text, from, place, true)?;
    write!(out, "^")?;
    if let Some(fault) = fault
        && place < fault
        && fault < to
    {
        show_between(out, text, from_one(place), fault, true)?;
        write!(out, "^")?;
    }
    writeln!(out)
}

// A line from one place to another, with three dots where it is cut.
fn show_line(
    out: &mut impl io::Write,
    text: &[u8],
    start: usize,
    from: usize,
    to: usize,
    end: usize,
) -> io::Result<()> {
    write!(out, "\n    ")?;
    if start < from {
        write!(out, "...")?;
    }
    show_between(out, text, from, to, false)?;
    if to < end {
        write!(out, "...")?;
    }
    write!(out, "\n    ")?;
    if start < from {
        write!(out, "   ")?;
    }
    Ok(())
}

fn show_marked(
    out: &mut impl io::Write,
    text: &[u8],
    place: usize,
    fault: Option<usize>,
) -> io::Result<()> {
    let start = line_start(text, place);
    let end = script::line_end(text, place);
    let long = SHOWN < span(start, end) && BEFORE < span(start, place);
    let from = if long { span(BEFORE, place) } else { start };
    let to = span(span(SHOWN, span(from, end)), end);
    show_line(out, text, start, from, to, end)?;
    show_carets(out, text, from, place, fault, to)
}

// line L, column C
pub fn show_position(out: &mut impl io::Write, text: &[u8], place: usize) -> io::Result<()> {
    write!(out, "line {}", from_one(lines_before(text, place)))?;
    write!(
        out,
        ", column {}",
        from_one(span(line_start(text, place), place))
    )
}

// The place's line, and the fault's where that is another.
pub fn show_source(
    out: &mut impl io::Write,
    text: &[u8],
    place: usize,
    fault: Option<usize>,
) -> io::Result<()> {
    show_marked(out, text, place, fault)?;
    if let Some(fault) = fault
        && fault < text.len()
        && line_start(text, fault) != line_start(text, place)
    {
        show_marked(out, text, fault, None)?;
    }
    Ok(())
}
