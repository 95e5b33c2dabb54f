// Which words and signs could stand at a place of refusal 4, each tried by reading.
use crate::slips::is_slip;
use details::expected::could_stand;
use details::places::name_at;
use std::io;
use wording::write::say_name;

// The words and signs of this version.
const WORDS: [&[u8]; 31] = [
    b"device",
    b"register",
    b"variable",
    b"bit",
    b"port",
    b"mask",
    b"read",
    b"write",
    b"volatile",
    b"trigger",
    b"int",
    b"signed",
    b"bool",
    b"(",
    b")",
    b"[",
    b"]",
    b"{",
    b"}",
    b":",
    b";",
    b",",
    b"=",
    b"#",
    b"@",
    b"..",
    b"+",
    b"-",
    b"*",
    b"/",
    b"%",
];

// A message for each word that passes a test and could stand.
fn say_words<P: Fn(&[u8]) -> bool>(
    out: &mut impl io::Write,
    text: &[u8],
    place: usize,
    message: &[u8],
    passes: P,
) -> io::Result<()>
    requires { P.IsAlwaysCallable passes }
{
    for word in WORDS {
        if passes(word) && could_stand(text, place, word) {
            say_name(out, message, word)?;
        }
    }
    Ok(())
}

// A message if a text could go on with this.
fn try_kind(
    out: &mut impl io::Write,
    text: &[u8],
    place: usize,
    word: &[u8],
    message: &[u8],
) -> io::Result<()> {
    if could_stand(text, place, word) {
        out.write_all(message)?;
    }
    Ok(())
}

// First the words that a name was meant to be: a misspelled word is read as a name.
pub fn show_expected(out: &mut impl io::Write, text: &[u8], place: usize) -> io::Result<()> {
    let name = name_at(text, place);
    say_words(out, text, place, b"did you mean $?\n", |word| {
        is_slip(name, word)
    })?;
    write!(out, "here could stand")?;
    try_kind(out, text, place, b"x", b" a name")?;
    try_kind(out, text, place, b"0", b" a number")?;
    try_kind(out, text, place, b"'.'", b" a bits literal")?;
    say_words(out, text, place, b" $", |_| true)?;
    try_kind(out, text, place, b"", b" the end of the text")?;
    writeln!(out)
}
