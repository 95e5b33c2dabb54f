// Refusals 3, 4 and 5: what stands at the place.
use crate::expected::show_expected;
use details::expected::could_stand;
use details::places::{name_at, opening};
use rules::names::name_of;
use std::io;
use token::Token;
use wording::write::{byte_at, say_name, span};

// The index of `register` among the reserved words.
const REGISTER: u8 = 17;

// Outside comments only some characters of ASCII stand. A byte-order mark and the curly quotes, of three bytes each,
// are told by name.
fn show_strange(out: &mut impl io::Write, bytes: &[u8]) -> io::Result<()> {
    match bytes {
        [0xef, 0xbb, 0xbf, ..] => {
            writeln!(out, "found a byte-order mark: save the text without one")
        }
        [0xe2, 0x80, 0x98..=0x9f, ..] => writeln!(
            out,
            "found a curly quote: a mask stands between straight ones, '"
        ),
        _ => writeln!(
            out,
            "found a character that is not ASCII: only comments may have one"
        ),
    }
}

// A sign of ASCII that begins no token.
fn show_byte(out: &mut impl io::Write, byte: u8) -> io::Result<()> {
    match byte {
        b'"' => writeln!(
            out,
            "found a double quote: a mask stands between single ones, '"
        ),
        b'\r' => writeln!(
            out,
            "found a carriage return: lines end with a newline alone"
        ),
        b'!'..=b'~' => say_name(out, b"found $\n", &[byte]),
        _ => writeln!(
            out,
            "found the byte {byte}: blanks are space, tab and newline"
        ),
    }
}

// No token: a comment or a literal that does not end, a number that is too large, or a byte that begins none.
fn show_bad(out: &mut impl io::Write, text: &[u8], place: usize) -> io::Result<()> {
    match byte_at(text, place) {
        b'/' => writeln!(out, "the comment that begins here is not closed"),
        b'\'' => writeln!(
            out,
            "a bits literal has one or more of 0 1 * . between two quotes"
        ),
        b'0'..=b'9' => writeln!(out, "a number is at most 2,147,483,647"),
        byte @ ..=0x7f => show_byte(out, byte),
        _ => show_strange(out, name_of(text, place, 3)),
    }
}

// The words that this version reads, by their index.
fn is_known(word: u8) -> bool {
    matches!(word, 1 | 2 | 4 | 10..=12 | 16 | 17 | 21 | 25..)
}

// A reserved word: no name, and of Devil's not all are supported.
fn show_word(
    out: &mut impl io::Write,
    text: &[u8],
    place: usize,
    word: u8,
    found: &[u8],
) -> io::Result<()> {
    say_name(out, b"found the word $\n", found)?;
    if !is_known(word) {
        say_name(
            out,
            b"$ is a word of Devil that is not supported yet\n",
            found,
        )?;
    } else if could_stand(text, place, b"x") {
        say_name(out, b"$ is a reserved word, and no name\n", found)?;
    }
    Ok(())
}

// A sign: some begin what Devil has and this version has not.
fn show_sign(out: &mut impl io::Write, text: &[u8], place: usize, found: &[u8]) -> io::Result<()> {
    say_name(out, b"found $\n", found)?;
    match found {
        [b'{', ..] if could_stand(text, place, b"bool") => {
            writeln!(out, "types that name their values are not supported yet")
        }
        [b'(', ..] if could_stand(text, place, b"=") => {
            writeln!(out, "registers with parameters are not supported yet")
        }
        [b'<' | b'=', _, ..] => {
            writeln!(out, "types that name their values are not supported yet")
        }
        _ => Ok(()),
    }
}

// The token at a place, with the bytes that it takes.
fn show_token(out: &mut impl io::Write, text: &[u8], place: usize) -> io::Result<()> {
    let found = token_reader::scan_at(text, place);
    let bytes = name_of(text, place, span(place, found.next));
    match found.token {
        Token::End(_) => writeln!(out, "found the end of the text"),
        Token::Name(start, length) => {
            say_name(out, b"found the name $\n", name_of(text, start, length))
        }
        Token::Word(_, word) => show_word(out, text, place, word, bytes),
        Token::Number(_, _) => say_name(out, b"found the number $\n", bytes),
        Token::Bits(_, _) => say_name(out, b"found $\n", bytes),
        Token::Sign(_, _) => show_sign(out, text, place, bytes),
        Token::Bad(_) => writeln!(out, "found no token"),
    }
}

// A name that stands where a size is passed is too long itself, or one too many.
fn show_extra_name(out: &mut impl io::Write, text: &[u8], place: usize) -> io::Result<()> {
    let length = name_at(text, place).len();
    if 64 < length {
        writeln!(out, "a name has at most 64 bytes, this one {length}")
    } else if opening(text, place).is_some() {
        writeln!(out, "a bit list has at most 8 pieces")
    } else {
        writeln!(out, "a device has at most 16 parameters")
    }
}

fn show_extra_word(out: &mut impl io::Write, word: u8) -> io::Result<()> {
    if word == REGISTER {
        writeln!(out, "a device has at most 64 registers")
    } else {
        writeln!(out, "a device has at most 128 variables")
    }
}

fn show_extra_number(out: &mut impl io::Write, text: &[u8], place: usize) -> io::Result<()> {
    if opening(text, place).is_some() {
        writeln!(out, "a bit list has at most 8 pieces")
    } else {
        writeln!(out, "a parameter has at most 16 ranges")
    }
}

fn show_size(out: &mut impl io::Write, text: &[u8], place: usize) -> io::Result<()> {
    match token_reader::scan_at(text, place).token {
        Token::Name(_, _) => show_extra_name(out, text, place),
        Token::Word(_, word) => show_extra_word(out, word),
        Token::Number(_, _) => show_extra_number(out, text, place),
        Token::Sign(_, _) => writeln!(out, "parentheses and minuses go at most 16 deep"),
        Token::Bits(_, _) | Token::End(_) | Token::Bad(_) => Ok(()),
    }
}

pub fn show_reading(
    out: &mut impl io::Write,
    text: &[u8],
    rule: u32,
    place: usize,
) -> io::Result<()> {
    match rule {
        3 => show_bad(out, text, place),
        4 => {
            show_token(out, text, place)?;
            show_expected(out, text, place)
        }
        _ => show_size(out, text, place),
    }
}
