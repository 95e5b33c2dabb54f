// For each framed text on standard input, a line with its tokens up to the end or a bad one, and a line that says
// whether it reads, with the counts of parameters, registers and variables, or which refusal stops the reading, and
// where.
#![tactic(auto)]

use std::io;
use std::io::Write;
use syntax::Outline;
use token::Token;

// A token's kind, its first byte's place, and the place behind it.
fn show(out: &mut impl io::Write, t: Token, next: usize) -> io::Result<()> {
    let place = t.place();
    match t {
        Token::Name(_, _) => write!(out, " name {place}..{next}"),
        Token::Word(_, _) => write!(out, " word {place}..{next}"),
        Token::Number(_, value) => write!(out, " number {place}..{next}={value}"),
        Token::Bits(_, _) => write!(out, " bits {place}..{next}"),
        Token::Sign(_, _) => write!(out, " sign {place}..{next}"),
        Token::End(_) => write!(out, " end {place}"),
        Token::Bad(_) => write!(out, " bad {place}"),
    }
}

// One token at a time: each but the last takes some bytes, so the loop ends.
fn show_tokens(out: &mut impl io::Write, text: &[u8]) -> io::Result<()> {
    let mut at = 0;
    loop {
        let found = token::scan(text, at);
        show(out, found.token, found.next)?;
        if !found.token.goes_on() {
            return writeln!(out);
        }
        at = found.next;
    }
}

fn show_reading(out: &mut impl io::Write, text: &[u8]) -> io::Result<()> {
    let Outline {
        parameters,
        registers,
        variables,
        step,
    } = syntax::read_text(text);
    match step {
        Ok(_) => writeln!(out, "reads {parameters} {registers} {variables}"),
        Err(refusal) => {
            let number = refusal.number;
            let place = refusal.place;
            writeln!(out, "refused {number} {place}")
        }
    }
}

fn show_text(out: &mut impl io::Write, text: &[u8]) -> io::Result<()> {
    write!(out, "tokens")?;
    show_tokens(out, text)?;
    show_reading(out, text)
}

// One frame at a time: a frame ends after it began, so the loop does.
fn show_all(out: &mut impl io::Write, input: &[u8]) -> io::Result<()> {
    let mut at = 0;
    while let Some(frame) = frames::frame_at(input, at) {
        show_text(out, &input[frame.start..frame.end])?;
        at = frame.next;
    }
    Ok(())
}

fn main(rt: HostRuntime) -> io::Result<()> {
    let mut buffer = frames::space();
    let n = streams::read_full(&mut rt.stdin(), &mut buffer)?;
    show_all(&mut rt.stdout(), &buffer[..n])
}
