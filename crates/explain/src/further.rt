// Further declarations that break a rule. Those told before are left out, and the proved verdict on the rest names the
// next; one that only misses a name that was left out is left out too, and not told.
use crate::rule::show_rule;
use crate::sought::nth_of_kind;
use crate::source::show_position;
use details::places::{name_at, opening};
use loader::Refused;
use rules::names::stands_at;
use std::io;
use syntax::kinds::SEMICOLON;
use token::Token;

// How many declarations there can be.
const DECLARATIONS: u32 = 192;

// The first rule from 6 to 15 that what is left of a text breaks.
fn next_broken(rest: &[u8]) -> Option<Refused> {
    lines::verdict_on(rest)
        .err()
        .filter(|refused| 6 <= refused.number && refused.number <= 15)
}

fn is_named(token: Token, text: &[u8], name: &[u8]) -> bool {
    matches!(token, Token::Name(place, length) if stands_at(text, place, length, name))
}

// Does the name at a place stand before it in what was left out?
fn was_left_out(text: &[u8], rest: &[u8], place: usize) -> bool {
    let name = name_at(text, place);
    let mut at = 0;
    for _ in 0..text.len() {
        let found = token_reader::scan_at(text, at);
        let start = found.token.place();
        if place <= start {
            return false;
        }
        if is_named(found.token, text, name) && rest.get(start) == Some(&b' ') {
            return true;
        }
        at = found.next;
    }
    false
}

fn tell(out: &mut impl io::Write, text: &[u8], next: Refused, first: bool) -> io::Result<()> {
    if first {
        writeln!(out, "\nfurther, with what is broken left out:")?;
    }
    show_position(out, text, next.place)?;
    write!(out, ": ")?;
    show_rule(out, next.number)
}

// Puts blanks in the place of the declaration that begins at a place.
fn leave_out(rest: &mut [u8], text: &[u8], open: usize) {
    let end = match nth_of_kind(text, open, 1, SEMICOLON) {
        Some(place) if place < rest.len() => place + 1,
        _ => rest.len(),
    };
    if let Some(declaration) = rest.get_mut(open..end) {
        declaration.fill(b' ');
    }
}

// A broken heading is told alone: nothing can be judged without it.
pub fn show_further(out: &mut impl io::Write, text: &[u8], place: usize) -> io::Result<()> {
    let mut store = [b' '; 8192];
    let Some(rest) = store.get_mut(..text.len()) else {
        return Ok(());
    };
    rest.copy_from_slice(text);
    let mut here = place;
    let mut first = true;
    for _ in 0..DECLARATIONS {
        let Some(open) = opening(text, here) else {
            return Ok(());
        };
        leave_out(rest, text, open);
        let Some(next) = next_broken(rest) else {
            return Ok(());
        };
        if next.number != 7 || !was_left_out(text, rest, next.place) {
            tell(out, text, next, first)?;
            first = false;
        }
        here = next.place;
    }
    Ok(())
}
