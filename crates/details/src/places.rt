// Places of a text: lines and columns, the name that stands there, and the declaration that it belongs to.
ghost use Rattle.std.specs.Prelude.{◌≡◌};
ghost use Rattle.details.specs.Places.{breaks_at, lines_before, Start, extent_of, name_at, opening_of, opens_register};

use rules::names::name_of;
use syntax::kinds::REGISTER;
use token::Token;

fn breaks_at(text: &[u8], place: usize) -> bool
    ensures { result ≡ breaks_at text.now place }
{
    text.get(place).copied().unwrap_or(0) == b'\n'
}

// How many lines end before a place.
pub fn lines_before(text: &[u8], place: usize) -> usize
    ensures { result ≡ lines_before text.now place }
{
    text.iter().take(place).filter(|b| **b == b'\n').count()
}

// Where the line of a place starts.
pub fn line_start(text: &[u8], place: usize) -> usize
    ensures { Start text.now place result }
{
    for before in (0..place).rev() {
        if breaks_at(text, before) {
            return before + 1;
        }
    }
    0
}

fn extent_of(token: Token) -> usize
    ensures { result ≡ extent_of token }
{
    match token {
        Token::Name(_, length) => length,
        _ => 0,
    }
}

// The name at a place; it is empty where none stands there.
pub fn name_at(text: &[u8], place: usize) -> &[u8]
    ensures { result.now ≡ name_at text.now place }
{
    let token = token_reader::scan_at(text, place).token;
    name_of(text, token.place(), extent_of(token))
}

// The last word `register` or `variable` before a place: the declaration that the place lies in begins there. In a
// heading there is none.
pub fn opening(text: &[u8], place: usize) -> Option<usize>
    ensures { result ≡ opening_of text.now place }
{
    let mut at = 0;
    let mut last = None;
    for _ in 0..text.len() {
        let found = token_reader::scan_at(text, at);
        let start = found.token.place();
        if place <= start {
            return last;
        }
        if syntax::declares(found.token.kind()) {
            last = Some(start);
        }
        at = found.next;
    }
    last
}

// Does a place lie in a register's declaration?
pub fn in_register(text: &[u8], place: usize) -> bool
    ensures { result ≡ opens_register text.now place }
{
    match opening(text, place) {
        Some(start) => token_reader::scan_at(text, start).token.kind() == REGISTER,
        None => false,
    }
}
