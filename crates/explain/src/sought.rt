// The token of a declaration in which a fault lies, for the second caret.
use syntax::kinds::SEMICOLON;
use token::Token;

// The place of the nth token from a place on, up to the declaration's end, that passes a test of it and of the kind of
// the one before it.
pub fn nth_sought<P: Fn(Token, Option<u16>) -> bool>(
    text: &[u8],
    from: usize,
    n: usize,
    passes: P,
) -> Option<usize>
    requires { P.IsAlwaysCallable passes }
{
    let mut at = from;
    let mut before = None;
    let mut left = n;
    for _ in 0..text.len() {
        let found = token_reader::scan_at(text, at);
        let token = found.token;
        if passes(token, before) {
            if left <= 1 {
                return Some(token.place());
            }
            left -= 1;
        }
        if token.kind() == SEMICOLON {
            return None;
        }
        before = Some(token.kind());
        at = found.next;
    }
    None
}

// The nth token of a kind.
pub fn nth_of_kind(text: &[u8], from: usize, n: usize, kind: u16) -> Option<usize> {
    nth_sought(text, from, n, |token, _| token.kind() == kind)
}
