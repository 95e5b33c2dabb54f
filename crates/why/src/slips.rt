// Words that are one slip away from each other, so that a misspelled one can be told.

// What is left of a word behind its first bytes; nothing where it has no more.
fn behind(word: &[u8], count: usize) -> &[u8] {
    word.get(count..).unwrap_or(&[])
}

// Do two words begin with the same two bytes, exchanged, and go on alike?
fn are_exchanged(a: &[u8], b: &[u8]) -> bool {
    match (a, b) {
        ([x, y, a_rest @ ..], [u, v, b_rest @ ..]) => x == v && y == u && a_rest == b_rest,
        _ => false,
    }
}

// Is one word the other with a byte more or less, with another byte, or with two neighbours exchanged? Of shorter words
// than three bytes nothing is said: too many are alike.
pub fn is_slip(a: &[u8], b: &[u8]) -> bool {
    let shared = a.iter().zip(b).take_while(|(x, y)| x == y).count();
    let a_rest = behind(a, shared);
    let b_rest = behind(b, shared);
    let near = behind(a_rest, 1) == behind(b_rest, 1)
        || behind(a_rest, 1) == b_rest
        || a_rest == behind(b_rest, 1)
        || are_exchanged(a_rest, b_rest);
    near && 3 <= a.len() && 3 <= b.len()
}
