// A description that arrives in pieces: a call that takes a piece, and a call that ends the text and loads it.
// Between the calls the caller keeps the lent store and one number: how many bytes of it are taken. Any number above
// the limit says that the text was too long, so every number that a caller lends has a meaning.
#![tactic(auto)]

ghost use Rattle.std.specs.Prelude.{◌≡◌, ◌+◌, ◌≤◌, length};
ghost use Rattle.loader.specs.Load.{lent_as};
ghost use Rattle.pieces.specs.Pieces.{is_short_for, held_as, took_as, ended_as, laid_at, piece_of, end_of};

use loader::{Counts, LONG, Refused, SHORT};

// The reply to a piece, and how many bytes of the store are then taken. Before the end call it is more, or a refusal
// whose place is 0.
#[derive(Clone, Copy, PartialEq, Eq)]
pub struct Taken {
    pub reply: Result<(), Refused>,
    pub taken: usize,
}

// The verdict on all pieces, and how many bytes of the store are then taken: none, where the text was judged.
#[derive(Clone, Copy, PartialEq, Eq)]
pub struct Ended {
    pub verdict: Result<Counts, Refused>,
    pub taken: usize,
}

// 1: the store or a table is shorter than its stated size.
fn is_short(store: &[u8], parameters: &[u32], registers: &[u32], variables: &[u32]) -> bool
    ensures { result ≡ is_short_for (lent_as parameters.now registers.now variables.now) (length store.now) }
{
    loader::is_short(parameters, registers, variables) || store.len() < 8192
}

// Lays a piece behind what is taken. A store for each byte: a copy of a slice would be a call of memmove, which the
// archive for C does not need otherwise.
fn lay(store: &mut [u8], taken: usize, piece: &[u8])
    requires { taken + length piece.now ≤ length store.old }
    ensures { store.new ≡ laid_at store.old taken piece.now }
{
    for i in 0..piece.len() {
        store[taken + i] = piece[i];
    }
}

// Takes a piece of any length. The tables are lent for their lengths alone.
pub fn take_piece(
    store: &mut [u8],
    taken: usize,
    piece: &[u8],
    parameters: &[u32],
    registers: &[u32],
    variables: &[u32],
) -> Taken
    ensures { took_as result store.new ≡ piece_of
        (lent_as parameters.now registers.now variables.now)
        (held_as store.old taken) piece.now }
{
    if is_short(store, parameters, registers, variables) {
        return Taken {
            reply: Err(SHORT),
            taken,
        };
    }
    if 8192 < taken.saturating_add(piece.len()) {
        return Taken {
            reply: Err(LONG),
            taken: 8193,
        };
    }
    let end = taken + piece.len();
    lay(store, taken, piece);
    Taken {
        reply: Ok(()),
        taken: end,
    }
}

// Ends the text: what was taken is loaded, and the next piece begins another text. The limit is tested before the text
// is cut from the store, since a cut past its end would be a shorter text.
pub fn end_pieces(
    store: &[u8],
    taken: usize,
    parameters: &mut [u32],
    registers: &mut [u32],
    variables: &mut [u32],
) -> Ended
    ensures { ended_as result parameters.new registers.new variables.new ≡ end_of
        (lent_as parameters.old registers.old variables.old)
        (held_as store.now taken) }
{
    if is_short(store, parameters, registers, variables) {
        return Ended {
            verdict: Err(SHORT),
            taken,
        };
    }
    if 8192 < taken {
        return Ended {
            verdict: Err(LONG),
            taken: 0,
        };
    }
    let verdict = loader::load(&store[..taken], parameters, registers, variables);
    Ended { verdict, taken: 0 }
}
