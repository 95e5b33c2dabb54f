// The pieces of a part: how the value's bits and the registers' bits correspond.
ghost use Rattle.std.specs.Prelude.{◌≡◌, ◌<◌, ◌^◌};
ghost use Rattle.wiring.specs.Pieces.{Usable, PieceAt, size_of, covers, carried_by, source_of};

use crate::BitList;
use tables::Piece;

pub fn piece_at(variables: &[u32], part: BitList, k: usize) -> Piece
    requires usable { Usable part }
    requires k_bound { k < 8 }
    ensures { PieceAt variables.now part k result }
{
    let place = part.at + 3 + 3 * k;
    let register = tables::words::word(variables, place);
    let high = tables::words::word(variables, place + 1);
    let low = tables::words::word(variables, place + 2);
    Piece {
        register,
        high,
        low,
    }
}

fn size_of(piece: Piece) -> usize
    requires { piece.high < 2 ^ 32 }
    ensures { result ≡ size_of piece }
{
    (piece.high + 1).saturating_sub(piece.low)
}

fn covers_bit(piece: Piece, r: usize, b: usize) -> bool
    ensures { result ≡ covers piece r b }
{
    (piece.register == r) & ((piece.low <= b) & (b <= piece.high))
}

// The value's bit that bit `b` of register `r` carries.
pub fn carried_by(variables: &[u32], part: BitList, r: usize, b: usize) -> Option<usize>
    requires { Usable part }
    ensures { result ≡ carried_by variables.now part r b }
{
    let mut base = 0;
    for k in (0..part.count).rev() {
        let piece = piece_at(variables, part, k);
        if covers_bit(piece, r, b) {
            return Some(base + (b - piece.low));
        }
        base += size_of(piece);
    }
    None
}

// The register and its bit that carry bit `p` of the value.
pub fn source_of(variables: &[u32], part: BitList, p: usize) -> Option<(usize, usize)>
    requires { Usable part }
    ensures { result ≡ source_of variables.now part p }
{
    let mut left = p;
    for k in (0..part.count).rev() {
        let piece = piece_at(variables, part, k);
        let size = size_of(piece);
        if left < size {
            return Some((piece.register, piece.low + left));
        }
        left -= size;
    }
    None
}
