// Which variable holds a bit, or has one in a register, and what two of them share.
ghost use Rattle.std.specs.Prelude.{◌≡◌, ◌+◌, ◌*◌, ◌-◌, ◌<◌, ◌≤◌, ◌^◌, length, IfSome};
ghost use Rattle.tables.specs.Marks.{has};
ghost use Rattle.tables.specs.Tables.{piece_in, piece_bits, variable_part_of};
ghost use Rattle.tables.specs.View.{part_no};
ghost use Rattle.details.specs.Holders.{holds, behind, weight_in, Few, touches, mentioned_below, pulls, share_in};

use crate::entries::{piece_at, piece_count, piece_of, variable_word};
use tables::Part;
use tables::words::word;

// Does the piece at a word of the variables have this bit?
fn piece_holds(variables: &[u32], piece: usize, number: usize) -> bool
    requires { piece < 2 ^ 41 }
    ensures { result ≡ has number (piece_bits (piece_in variables.now piece)) }
{
    let register = word(variables, piece);
    let high = word(variables, piece + 1);
    let low = word(variables, piece + 2);
    (64 * register + low <= number) & (number < 64 * register + high + 1)
}

// How many bits the piece at a word of the variables has.
fn piece_size(variables: &[u32], piece: usize) -> usize
    requires { piece < 2 ^ 41 }
    ensures { Few (length (piece_bits (piece_in variables.now piece))) result }
{
    let high = word(variables, piece + 1);
    let low = word(variables, piece + 2);
    (high + 1).saturating_sub(low)
}

// How many of them stand behind this bit, unless it is none of them.
fn piece_weight(variables: &[u32], piece: usize, number: usize) -> Option<usize>
    requires { piece < 2 ^ 41 }
    ensures { result ≡ behind number (piece_bits (piece_in variables.now piece)) }
{
    let lowest = 64 * word(variables, piece) + word(variables, piece + 2);
    piece_holds(variables, piece, number).then_some(number.saturating_sub(lowest))
}

// The weight of a bit in variable v, unless v does not map it.
pub fn weight_in(variables: &[u32], part: Part, number: usize, v: u32) -> Option<usize>
    ensures is { result ≡ weight_in variables.now part number v }
    ensures small { IfSome result (λ weight. weight + 2 ^ 32 ≤ 2 ^ 64) }
{
    let mut weight: Option<usize> = None;
    for k in 0..piece_count(variables, v, part) {
        let piece = piece_at(v, part, k);
        weight = match weight {
            Some(above) => Some(above + piece_size(variables, piece)),
            None => piece_weight(variables, piece, number),
        };
    }
    weight
}

// Does variable v map this bit?
pub fn holds_bit(variables: &[u32], part: Part, number: usize, v: u32) -> bool
    ensures { result ≡ holds variables.now part number v }
{
    let n = piece_count(variables, v, part);
    (0..n).any(|k| piece_holds(variables, piece_at(v, part, k), number))
}

// Does one of the first k pieces of variable v mention this register?
pub fn mentioned_below(variables: &[u32], part: Part, register: usize, v: u32, k: u32) -> bool
    ensures { result ≡ mentioned_below variables.now part register v k }
{
    (0..k).any(|j| register == piece_of(variables, v, part, j).register)
}

// Has variable v a bit in this register?
pub fn touches_register(variables: &[u32], part: Part, register: usize, v: u32) -> bool
    ensures { result ≡ touches variables.now part register v }
{
    mentioned_below(
        variables,
        part,
        register,
        v,
        piece_count(variables, v, part),
    )
}

// Is the register of piece k mentioned by an earlier piece?
pub fn mentioned_before(variables: &[u32], v: u32, part: Part, k: u32) -> bool
    ensures { result ≡ mentioned_below variables.now part ((variable_part_of variables.now (part_no part) v).piece k).register v k }
{
    let piece = piece_of(variables, v, part, k);
    mentioned_below(variables, part, piece.register, v, k)
}

pub fn pulls_trigger(variables: &[u32], part: Part, v: u32) -> bool
    ensures { result ≡ pulls variables.now part v }
{
    variable_word(variables, v, part, 1) == 1
}

// What two variables may not share in a part: a bit (rule 14); a register, where one of the two is trigger (rule 15).
#[derive(Clone, Copy)]
pub enum Shared {
    Bit,
    Register,
}

// Do two variables share this bit or this register?
pub fn shares(variables: &[u32], v: u32, part: Part, shared: Shared, number: usize, u: u32) -> bool
    ensures { result ≡ share_in variables.now v part shared number u }
{
    match shared {
        Shared::Bit => {
            holds_bit(variables, part, number, v) & holds_bit(variables, part, number, u)
        }
        Shared::Register => {
            touches_register(variables, part, number, v)
                & touches_register(variables, part, number, u)
                & (pulls_trigger(variables, part, v) | pulls_trigger(variables, part, u))
        }
    }
}
