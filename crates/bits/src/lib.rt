// Numbers as bits, for any width that a usize has room for. Bit 0 is the least significant.
#![tactic(auto)]

ghost use Rattle.std.specs.Prelude.{◌≡◌, ℕ, Bool, ◌+◌, ◌*◌, ◌≤◌, ◌<◌, ◌^◌};
ghost use Rattle.bits.specs.Bits.{bit, digit, number_of};
ghost use Rattle.bits.specs.Widths.{is_width, widest};

pub mod values;

// The most bits that a register or a variable has.
pub const WIDEST: usize = 32;

// Is this a width that a port and its registers may have?
#[tactic(auto, unfolding(crate::specs::Widths::is_width))]
pub fn is_width(width: usize) -> bool
    ensures { result ≡ is_width width }
{
    matches!(width, 8 | 16 | WIDEST)
}

// Bit b of a number: false from bit 64 up, as the number has none there.
pub fn bit_of(number: usize, b: usize) -> bool
    ensures { result ≡ bit b number }
{
    b < 64 && (number >> b) % 2 == 1
}

// 2 to the power n.
pub fn power(n: usize) -> usize
    requires { n ≤ widest }
    ensures { result ≡ 2 ^ n }
{
    1usize << n
}

// A number of b bits with one bit more: one turn of a loop that makes a number from its bits, the lowest first.
pub fn with_bit(number: usize, b: usize, on: bool) -> usize
    requires { (b ≤ widest) × (number < 2 ^ widest) }
    ensures { result ≡ number + digit on * 2 ^ b }
{
    if on { number + power(b) } else { number }
}

// The number of `width` bits whose bit b is `bit(b)`.
pub fn number_of<F: Fn(usize) -> bool>(width: usize, bit: F) -> usize
    requires width_bound { width ≤ widest }
    requires callable { F.IsAlwaysCallable bit }
    ensures is { (f : ℕ → Bool) → ((b : ℕ) (on : Bool) → F.post bit b on → on ≡ f b) → result ≡ number_of width f }
    ensures small { result < 2 ^ width }
{
    let mut number = 0;
    for b in 0..width {
        number = with_bit(number, b, bit(b));
    }
    number
}
