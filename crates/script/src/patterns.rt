// A pattern of 64 bits, as a double has, written as sixteen hexadecimal digits, highest first.
ghost use Rattle.std.specs.Prelude.{◌≡◌, ◌<◌};
ghost use Rattle.script.specs.Patterns.{pattern_of, figure_of, digits_of};

use crate::numbers::digits;

pub fn pattern_of(word: &[u8]) -> Option<u64>
    ensures { result ≡ pattern_of word.now }
{
    if word.len() == 16 {
        digits(word, 16)
    } else {
        None
    }
}

fn figure(digit: u64) -> u8
    requires { digit < 16 }
    ensures { result ≡ figure_of digit }
{
    if digit < 10 {
        (48 + digit) as u8
    } else {
        (55 + digit) as u8
    }
}

// Spelled from the last digit on.
pub fn digits_of(bits: u64) -> [u8; 16]
    ensures { result ≡ digits_of bits }
{
    let mut spelled = [0u8; 16];
    let mut rest = bits;
    for i in (0..16).rev() {
        spelled[i] = figure(rest % 16);
        rest /= 16;
    }
    spelled
}
