// Doubles as patterns of 64 bits, as they come in from other programs.
ghost use Rattle.std.specs.Prelude.{◌≡◌, from_bits};
ghost use Rattle.std.specs.Float.{binary64};
ghost use Rattle.std.specs.Float.Ieee.{nan_bits};
ghost use Rattle.units.specs.Lines.{calibration_of, bits_of, line_of};

use crate::{Calibration, Unconverted, convert};

fn has_nan(bits: u64) -> bool
    ensures { result ≡ nan_bits binary64 bits }
{
    (bits % 0x8000_0000_0000_0000 / 0x0010_0000_0000_0000 == 2047)
        & (bits % 0x0010_0000_0000_0000 != 0)
}

// Every pattern that is no number is the one NaN.
fn float_of(bits: u64) -> f64
    ensures { result ≡ from_bits binary64 bits }
{
    if has_nan(bits) {
        f64::NAN
    } else {
        f64::from_bits(bits)
    }
}

pub fn calibration_of(gain: u64, offset: u64) -> Calibration
    ensures { result ≡ calibration_of gain offset }
{
    Calibration {
        gain: float_of(gain),
        offset: float_of(offset),
    }
}

// The pattern of a double; one for what is no number.
pub fn bits_of(x: f64) -> u64
    ensures { result ≡ bits_of x }
{
    if x.is_nan() {
        0x7ff8_0000_0000_0000
    } else {
        f64::to_bits(x)
    }
}

// What one record of the program's input comes to: the result's 64 bits, or why there are none.
pub fn line_of(gain: u64, offset: u64, reading: u32) -> Result<u64, Unconverted>
    ensures { result ≡ line_of gain offset reading }
{
    convert(i64::from(reading), calibration_of(gain, offset)).map(bits_of)
}
