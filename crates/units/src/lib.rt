// Readings in units: the reading, taken exactly, times the gain, rounded once, plus the offset, rounded once.
#![tactic(auto)]

ghost use Rattle.std.specs.Prelude.{◌≡◌};
ghost use Rattle.units.specs.Units.{is_usable, converted};

mod patterns;
mod unconverted;

pub use patterns::{bits_of, calibration_of, line_of};
pub use unconverted::Unconverted;

#[derive(Clone, Copy)]
pub struct Calibration {
    pub gain: f64,
    pub offset: f64,
}

pub fn is_usable(c: Calibration) -> bool
    ensures { result ≡ is_usable c }
{
    c.gain.is_finite() & c.offset.is_finite()
}

// Every reading of 32 bits is a double, so that only the product and the sum are rounded.
pub fn convert(value: i64, c: Calibration) -> Result<f64, Unconverted>
    ensures { result ≡ converted value c }
{
    if !is_usable(c) {
        return Err(Unconverted::Unusable);
    }
    let reading = std::num::nearest_i64_to_f64(value);
    let product = reading * c.gain;
    let sum = product + c.offset;
    if product.is_finite() & sum.is_finite() {
        Ok(sum)
    } else {
        Err(Unconverted::Infinite)
    }
}
