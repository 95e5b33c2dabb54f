// Masks, as numbers.
ghost use Rattle.std.specs.Prelude.{◌≡◌, ◌≤◌, ℕ, Bool};
ghost use Rattle.bits.specs.Widths.{widest};
ghost use Rattle.rules.specs.Mask.{bits_held, elements, mask_of, all_dots, mask_at};

use crate::names;

// A mask as the tables hold it.
#[derive(Clone, Copy)]
pub struct Mask {
    pub dots: u32,
    pub fixed: u32,
    pub ones: u32,
}

// How many bits the numbers of a mask have.
#[tactic(auto, unfolding(crate::specs::Mask::bits_held))]
fn bits_held(width: usize) -> usize
    ensures is { result ≡ bits_held width }
    ensures inside { result ≤ width }
    ensures most { result ≤ widest }
{
    width.min(bits::WIDEST)
}

// The bits at which such an element stands, in a mask of `width` elements with its opening quote.
fn elements_of<F: Fn(u8) -> bool>(mask: &[u8], width: usize, is_element: F) -> u32
    requires { F.IsAlwaysCallable is_element }
    ensures { (p : ℕ → Bool) → ((byte : ℕ) (on : Bool) → F.post is_element byte on → on ≡ p byte) → result ≡ elements width mask.now p }
{
    let number = bits::number_of(
        bits_held(width),
        |b| is_element(mask.get(width.saturating_sub(b)).copied().unwrap_or(0)),
    );
    number as u32
}

fn mask_of(mask: &[u8], width: usize) -> Mask
    ensures { result ≡ mask_of width mask.now }
{
    Mask {
        dots: elements_of(mask, width, |byte| byte == b'.'),
        fixed: elements_of(mask, width, |byte| (byte == b'0') | (byte == b'1')),
        ones: elements_of(mask, width, |byte| byte == b'1'),
    }
}

// Without a mask every bit is a dot.
#[tactic(auto, unfolding(crate::specs::Mask::all_dots))]
fn all_dots(width: usize) -> Mask
    ensures { result ≡ all_dots width }
{
    let held = bits_held(width);
    let limit = bits::power(held);
    let dots = (limit - 1) as u32;
    Mask {
        dots,
        fixed: 0,
        ones: 0,
    }
}

// The mask of `width` elements whose opening quote stands at a place, where one is given.
#[tactic(auto, unfolding(crate::specs::Mask::mask_at))]
pub fn mask_at(text: &[u8], width: u32, quote: Option<usize>) -> Mask
    ensures { result ≡ mask_at text.now width quote }
{
    let wide = width as usize;
    match quote {
        Some(place) => mask_of(names::name_of(text, place, wide + 1), wide),
        None => all_dots(wide),
    }
}
