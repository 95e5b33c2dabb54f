// The least and the greatest value of a type: what refusals 27 and 55 speak of.
ghost use Rattle.std.specs.Prelude.{◌≡◌, ◌≤◌, ◌<◌, pos, neg_ℤ};
ghost use Rattle.bits.specs.Values.{least, greatest};

use bits::power;

// How far below 0 the least value lies.
pub fn depth_of(kind: usize, width: usize) -> usize
    requires { width ≤ 32 }
    ensures { neg_ℤ (pos result) ≡ least kind width }
{
    let whole = power(width);
    if kind == 1 { whole / 2 } else { 0 }
}

// The greatest value of a type that has a bit.
pub fn greatest_of(kind: usize, width: usize) -> usize
    requires { (0 < width) × (width ≤ 32) }
    ensures { pos result ≡ greatest kind width }
{
    let whole = power(width);
    let depth = depth_of(kind, width);
    whole - 1 - depth
}
