// What the modifiers `read` (1) and `write` (2) may say: the same of ports and of bit lists, and the same of masks and
// of triggers.
ghost use Rattle.std.specs.Prelude.{◌≡◌};
ghost use Rattle.rules.specs.Modifiers.{are_paired, at_most_one};

// One alone with any modifier, or one `read` and one `write` in either order.
#[tactic(auto, unfolding(crate::specs::Modifiers::are_paired))]
pub fn are_paired(alone: bool, first: u8, second: u8) -> bool
    ensures { result ≡ are_paired alone first second }
{
    alone | ((first == 1) & (second == 2)) | ((first == 2) & (second == 1))
}

// For a part: at most one, a bare one counting too; none of its own where the part is missing.
#[tactic(auto, unfolding(crate::specs::Modifiers::at_most_one))]
pub fn at_most_one(present: bool, bare: u8, own: u8) -> bool
    ensures { result ≡ at_most_one present bare own }
{
    if present {
        (bare as u32) + (own as u32) <= 1
    } else {
        own == 0
    }
}
