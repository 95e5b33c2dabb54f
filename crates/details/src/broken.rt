// Where rules 14, 15 and 16 break: the first bit or register, in the order of the tables. Where the others break is one
// search in a table.
ghost use Rattle.std.specs.Prelude.{◌≡◌, ℕ, Option};
ghost use Rattle.bits.specs.Widths.{widest};
ghost use Rattle.details.specs.Search.{first};
ghost use Rattle.details.specs.Broken.{first_shared, bare};
ghost use Rattle.details.specs.Holders.{share_bit, share_register};

use crate::entries::register_word;
use crate::holders::{Shared, shares};
use crate::rows::holder_of;
use tables::Part;

// Of so many bits or registers, the first that another variable shares, and that variable.
#[tactic(auto, unfolding(crate::specs::Broken::first_shared))]
fn first_shared<F: Fn(usize) -> Option<u32>>(most: usize, sharing: F) -> Option<(usize, u32)>
    requires { F.IsAlwaysCallable sharing }
    ensures { (other : ℕ → Option ℕ) → ((n : ℕ) (told : Option ℕ) → F.post sharing n told → told ≡ other n) → result ≡ first_shared most other }
{
    for number in 0..most {
        if let Some(u) = sharing(number) {
            return Some((number, u));
        }
    }
    None
}

// A variable before v that has this bit too.
pub fn bit_sharer(variables: &[u32], v: u32, part: Part, bit: usize) -> Option<u32>
    ensures { result ≡ first v (share_bit variables.now v part bit) }
{
    (0..v).find(|&u| shares(variables, v, part, Shared::Bit, bit, u))
}

// Rule 14: the first bit that variable v shares with an earlier one, and the first such variable.
pub fn shared_bit(variables: &[u32], v: u32, part: Part) -> Option<(usize, u32)>
    ensures { result ≡ first_shared 4096 (λ bit. first v (share_bit variables.now v part bit)) }
{
    first_shared(4096, |bit| bit_sharer(variables, v, part, bit))
}

// A variable before v that has bits in this register too, one of the two being a trigger.
pub fn register_sharer(variables: &[u32], v: u32, part: Part, register: usize) -> Option<u32>
    ensures { result ≡ first v (share_register variables.now v part register) }
{
    (0..v).find(|&u| shares(variables, v, part, Shared::Register, register, u))
}

// Rule 15: the first register that variable v shares so with an earlier one, and the first such variable.
pub fn shared_register(variables: &[u32], v: u32, part: Part) -> Option<(usize, u32)>
    ensures { result ≡ first_shared 64 (λ register. first v (share_register variables.now v part register)) }
{
    first_shared(64, |register| register_sharer(variables, v, part, register))
}

// Is a bit a dot of a register's part that no variable maps?
pub fn is_bare(registers: &[u32], variables: &[u32], i: u32, part: Part, b: u32) -> bool
    ensures { result ≡ bare registers.now variables.now i part b }
{
    let dots = register_word(registers, i, part, 3);
    bits::bit_of(dots, b as usize) & holder_of(variables, part, i, b).is_none()
}

// Rule 16: the first such bit.
pub fn first_bare(registers: &[u32], variables: &[u32], i: u32, part: Part) -> Option<u32>
    ensures { result ≡ first widest (bare registers.now variables.now i part) }
{
    (0..32).find(|&b| is_bare(registers, variables, i, part, b))
}
