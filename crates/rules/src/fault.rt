// A rule that a declaration breaks, or none. The first of two is `or` of them, so rules listed by it keep the order of
// document 01.
ghost use Rattle.std.specs.Prelude.{◌≡◌};
ghost use Rattle.rules.specs.Fault.{fault_if, fault_of};

// The number of the rule, and the place that is named with it.
#[derive(Clone, Copy, PartialEq, Eq)]
pub struct Fault {
    pub number: u32,
    pub place: usize,
}

// A rule broken at a place, if the test says so.
#[tactic(auto, unfolding(crate::specs::Fault::fault_if))]
pub fn fault_if(broken: bool, number: u32, place: usize) -> Option<Fault>
    ensures { result ≡ fault_if broken number place }
{
    broken.then_some(Fault { number, place })
}

// The rule of this number, broken at a place; 0 is no rule's.
#[tactic(auto, unfolding(crate::specs::Fault::fault_of))]
pub fn fault_of(number: u32, place: usize) -> Option<Fault>
    ensures { result ≡ fault_of number place }
{
    fault_if(number != 0, number, place)
}
