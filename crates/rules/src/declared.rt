// Rule 6: one name space for all.
ghost use Rattle.std.specs.Prelude.{◌≡◌};

use crate::fault::{Fault, fault_if};
use crate::names::{find, name_of, stands_at};

// The device's name, and the first rule broken, if one is: the state of the judging but for the tables.
#[derive(Clone, Copy)]
pub struct Judging {
    pub place: usize,
    pub extent: usize,
    pub fault: Option<Fault>,
}

// What is declared so far, in its text.
#[derive(Clone, Copy)]
pub struct Known<'a> {
    pub text: &'a [u8],
    pub judging: Judging,
    pub parameters: &'a [u32],
    pub registers: &'a [u32],
    pub variables: &'a [u32],
}

impl Known<'_> {
    ghost use Rattle.rules.specs.Names.{declared_before, Fresh};
    ghost use Rattle.rules.specs.State.{state_in};

    // Rule 6, of a name that is declared at a place. There is nothing to search for where the caller knows that it is
    // fresh.
    #[tactic(auto, unfolding(crate::specs::Names::declared_before, crate::specs::Names::is_declared, crate::specs::State::state_of, crate::specs::Fault::fault_if))]
    pub fn declared_before(self, place: usize, extent: usize, fresh: bool) -> Option<Fault>
        requires { Fresh fresh self.text.now (state_in self) place extent }
        ensures { result ≡ declared_before self.entry.text.now (state_in self.entry) place extent }
    {
        if fresh {
            return None;
        }
        let name = name_of(self.text, place, extent);
        let device = stands_at(self.text, self.judging.place, self.judging.extent, name);
        let parameter = find(self.text, self.parameters, 36, name).is_some();
        let register = find(self.text, self.registers, 15, name).is_some();
        let variable = find(self.text, self.variables, 59, name).is_some();
        fault_if(device | parameter | register | variable, 6, place)
    }
}
