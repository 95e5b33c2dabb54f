// The tests that a call makes first.
ghost use Rattle.std.specs.Prelude.{◌≡◌, ◌<◌};
ghost use Rattle.tables.specs.Words.{word_at};
ghost use Rattle.tables.specs.View.{part_no};
ghost use Rattle.station.specs.Variable.{Sound};
ghost use Rattle.station.specs.Standing.{tables_of, due, allowed, fault_of};
ghost use Rattle.station.specs.Station.{begin_fault, open_fault};

use crate::Operation;
use crate::refusal::Refusal;
use crate::variable::Variable;
use tables::Part;
use tables::words::word;

// What a call is lent: of the record and the marks only the lengths count here.
#[derive(Clone, Copy)]
pub struct Lent<'a> {
    pub parameters: &'a [u32],
    pub registers: &'a [u32],
    pub variables: &'a [u32],
    pub held: usize,
    pub marks: usize,
    pub operation: Operation,
}

impl<'a> Lent<'a> {
    // The variable of this number, on sound tables.
    pub fn variable(&self, number: usize) -> Variable<'a>
        requires sound { Sound self.now.registers.now self.now.variables.now }
        requires inside { number < word_at self.now.variables.now 0 }
        ensures registers { result.registers.now ≡ self.now.registers.now }
        ensures variables { result.variables.now ≡ self.now.variables.now }
        ensures number { result.number ≡ number }
    {
        Variable {
            registers: self.registers,
            variables: self.variables,
            number,
        }
    }

    // An access of this variable and part is due at this step.
    #[tactic(auto, unfolding(crate::specs::Standing::due))]
    fn is_due(&self, number: usize, part: Part, step: usize) -> bool
        requires { Sound self.now.registers.now self.now.variables.now }
        ensures { result ≡ due self.now.variables.now number (part_no part) step }
    {
        if word(self.variables, 0) <= number {
            return false;
        }
        let variable = self.variable(number);
        variable.has_part(part) && step < variable.access_count(part)
    }

    // The operation in hand is one that these tables allow.
    #[tactic(auto, unfolding(crate::specs::Standing::allowed))]
    fn is_allowed(&self) -> bool
        requires { Sound self.now.registers.now self.now.variables.now }
        ensures { result ≡ allowed self.now.variables.now self.now.operation }
    {
        match self.operation {
            Operation::Idle => true,
            Operation::Reading {
                variable,
                step,
                gathered,
            } => {
                self.is_due(variable, Part::Read, step)
                    && self.variable(variable).is_gathered(step, gathered)
            }
            Operation::Writing {
                variable,
                step,
                value,
            } => {
                self.is_due(variable, Part::Write, step)
                    && value < bits::power(self.variable(variable).width())
            }
        }
    }

    // Refusals 20, 21 and 22, which every call on an open station tests first.
    #[tactic(auto, unfolding(crate::specs::Standing::fault_of))]
    pub fn check(&self) -> Result<(), Refusal>
        ensures { result ≡ fault_of (tables_of self.now.parameters.now self.now.registers.now self.now.variables.now)
            self.now.held self.now.marks self.now.operation }
    {
        if !tables::whole::sound(self.parameters, self.registers, self.variables) {
            return Err(Refusal::Unsound);
        }
        if self.held < word(self.registers, 0) || self.marks < word(self.variables, 0) {
            return Err(Refusal::TooShort);
        }
        if !self.is_allowed() {
            return Err(Refusal::NotAllowed);
        }
        Ok(())
    }

    // What both begins test: 20 to 22, and then 23, 25 and 26.
    #[tactic(auto, unfolding(crate::specs::Station::begin_fault, crate::specs::Standing::or_next))]
    pub fn check_begin(&self, number: usize, part: Part) -> Result<(), Refusal>
        ensures { result ≡ begin_fault (tables_of self.now.parameters.now self.now.registers.now self.now.variables.now)
            self.now.held self.now.marks self.now.operation number (part_no part) }
    {
        self.check()?;
        if self.operation.is_in_hand() {
            return Err(Refusal::OneInHand);
        }
        if word(self.variables, 0) <= number {
            return Err(Refusal::NoVariable);
        }
        if !self.variable(number).has_part(part) {
            return Err(Refusal::NoPart);
        }
        Ok(())
    }

    // An opening's tests: 20 and 21. What is in hand does not count, since an opening ends it.
    #[tactic(auto, unfolding(crate::specs::Station::open_fault, crate::specs::Standing::or_next))]
    pub fn check_opening(&self, power: usize) -> Result<(), Refusal>
        ensures { result ≡ open_fault (tables_of self.now.parameters.now self.now.registers.now self.now.variables.now)
            power self.now.held self.now.marks }
    {
        let opening = Lent {
            operation: Operation::Idle,
            ..*self
        };
        opening.check()?;
        if power < word(self.registers, 0) {
            return Err(Refusal::TooShort);
        }
        Ok(())
    }
}
