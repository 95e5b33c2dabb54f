// What loading answers: the counts of what a text declares, or the refusal that it meets.
ghost use Rattle.std.specs.Prelude.{◌≡◌};

use rules::Fault;
use token::Refusal;

// How many parameters, registers and variables an accepted text declares.
#[derive(Clone, Copy, PartialEq, Eq)]
pub struct Counts {
    pub parameters: u32,
    pub registers: u32,
    pub variables: u32,
}

// The number of a refusal, 1 to 16, and the place in the text that is named with it.
#[derive(Clone, Copy, PartialEq, Eq)]
pub struct Refused {
    pub number: u32,
    pub place: usize,
}

// 1: a lent table is shorter than its stated size. It is of no place in the text, and so is 2.
pub const SHORT: Refused = Refused {
    number: 1,
    place: 0,
};

// 2: the text is over 8,192 bytes.
pub const LONG: Refused = Refused {
    number: 2,
    place: 0,
};

// 3 to 5: what stopped the reading.
impl From<Refusal> for Refused {
    ghost from_gives = { λ r refused. refused ≡ record { number = r.number; place = r.place } };

    fn from(refusal: Refusal) -> Refused {
        Refused {
            number: u32::from(refusal.number),
            place: refusal.place,
        }
    }
}

// 6 to 15: the rule that is broken.
impl From<Fault> for Refused {
    ghost from_gives = { λ f refused. refused ≡ record { number = f.number; place = f.place } };

    fn from(fault: Fault) -> Refused {
        Refused {
            number: fault.number,
            place: fault.place,
        }
    }
}
