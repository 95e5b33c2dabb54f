// Why a reading is not converted.
ghost use Rattle.std.specs.Prelude.{◌≡◌};

#[derive(Clone, Copy, PartialEq, Eq)]
pub enum Unconverted {
    Unusable,
    Infinite,
}

impl Unconverted {
    ghost use Rattle.units.specs.Unconverted.{number_of};

    // The refusal's number.
    pub fn number(self) -> usize
        ensures { result ≡ number_of self }
    {
        match self {
            Unconverted::Unusable => 53,
            Unconverted::Infinite => 54,
        }
    }
}
