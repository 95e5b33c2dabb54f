// Why a call is refused: the numbers of document 01, with 02's 55.
ghost use Rattle.std.specs.Prelude.{◌≡◌};
ghost use Rattle.station.specs.Standing.{refusal_no};

#[derive(Clone, Copy, PartialEq, Eq)]
pub enum Refusal {
    Unsound = 20,
    TooShort = 21,
    NotAllowed = 22,
    OneInHand = 23,
    NoneInHand = 24,
    NoVariable = 25,
    NoPart = 26,
    Below = 27,
    HalfWritten = 28,
    Above = 55,
}

impl Refusal {
    pub fn number(self) -> usize
        ensures { result ≡ refusal_no self }
    {
        self as usize
    }
}
