// A refusal tells its number, as a caller asks it: those of 01's table that a token or a reason gives, and one that no
// reason has. What differs ends the test as an error: the number, and what was due.
use crate::{Reason, Refusal, Token, scan};

#[test]
fn refusals_tell_their_numbers() -> Result<(), (u8, u8)> {
    let told = Refusal {
        number: 9,
        place: 7,
    };
    for (refusal, due) in [
        (scan(b"?", 0).token.refusal(), 3),
        (scan(b"register", 0).token.refusal(), 4),
        (Token::End(9).refusal(), 4),
        (
            Refusal {
                number: Reason::TooMuch.number(),
                place: 16,
            },
            5,
        ),
        (told, 9),
    ] {
        if refusal.number() != due {
            return Err((refusal.number(), due));
        }
    }
    Ok(())
}
