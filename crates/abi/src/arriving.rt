// Texts in pieces: how many bytes of the store are taken, kept in a lent word, and the reply to a piece, told in words.
ghost use Rattle.std.specs.Prelude.{◌≡◌, [], ◌∷◌};
ghost use Rattle.abi.specs.Words.{written};
ghost use Rattle.abi.specs.Arriving.{taken_of, ToldReply};

use crate::words::write;
use loader::Refused;

// The number in the word. Where none is lent it is one above the limit, so that no piece is taken and lost.
#[tactic(auto, unfolding(crate::specs::Arriving::taken_of))]
pub fn taken_of(words: &[u64]) -> usize
    ensures { result ≡ taken_of words.now }
{
    words.get(0).copied().unwrap_or(8193) as usize
}

// Keeps the number in the word, if one is lent.
pub fn keep(words: &mut [u64], taken: usize)
    ensures { words.new ≡ written (taken ∷ []) words.old }
{
    write(words, &[taken as u64]);
}

// Tells a reply in words, and gives the refusal's number, or 0.
pub fn tell_reply(reply: Result<(), Refused>, words: &mut [u64]) -> u32
    ensures { ToldReply reply words.old words.new result }
{
    match reply {
        Ok(()) => {
            write(words, &[2, 0, 0, 0]);
            0
        }
        Err(Refused { number, place }) => {
            write(words, &[0, number as u64, place as u64, 0]);
            number
        }
    }
}
