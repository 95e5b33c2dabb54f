// The verdict of loading and the answer of a lookup, told in words.
ghost use Rattle.std.specs.Prelude.{◌≡◌};
ghost use Rattle.abi.specs.Loading.{ToldVerdict, found_word, Narrow};

use crate::words::{signed, write};
use loader::{Counts, Refused};

pub fn tell_verdict(verdict: Result<Counts, Refused>, words: &mut [u64]) -> u32
    ensures { ToldVerdict verdict words.old words.new result }
{
    match verdict {
        Ok(
            Counts {
                parameters,
                registers,
                variables,
            },
        ) => {
            write(
                words,
                &[1, parameters as u64, registers as u64, variables as u64],
            );
            0
        }
        Err(Refused { number, place }) => {
            write(words, &[0, number as u64, place as u64, 0]);
            number
        }
    }
}

pub fn found_word(found: Option<usize>) -> i64
    requires { Narrow found }
    ensures { result ≡ found_word found }
{
    match found {
        Some(i) => signed(i),
        None => -1,
    }
}
