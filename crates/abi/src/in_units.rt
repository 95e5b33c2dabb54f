// An outcome in units told in words: a double crosses as the two halves of its 64 bits.
ghost use Rattle.std.specs.Prelude.{◌≡◌, ◌<◌, ◌^◌};
ghost use Rattle.units.specs.Lines.{bits_of};
ghost use Rattle.abi.specs.Words.{written};
ghost use Rattle.abi.specs.InUnits.{reading_words, unit_words, unit_number, is_left_in, SmallIn, ToldIn};

use crate::words::{is_left, refusal_number, signed, tell_answer, tell_operation, write};
use calibrated::{InUnits, OutcomeInUnits};

#[tactic(auto, unfolding(crate::specs::InUnits::reading_words))]
fn tell_reading(value: f64, accesses: usize, words: &mut [i64])
    requires { accesses < 2 ^ 32 }
    ensures { words.new ≡ written (reading_words (bits_of value) accesses) words.old }
{
    let bits = units::bits_of(value) as usize;
    let high = signed(bits / 4294967296);
    let low = signed(bits % 4294967296);
    write(words, &[6, high, low, signed(accesses), 0]);
}

#[tactic(auto, unfolding(crate::specs::InUnits::unit_words))]
fn tell_in(answer: InUnits, words: &mut [i64])
    requires { SmallIn answer }
    ensures { words.new ≡ written (unit_words answer) words.old }
{
    match answer {
        InUnits::Reading { value, accesses } => tell_reading(value, accesses, words),
        InUnits::Stopped(number) => write(words, &[5, signed(number), 0, 0, 0]),
        InUnits::Same(same) => tell_answer(same, words),
    }
}

fn unit_number(answer: InUnits) -> usize
    ensures { result ≡ unit_number answer }
{
    match answer {
        InUnits::Reading { .. } => 0,
        InUnits::Stopped(number) => number,
        InUnits::Same(same) => refusal_number(same),
    }
}

fn is_left_in(answer: InUnits) -> bool
    ensures { result ≡ is_left_in answer }
{
    match answer {
        InUnits::Reading { .. } | InUnits::Stopped(_) => false,
        InUnits::Same(same) => is_left(same),
    }
}

#[tactic(auto, unfolding(crate::specs::InUnits::operation_now))]
pub fn tell_units(outcome: OutcomeInUnits, operation: &mut [u64], answer: &mut [i64]) -> u64
    requires { SmallIn outcome.answer }
    ensures { ToldIn outcome.answer outcome.operation operation.old answer.old
        operation.new answer.new result }
{
    tell_in(outcome.answer, answer);
    if !is_left_in(outcome.answer) {
        tell_operation(outcome.operation, operation);
    }
    unit_number(outcome.answer) as u64
}
