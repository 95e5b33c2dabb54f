// An operation taken from words, and an outcome told in words.
ghost use Rattle.std.specs.Prelude.{◌≡◌, ◌<◌, ◌^◌, pos};
ghost use Rattle.abi.specs.Words.{written, no_operation, of_kind, operation_of, operation_words, answer_words, refusal_number};
ghost use Rattle.abi.specs.Told.{Told, Small, is_left};

use station::{Access, Answer, Operation, Outcome};

// ---- the operation in hand

// What words that are no operation stand for.
fn no_operation() -> Operation
    ensures { result ≡ no_operation }
{
    Operation::Reading {
        variable: 4294967296,
        step: 0,
        gathered: 0,
    }
}

#[tactic(auto, unfolding(crate::specs::Words::of_kind))]
fn of_kind(kind: u64, variable: usize, step: usize, bits: usize) -> Operation
    ensures { result ≡ of_kind kind variable step bits }
{
    match kind {
        0 => Operation::Idle,
        1 => Operation::Reading {
            variable,
            step,
            gathered: bits,
        },
        2 => Operation::Writing {
            variable,
            step,
            value: bits,
        },
        _ => no_operation(),
    }
}

#[tactic(auto, unfolding(crate::specs::Words::operation_of))]
pub fn operation_of(words: &[u64]) -> Operation
    ensures { result ≡ operation_of words.now }
{
    if words.len() < 4 {
        return no_operation();
    }
    of_kind(
        words[0],
        words[1] as usize,
        words[2] as usize,
        words[3] as usize,
    )
}

// Writes words from a slice's front on; those that it has no room for are lost. Each has its own test, as few are told:
// they are stores then, and no copy of a length that is known at the call alone.
pub fn write<T: Copy>(words: &mut [T], told: &[T])
    ensures { words.new ≡ written told.now words.old }
{
    for i in 0..told.len() {
        if i < words.len() {
            words[i] = told[i];
        }
    }
}

pub fn tell_operation(operation: Operation, words: &mut [u64])
    ensures { words.new ≡ written (operation_words operation) words.old }
{
    match operation {
        Operation::Idle => write(words, &[0, 0, 0, 0]),
        Operation::Reading {
            variable,
            step,
            gathered,
        } => write(words, &[1, variable as u64, step as u64, gathered as u64]),
        Operation::Writing {
            variable,
            step,
            value,
        } => write(words, &[2, variable as u64, step as u64, value as u64]),
    }
}

// ---- the answer

// A number of the station's as a word of an answer.
pub fn signed(number: usize) -> i64
    requires { number < 2 ^ 32 }
    ensures { result ≡ pos number }
{
    number as i64
}

fn tell_offer(access: Access, words: &mut [i64])
    requires { Small (Answer.Offer access) }
    ensures { words.new ≡ written (answer_words (Answer.Offer access)) words.old }
{
    let direction = signed(access.direction.number());
    let parameter = signed(access.parameter);
    let offset = signed(access.offset);
    let byte = signed(access.byte as usize);
    write(words, &[2, direction, parameter, offset, byte]);
}

pub fn tell_answer(answer: Answer, words: &mut [i64])
    requires { Small answer }
    ensures { words.new ≡ written (answer_words answer) words.old }
{
    match answer {
        Answer::Refused(number) => write(words, &[0, signed(number), 0, 0, 0]),
        Answer::Opened => write(words, &[1, 0, 0, 0, 0]),
        Answer::Offer(access) => tell_offer(access, words),
        Answer::Done { value, accesses } => write(words, &[3, value, signed(accesses), 0, 0]),
        Answer::Abandoned => write(words, &[4, 0, 0, 0, 0]),
        Answer::Stopped { number, register } => {
            write(words, &[5, signed(number), signed(register), 0, 0])
        }
    }
}

pub fn refusal_number(answer: Answer) -> usize
    ensures { result ≡ refusal_number answer }
{
    match answer {
        Answer::Refused(number) | Answer::Stopped { number, .. } => number,
        Answer::Opened | Answer::Offer(_) | Answer::Done { .. } | Answer::Abandoned => 0,
    }
}

// Does the answer leave the operation's words as they were?
pub fn is_left(answer: Answer) -> bool
    ensures { result ≡ is_left answer }
{
    matches!(answer, Answer::Refused(_))
}

// ---- the outcome

#[tactic(auto, unfolding(crate::specs::Told::operation_left))]
pub fn tell(outcome: Outcome, operation: &mut [u64], answer: &mut [i64]) -> u64
    requires { Small outcome.answer }
    ensures { Told outcome.answer outcome.operation operation.old answer.old
        operation.new answer.new result }
{
    tell_answer(outcome.answer, answer);
    if !is_left(outcome.answer) {
        tell_operation(outcome.operation, operation);
    }
    refusal_number(outcome.answer) as u64
}
