// What a line of a script asks for.
ghost use Rattle.std.specs.Prelude.{◌≡◌, ℕ};
ghost use Rattle.script.specs.Words.{words_of};
ghost use Rattle.replay.specs.declared.call.Request.TheVariants.{Open, Read, Confirm};
ghost use Rattle.script.specs.Numbers.{number_of};
ghost use Rattle.replay.specs.Fields.{carried_of, count_from};
ghost use Rattle.replay.specs.Calls.{with_number, only, bare_of, lookup_of, write_of, calibrated_of, operations, amount_of, lend_of, in_hand_lem, held_of, holding, hold_of, chosen, call_by, is_skipped, call_of};

use crate::fields::{carried, count_numbers, is_bare, only_word};
use script::{is, number_of, pattern_of, rest, value_of, word};
use station::Operation;
use units::{Calibration, calibration_of};

// A call of the station. An opening has so many power-on numbers.
#[derive(Clone, Copy)]
pub enum Request {
    Open(usize),
    Read(usize),
    Write(usize, i64),
    Confirm(u32),
    Abandon,
    // A read in units.
    Calibrated(usize, Calibration),
}

#[derive(Clone, Copy)]
pub enum Call {
    // A blank line or a comment.
    Nothing,
    Station(Request),
    // The name is the word that follows, or empty.
    Lookup,
    State,
    LendRecord(usize),
    LendMarks(usize),
    Hold(Operation),
    Unknown,
}

// A call that nothing may follow.
#[tactic(auto, unfolding(crate::specs::Calls::bare_of))]
fn bare(tail: &[u8], call: Call) -> Option<Call>
    ensures { result ≡ bare_of (words_of tail.now) call }
{
    is_bare(tail).then_some(call)
}

fn lookup_of(tail: &[u8]) -> Option<Call>
    ensures { result ≡ lookup_of (words_of tail.now) }
{
    if is_bare(tail) {
        Some(Call::Lookup)
    } else {
        bare(rest(tail), Call::Lookup)
    }
}

fn write_of(tail: &[u8]) -> Option<Call>
    ensures { result ≡ write_of (words_of tail.now) }
{
    let variable = number_of(word(tail))?;
    let value = value_of(only_word(rest(tail))?)?;
    Some(Call::Station(Request::Write(variable as usize, value)))
}

fn calibrated_of(tail: &[u8]) -> Option<Call>
    ensures { result ≡ calibrated_of (words_of tail.now) }
{
    let variable = number_of(word(tail))?;
    let patterns = rest(tail);
    let gain = pattern_of(word(patterns))?;
    let offset = pattern_of(only_word(rest(patterns))?)?;
    let calibration = calibration_of(gain, offset);
    Some(Call::Station(Request::Calibrated(variable as usize, calibration)))
}

#[tactic(auto, unfolding(crate::specs::Calls::with_number))]
fn read_of(tail: &[u8]) -> Option<Call>
    ensures { result ≡ with_number (only number_of (words_of tail.now)) Read }
{
    let variable = number_of(only_word(tail)?)?;
    Some(Call::Station(Request::Read(variable as usize)))
}

#[tactic(auto, unfolding(crate::specs::Calls::with_number))]
fn confirm_of(tail: &[u8]) -> Option<Call>
    ensures { result ≡ with_number (only carried_of (words_of tail.now)) Confirm }
{
    Some(Call::Station(Request::Confirm(carried(only_word(tail)?)?)))
}

// The calls that begin, go on with or end an operation, tried in the order in which the definition lists them.
#[tactic(auto, unfolding(crate::specs::Calls::chosen))]
fn operation_of(verb: &[u8], tail: &[u8]) -> Option<Call>
    ensures { result ≡ chosen (operations verb.now (words_of tail.now)) }
{
    if is(verb, b"read") {
        read_of(tail)
    } else if is(verb, b"write") {
        write_of(tail)
    } else if is(verb, b"confirm") {
        confirm_of(tail)
    } else if is(verb, b"abandon") {
        bare(tail, Call::Station(Request::Abandon))
    } else if is(verb, b"calibrated") {
        calibrated_of(tail)
    } else {
        None
    }
}

// How much is lent: a number of bytes, or all.
fn amount(tail: &[u8]) -> Option<u64>
    ensures { result ≡ amount_of (words_of tail.now) }
{
    if is(word(tail), b"all") & is_bare(rest(tail)) {
        Some(u64::MAX)
    } else {
        number_of(only_word(tail)?)
    }
}

fn lend_of(tail: &[u8]) -> Option<Call>
    ensures { result ≡ lend_of (words_of tail.now) }
{
    let what = word(tail);
    let count = amount(rest(tail))? as usize;
    if is(what, b"record") {
        Some(Call::LendRecord(count))
    } else if is(what, b"marks") {
        Some(Call::LendMarks(count))
    } else {
        None
    }
}

// An operation of one of two kinds, as its definition has them by a flag.
#[tactic(auto, unfolding(crate::specs::Calls::in_hand_lem))]
fn in_hand(reading: bool, variable: usize, step: usize, pattern: usize) -> Operation
    ensures { result ≡ in_hand_lem reading variable step pattern }
{
    if reading {
        Operation::Reading {
            variable,
            step,
            gathered: pattern,
        }
    } else {
        Operation::Writing {
            variable,
            step,
            value: pattern,
        }
    }
}

// An operation in hand: the variable, the step, and a pattern of 32 bits.
fn held_of(reading: bool, tail: &[u8]) -> Option<Call>
    ensures { result ≡ held_of reading (words_of tail.now) }
{
    let variable = number_of(word(tail))? as usize;
    let second = rest(tail);
    let step = number_of(word(second))? as usize;
    let pattern = carried(only_word(rest(second))?)? as usize;
    Some(Call::Hold(in_hand(reading, variable, step, pattern)))
}

#[tactic(auto, unfolding(crate::specs::Calls::holding, crate::specs::Calls::chosen))]
fn hold_as(what: &[u8], tail: &[u8]) -> Option<Call>
    ensures { result ≡ holding what.now (words_of tail.now) }
{
    if is(what, b"idle") {
        bare(tail, Call::Hold(Operation::Idle))
    } else if is(what, b"read") {
        held_of(true, tail)
    } else if is(what, b"write") {
        held_of(false, tail)
    } else {
        None
    }
}

fn hold_of(tail: &[u8]) -> Option<Call>
    ensures { result ≡ hold_of (words_of tail.now) }
{
    hold_as(word(tail), rest(tail))
}

#[tactic(auto, unfolding(crate::specs::Calls::with_number))]
fn open_of(tail: &[u8]) -> Option<Call>
    ensures { result ≡ with_number (count_from (words_of tail.now) 0) Open }
{
    Some(Call::Station(Request::Open(count_numbers(tail)?)))
}

#[tactic(auto, unfolding(crate::specs::Calls::call_by, crate::specs::Calls::chosen))]
fn call_by(verb: &[u8], tail: &[u8]) -> Option<Call>
    ensures { result ≡ call_by verb.now (words_of tail.now) }
{
    if is(verb, b"open") {
        open_of(tail)
    } else if is(verb, b"lookup") {
        lookup_of(tail)
    } else if is(verb, b"state") {
        bare(tail, Call::State)
    } else if is(verb, b"lend") {
        lend_of(tail)
    } else if is(verb, b"hold") {
        hold_of(tail)
    } else {
        operation_of(verb, tail)
    }
}

// A line without a word, or with a comment, asks for nothing.
#[tactic(auto, unfolding(crate::specs::Calls::is_skipped))]
fn is_skipped(first: &[u8]) -> bool
    ensures { result ≡ is_skipped first.now }
{
    first.is_empty() || first[0] == b';'
}

pub fn call_of(line: &[u8]) -> Call
    ensures { result ≡ call_of (words_of line.now) }
{
    let verb = word(line);
    if is_skipped(verb) {
        Call::Nothing
    } else {
        call_by(verb, rest(line)).unwrap_or(Call::Unknown)
    }
}
