// What stands behind the first word of a line.
ghost use Rattle.std.specs.Prelude.{◌≡◌, option_copied};
ghost use Rattle.script.specs.Words.{words_of};
ghost use Rattle.replay.specs.Fields.{is_none, only_word, carried_of, count_from, lent_number, laid, power_on};

use script::{number_of, rest, word};

pub fn is_bare(tail: &[u8]) -> bool
    ensures { result ≡ is_none (words_of tail.now) }
{
    word(tail).is_empty()
}

// The only word, unless there is none or another follows.
pub fn only_word(tail: &[u8]) -> Option<&[u8]>
    ensures { option_copied result ≡ only_word (words_of tail.now) }
{
    let first = word(tail);
    if !first.is_empty() & is_bare(rest(tail)) {
        Some(first)
    } else {
        None
    }
}

// The number for a register that a word is: one of at most 32 bits.
pub fn carried(word: &[u8]) -> Option<u32>
    ensures { result ≡ carried_of word.now }
{
    u32::try_from(number_of(word)?).ok()
}

// How many numbers for registers the words are, if each is one. Each turn takes a word.
pub fn count_numbers(tail: &[u8]) -> Option<usize>
    ensures { result ≡ count_from (words_of tail.now) 0 }
{
    let mut more = tail;
    let mut count = 0;
    while !is_bare(more) {
        carried(word(more))?;
        count += 1;
        more = rest(more);
    }
    Some(count)
}

// The number for a register that a word is, and 0 where it is none.
fn lent_number(word: &[u8]) -> u32
    ensures { result ≡ lent_number word.now }
{
    carried(word).unwrap_or(0)
}

// The numbers that the words are go to the front of `numbers`, as many as it takes.
fn lay(tail: &[u8], numbers: &mut [u32])
    ensures { numbers.new ≡ laid (words_of tail.now) 0 numbers.old }
{
    let mut more = tail;
    for number in numbers.iter_mut() {
        if is_bare(more) {
            return;
        }
        *number = lent_number(word(more));
        more = rest(more);
    }
}

// The power-on numbers of an opening. No table has more registers than this has numbers.
pub fn power_on(tail: &[u8]) -> [u32; 64]
    ensures { result ≡ power_on (words_of tail.now) }
{
    let mut power = [0u32; 64];
    lay(tail, &mut power);
    power
}
