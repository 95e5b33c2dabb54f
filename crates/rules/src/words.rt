// Storing words into a lent table.
ghost use Rattle.std.specs.Prelude.{◌≡◌, ◌+◌, ◌<◌, ◌^◌, length, set};
ghost use Rattle.rules.specs.Words.{word_of, written};

// Stores a word; nothing past the table's end, so no caller has to speak of lengths.
pub fn put(table: &mut [u32], at: usize, word: u32)
    ensures { table.new ≡ set table.old at word }
{
    if at < table.len() {
        table[at] = word;
    }
}

// Stores words one after the other.
pub fn store(table: &mut [u32], at: usize, words: &[u32])
    requires at_bound { at < 2 ^ 40 }
    requires words_len_bound { length words.now < 2 ^ 32 }
    ensures { table.new ≡ written table.old at words.now }
{
    for (k, word) in words.iter().enumerate() {
        put(table, at + k, *word);
    }
}

// Counts one more entry, once it is written.
#[tactic(auto, unfolding(crate::specs::Words::word_of))]
pub fn count_one(table: &mut [u32], count: usize)
    requires { count < 2 ^ 32 }
    ensures { table.new ≡ set table.old 0 (word_of (count + 1)) }
{
    put(table, 0, narrow(count + 1));
}

// A number as a word. Places and counts of a text are far below what a word can hold.
#[tactic(auto, unfolding(crate::specs::Words::word_of))]
pub fn narrow(number: usize) -> u32
    ensures { result ≡ word_of number }
{
    number.min(u32::MAX as usize) as u32
}
