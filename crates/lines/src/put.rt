// Bytes put into a lent buffer one after the other. Nothing is stored past the buffer's end.
ghost use Rattle.std.specs.Prelude.{◌≡◌, ◌++◌, ◌<◌, ◌≤◌, ◌+◌, ◌^◌, length, drop, set};
ghost use Rattle.token.specs.Bytes.{bytes};
ghost use Rattle.lines.specs.Lines.{decimal, numbered, Put};

// Stores a byte, if the buffer has its place.
fn put(out: &mut [u8], at: usize, byte: u8)
    ensures { out.new ≡ set out.old at byte }
{
    if at < out.len() {
        out[at] = byte;
    }
}

// Puts bytes, and answers the place behind them.
pub fn put_bytes(out: &mut [u8], at: usize, what: &[u8]) -> usize
    requires at_bound { at < 2 ^ 32 }
    requires what_len_bound { length what.now < 2 ^ 32 }
    ensures { Put out.old at what.now out.new result }
{
    for (k, byte) in what.iter().enumerate() {
        put(out, at + k, *byte);
    }
    at + what.len()
}

// The digits of a number, at the end of twenty bytes; where they start. The number and the place go down together, and
// either ends the loop, so that no range counts it.
fn spell(number: u64, digits: &mut [u8]) -> usize
    requires { length digits.old ≡ 20 }
    ensures { (result < 20) × (drop result digits.new ≡ decimal number) }
{
    let mut rest = number;
    let mut i = 20;
    while (10 <= rest) & (1 < i) {
        i -= 1;
        put(digits, i, b'0' + (rest % 10) as u8);
        rest /= 10;
    }
    i -= 1;
    put(digits, i, b'0' + (rest % 10) as u8);
    i
}

fn put_decimal(out: &mut [u8], at: usize, number: u64) -> usize
    requires { at < 2 ^ 32 }
    ensures { Put out.old at (decimal number) out.new result }
{
    let mut digits = [0u8; 20];
    let start = spell(number, &mut digits);
    put_bytes(out, at, &digits[start..])
}

// Puts a word and a number after it. They take a few bytes, so that a line can go on behind them.
pub fn put_number(out: &mut [u8], at: usize, word: &[u8], number: u64) -> usize
    requires at_bound { at < 2 ^ 16 }
    requires word_len_bound { length word.now < 2 ^ 16 }
    ensures stored { Put out.old at (numbered word.now number) out.new result }
    ensures near { result ≤ at + length word.now + 20 }
{
    let behind = put_bytes(out, at, word);
    put_decimal(out, behind, number)
}

// Puts a word and two numbers after it, with a blank between them.
pub fn put_numbers(out: &mut [u8], word: &[u8], first: u64, second: u64) -> usize
    requires { length word.now < 2 ^ 15 }
    ensures stored { Put out.old 0 (numbered word.now first ++ numbered (bytes " ") second) out.new result }
    ensures near { result ≤ length word.now + 41 }
{
    let behind = put_number(out, 0, word, first);
    put_number(out, behind, b" ", second)
}
