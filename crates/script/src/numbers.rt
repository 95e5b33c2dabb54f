// Numbers as a script writes them: decimal digits, or `0x` and hexadecimal ones.
ghost use Rattle.std.specs.Prelude.{◌≡◌, ◌≤◌};
ghost use Rattle.script.specs.Numbers.{figures, number_of, natural, negated, value_of};

// The number that some digits are, unless one of them is none or the number does not fit.
pub fn digits(word: &[u8], radix: u32) -> Option<u64>
    requires { (2 ≤ radix) × (radix ≤ 16) }
    ensures { result ≡ figures radix word.now }
{
    if word.is_empty() {
        return None;
    }
    let mut value: u64 = 0;
    for &b in word {
        let digit = char::from(b).to_digit(radix)?;
        value = value
            .checked_mul(u64::from(radix))?
            .checked_add(u64::from(digit))?;
    }
    Some(value)
}

// The natural number that a word is.
pub fn number_of(word: &[u8]) -> Option<u64>
    ensures { result ≡ number_of word.now }
{
    match word.strip_prefix(b"0x") {
        Some(figures) => digits(figures, 16),
        None => digits(word, 10),
    }
}

// The value that a word is: a number, perhaps behind a minus.
pub fn value_of(word: &[u8]) -> Option<i64>
    ensures { result ≡ value_of word.now }
{
    match word.strip_prefix(b"-") {
        Some(size) => 0i64.checked_sub_unsigned(number_of(size)?),
        None => i64::try_from(number_of(word)?).ok(),
    }
}
