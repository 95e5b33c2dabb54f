// Entries of the tables: where their parts start, and their names. Entries are counted in u32, so that no place can
// overflow.
ghost use Rattle.std.specs.Prelude.{◌≡◌, ◌+◌, ◌<◌, ◌^◌, eqb, get_or};
ghost use Rattle.bits.specs.Bits.{bit};
ghost use Rattle.tables.specs.Every.{Word};
ghost use Rattle.tables.specs.Tables.{count_of, parameter_width, piece_at, range_count, range_of, register_width, register_part, register_part_of, variable_part, variable_part_of, kind_of, width_of, volatile_of};
ghost use Rattle.tables.specs.View.{part_no};
ghost use Rattle.details.specs.Entries.{entry_at, name_in, Stands, alike, same_place, same_parts};

use rules::names::name_of;
use tables::words::word;
use tables::{Part, Piece};

// How many entries a table counts.
pub fn count_of(table: &[u32]) -> u32
    ensures { result ≡ count_of table.now }
{
    word(table, 0) as u32
}

// The three tables of entries.
#[derive(Clone, Copy, PartialEq, Eq)]
pub enum Entry {
    Parameter,
    Register,
    Variable,
}

impl Entry {
    // The word of its table at which entry i starts.
    fn at(self, i: u32) -> usize
        ensures { Stands (entry_at self i) result }
    {
        match self {
            Entry::Parameter => 36 * (i as usize) + 1,
            Entry::Register => 15 * (i as usize) + 1,
            Entry::Variable => 59 * (i as usize) + 1,
        }
    }

    // Word k of an entry.
    fn word(self, table: &[u32], i: u32, k: usize) -> usize
        requires { k < 2 ^ 40 }
        ensures { Word table.now (entry_at self i + k) result }
    {
        word(table, self.at(i) + k)
    }

    pub fn name<'a>(self, text: &'a [u8], table: &[u32], i: u32) -> &'a [u8]
        ensures { result.now ≡ name_in text.now table.now (entry_at self i) }
    {
        name_of(text, self.word(table, i, 0), self.word(table, i, 1))
    }

    // Where an entry's name stands in the text.
    pub fn place(self, table: &[u32], i: u32) -> usize
        ensures { Word table.now (entry_at self i) result }
    {
        self.word(table, i, 0)
    }
}

pub fn parameter_width(parameters: &[u32], i: u32) -> usize
    ensures { result ≡ parameter_width parameters.now i }
{
    Entry::Parameter.word(parameters, i, 2)
}

pub fn register_width(registers: &[u32], i: u32) -> usize
    ensures { result ≡ register_width registers.now i }
{
    Entry::Register.word(registers, i, 2)
}

pub fn variable_kind(variables: &[u32], v: u32) -> usize
    ensures { result ≡ kind_of variables.now v }
{
    Entry::Variable.word(variables, v, 2)
}

pub fn variable_width(variables: &[u32], v: u32) -> usize
    ensures { result ≡ width_of variables.now v }
{
    Entry::Variable.word(variables, v, 3)
}

pub fn variable_volatile(variables: &[u32], v: u32) -> bool
    ensures { result ≡ eqb (volatile_of variables.now v) 1 }
{
    Entry::Variable.word(variables, v, 4) == 1
}

pub fn range_count(parameters: &[u32], i: u32) -> u32
    ensures { result ≡ range_count parameters.now i }
{
    Entry::Parameter.word(parameters, i, 3) as u32
}

pub fn range_low(parameters: &[u32], i: u32, k: u32) -> usize
    ensures { result ≡ (range_of parameters.now i k).low }
{
    Entry::Parameter.word(parameters, i, 4 + 2 * (k as usize))
}

pub fn range_high(parameters: &[u32], i: u32, k: u32) -> usize
    ensures { result ≡ (range_of parameters.now i k).high }
{
    Entry::Parameter.word(parameters, i, 5 + 2 * (k as usize))
}

// The word at which a part of a register starts.
pub fn register_part(i: u32, part: Part) -> usize
    ensures { Stands (register_part i (part_no part)) result }
{
    part.of_register(i as usize)
}

// The same of a variable.
pub fn variable_part(v: u32, part: Part) -> usize
    ensures { Stands (variable_part v (part_no part)) result }
{
    part.of_variable(v as usize)
}

pub fn register_has(registers: &[u32], i: u32, part: Part) -> bool
    ensures { result ≡ (register_part_of registers.now (part_no part) i).present }
{
    word(registers, register_part(i, part)) == 1
}

pub fn variable_has(variables: &[u32], v: u32, part: Part) -> bool
    ensures { result ≡ (variable_part_of variables.now (part_no part) v).present }
{
    word(variables, variable_part(v, part)) == 1
}

// Word k of a part.
pub fn register_word(registers: &[u32], i: u32, part: Part, k: u32) -> usize
    ensures { Word registers.now (register_part i (part_no part) + k) result }
{
    word(registers, register_part(i, part) + k as usize)
}

// Bit b of word k of a part: of its dots, of what is fixed, of its ones.
pub fn mask_bit(registers: &[u32], i: u32, part: Part, k: u32, b: u32) -> bool
    ensures { result ≡ bit b (get_or registers.now (register_part i (part_no part) + k) 0) }
{
    bits::bit_of(register_word(registers, i, part, k), b as usize)
}

pub fn variable_word(variables: &[u32], v: u32, part: Part, k: u32) -> usize
    ensures { Word variables.now (variable_part v (part_no part) + k) result }
{
    word(variables, variable_part(v, part) + k as usize)
}

pub fn piece_count(variables: &[u32], v: u32, part: Part) -> u32
    ensures { result ≡ (variable_part_of variables.now (part_no part) v).count }
{
    variable_word(variables, v, part, 2) as u32
}

// The word at which piece k of a part starts.
pub fn piece_at(v: u32, part: Part, k: u32) -> usize
    ensures { Stands (piece_at (variable_part v (part_no part)) k) result }
{
    variable_part(v, part) + 3 + 3 * (k as usize)
}

pub fn piece_of(variables: &[u32], v: u32, part: Part, k: u32) -> Piece
    ensures { result ≡ (variable_part_of variables.now (part_no part) v).piece k }
{
    let at = piece_at(v, part, k);
    Piece {
        register: word(variables, at),
        high: word(variables, at + 1),
        low: word(variables, at + 2),
    }
}

// Are so many words of a table the same from two places on?
pub fn alike_words(table: &[u32], a: usize, b: usize, n: usize) -> bool
    requires { (a < 2 ^ 40) × (b < 2 ^ 40) × (n < 2 ^ 40) }
    ensures { result ≡ alike table.now a b n }
{
    (0..n).all(|k| word(table, a + k) == word(table, b + k))
}

// Have both parts of a register one place?
pub fn same_place(registers: &[u32], i: u32) -> bool
    ensures { result ≡ same_place registers.now i }
{
    let read = register_part(i, Part::Read);
    alike_words(registers, read, register_part(i, Part::Write), 3)
}

// Have both parts of a variable the same bits and the same trigger?
pub fn same_parts(variables: &[u32], v: u32) -> bool
    ensures { result ≡ same_parts variables.now v }
{
    let read = variable_part(v, Part::Read);
    alike_words(variables, read, variable_part(v, Part::Write), 27)
}
