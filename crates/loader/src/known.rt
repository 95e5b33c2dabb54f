// The names that are declared so far, as a map of marks: one that has no mark is new, and is not searched for.
ghost use Rattle.std.specs.Prelude.{◌≡◌, List, ℕ, ◌<◌, ◌^◌, length, set};
ghost use Rattle.tables.specs.Tables.{count_of};
ghost use Rattle.rules.specs.Names.{name_of};
ghost use Rattle.rules.specs.State.{state_of};
ghost use Rattle.loader.specs.Known.{mark_of, recorded, Known};

use rules::Judging;
use rules::names::{held, name_of};
use tables::marks::mark;
use tables::words::word;

// A name that is declared, as it stands in the text, and where it has its mark.
#[derive(Clone, Copy)]
pub struct Declared {
    pub place: usize,
    pub extent: usize,
    pub number: usize,
}

// Where a name has its mark.
fn mark_of(name: &[u8]) -> usize
    ensures { result ≡ mark_of name.now }
{
    let mut number: usize = 0;
    for byte in name {
        number = (37 * number + *byte as usize) % 2048;
    }
    number
}

// The same, of a name that stands in the text.
fn mark_at(text: &[u8], place: usize, extent: usize) -> usize
    ensures { result ≡ mark_of (name_of text.now place extent) }
{
    mark_of(name_of(text, place, extent))
}

pub fn declared_at(text: &[u8], place: usize, extent: usize) -> Declared
    ensures { result ≡ record { place = place; extent = extent; number = mark_of (name_of text.now place extent) } }
{
    Declared {
        place,
        extent,
        number: mark_at(text, place, extent),
    }
}

// Marks the name that an entry records: mostly the name that was judged last.
pub fn mark_entry(text: &[u8], table: &[u32], at: usize, last: Declared, known: &mut [u8])
    requires at_bound { at < 2 ^ 40 }
    requires number_value { last.number ≡ mark_of (name_of text.now last.place last.extent) }
    ensures { known.new ≡ set known.old (mark_of (recorded text.now table.now at)) 1 }
{
    let start = word(table, at);
    let length = word(table, at + 1);
    if start == last.place && length == last.extent {
        mark(known, last.number);
        return;
    }
    mark(known, mark_at(text, start, length));
}

// Marks the device's name and those of the parameters: no register and no variable is declared yet.
pub fn mark_heading(text: &[u8], judging: Judging, parameters: &[u32], known: &mut [u8])
    requires { length known.old ≡ 2048 }
    ensures { (rs vs : List ℕ) → count_of rs ≡ 0 → count_of vs ≡ 0 → Known text.now (state_of judging parameters.now rs vs) known.new }
{
    mark(known, mark_at(text, judging.place, judging.extent));
    for i in 0..held(parameters, 36) {
        let at = 36 * i + 1;
        let start = word(parameters, at);
        let length = word(parameters, at + 1);
        mark(known, mark_at(text, start, length));
    }
}
