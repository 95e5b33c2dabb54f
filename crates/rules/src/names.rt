// Names: the entries of the tables record where a name stands in the text.
ghost use Rattle.std.specs.Prelude.{◌≡◌, false, ◌≤◌, ◌<◌, ◌^◌};
ghost use Rattle.rules.specs.Names.{name_of, Held, stands_at, is_named, found_in};

use tables::words::word;

// The bytes of a name that stands in the text: less of them where the text ends sooner.
pub fn name_of(text: &[u8], place: usize, extent: usize) -> &[u8]
    ensures { result.now ≡ name_of text.now place extent }
{
    let rest = &text[place.min(text.len())..];
    &rest[..extent.min(rest.len())]
}

// Is this the name that stands at a place of the text?
pub fn stands_at(text: &[u8], place: usize, extent: usize, name: &[u8]) -> bool
    ensures { result ≡ stands_at text.now place extent name.now }
{
    let long = (0 < name.len()) & (extent == name.len());
    long && name_of(text, place, extent).starts_with(name)
}

// Is the entry at a word of a table recorded under this name?
#[tactic(auto, unfolding(crate::specs::Names::is_named))]
pub fn is_named(text: &[u8], table: &[u32], at: usize, name: &[u8]) -> bool
    requires { at < 2 ^ 40 }
    ensures { result ≡ is_named text.now table.now at name.now }
{
    let place = word(table, at);
    let extent = word(table, at + 1);
    stands_at(text, place, extent, name)
}

// How many of the counted entries a table holds whole: a broken count must not make a search long.
pub fn held(table: &[u32], stride: usize) -> usize
    requires { 0 < stride }
    ensures { Held stride table.now result }
{
    word(table, 0).min(table.len().saturating_sub(1) / stride)
}

// Does an entry record a name that ends as this one? A name whose length or last byte differs is another: most are told
// apart by these, and the length is looked at first.
fn ends_alike(text: &[u8], table: &[u32], at: usize, name: &[u8]) -> bool
    requires { at < 2 ^ 40 }
    ensures { result ≡ false → is_named text.now table.now at name.now ≡ false }
{
    let length = name.len();
    if word(table, at + 1) != length {
        return false;
    }
    if length == 0 {
        return false;
    }
    let last = word(table, at) + (length - 1);
    if text.len() <= last {
        return false;
    }
    text[last] == name[length - 1]
}

// The same answer as `is_named`, sooner.
fn is_entry(text: &[u8], table: &[u32], at: usize, name: &[u8]) -> bool
    requires { at < 2 ^ 40 }
    ensures { result ≡ is_named text.now table.now at name.now }
{
    ends_alike(text, table, at, name) && is_named(text, table, at, name)
}

// The first entry of this name, in a table whose entries are so many words long.
pub fn find(text: &[u8], table: &[u32], stride: usize, name: &[u8]) -> Option<usize>
    requires stride_nonzero { 0 < stride }
    requires stride_bound { stride < 2 ^ 7 }
    ensures { result ≡ found_in text.now table.now stride name.now }
{
    (0..held(table, stride)).find(|i| is_entry(text, table, stride * *i + 1, name))
}
