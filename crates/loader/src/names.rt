// A name lookup, over any tables.
ghost use Rattle.std.specs.Prelude.{◌≡◌};
ghost use Rattle.rules.specs.Names.{variable_named};

use rules::names::find;

// The first of the counted variables that the table holds whole, of this name.
pub fn lookup(text: &[u8], variables: &[u32], name: &[u8]) -> Option<usize>
    ensures { result ≡ variable_named text.now variables.now name.now }
{
    find(text, variables, 59, name)
}
