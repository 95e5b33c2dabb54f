// The lent tables that ranges and pieces are stored in.
ghost use Rattle.std.specs.Prelude.{◌≡◌, set};

// Stores a word; nothing past the table's end.
pub fn put<T: Copy>(table: &mut [T], at: usize, word: T)
    ensures { table.new ≡ set table.old at word }
{
    if at < table.len() {
        table[at] = word;
    }
}
