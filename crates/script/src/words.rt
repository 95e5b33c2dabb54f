// Lines end at newlines; the words of a line are parted by spaces and tabs.
ghost use Rattle.std.specs.Prelude.{◌≡◌, ◌≤◌, ℕ, Bool, length};
ghost use Rattle.token.specs.Bytes.{run_at, same};
ghost use Rattle.script.specs.Words.{is_blank, line_end, word_start, word_end, word_of, rest_of};

fn is_blank(b: u8) -> bool
    ensures { result ≡ is_blank b }
{
    (b == b' ') | (b == b'\t')
}

// The place after the longest run, from `at` on, of bytes that pass.
fn run_end<F: Fn(u8) -> bool>(bytes: &[u8], at: usize, passes: F) -> usize
    requires { F.IsAlwaysCallable passes }
    ensures { (test : ℕ → Bool) → ((x : ℕ) (told : Bool) → F.post passes x told → told ≡ test x) → result ≡ run_at test bytes.now at }
{
    for i in at..bytes.len() {
        if !passes(bytes[i]) {
            return i;
        }
    }
    at.max(bytes.len())
}

// The place of the newline that ends the line at `at`, or of the input's end.
pub fn line_end(input: &[u8], at: usize) -> usize
    ensures { result ≡ line_end input.now at }
{
    run_end(input, at, |b| b != b'\n')
}

// Where the first word of a line starts and ends.
fn first_word(line: &[u8]) -> (usize, usize)
    ensures starts { result.0 ≡ word_start line.now }
    ensures ends { result.1 ≡ word_end line.now }
    ensures ordered { result.0 ≤ result.1 }
    ensures inside { result.1 ≤ length line.now }
{
    let start = run_end(line, 0, is_blank);
    (start, run_end(line, start, |b| !is_blank(b)))
}

// The first word of a line; it is empty where there is none.
pub fn word(line: &[u8]) -> &[u8]
    ensures { result.now ≡ word_of line.now }
{
    let (start, end) = first_word(line);
    &line[start..end]
}

// What follows the first word of a line.
pub fn rest(line: &[u8]) -> &[u8]
    ensures { result.now ≡ rest_of line.now }
{
    let (_, end) = first_word(line);
    &line[end..]
}

pub fn is(word: &[u8], name: &[u8]) -> bool
    ensures { result ≡ same word.now name.now }
{
    word == name
}
