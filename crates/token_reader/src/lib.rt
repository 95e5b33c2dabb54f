// The token reader as a record of a text and a place in it (document 01, "Tokens"). Its calls are thin: the work is
// `token::scan`'s. `scan_at` has plain parameters, for callers that keep no reader.
#![tactic(auto)]

ghost use Rattle.std.specs.Prelude.{◌≡◌};
ghost use Rattle.token.specs.Scan.{scan_at};
ghost use Rattle.token_reader.specs.Read.{found, moved_on};

use token::{Scanned, Token};

#[derive(Clone, Copy)]
pub struct Reader<'a> {
    pub text: &'a [u8],
    pub at: usize,
}

impl<'a> Reader<'a> {
    // A reader at a place of a text.
    pub fn new(text: &'a [u8], at: usize) -> Self
        ensures { (result.text ≡ text.entry) × (result.at ≡ at) }
    {
        Reader { text, at }
    }

    // The token at or after the reader's place. The reader moves on past it.
    pub fn next(&mut self) -> Token
        ensures { (result ≡ (found self.old).token) × (self.new ≡ moved_on self.old) }
    {
        let found = token::scan(self.text, self.at);
        self.at = found.next;
        found.token
    }
}

// One reading of a reader made for it: what callers with a text and a place of their own go through.
pub fn scan_at(text: &[u8], at: usize) -> Scanned
    ensures { result ≡ scan_at text.now at }
{
    let mut reader = Reader::new(text, at);
    let token = reader.next();
    Scanned {
        token,
        next: reader.at,
    }
}
