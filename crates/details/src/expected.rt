// Which words could stand at a place of refusal 4: those with which the text before it still begins some text of the
// grammar. Each is tried by reading.
ghost use Rattle.std.specs.Prelude.{◌≡◌, take};
ghost use Rattle.syntax.specs.Text.{reading};
ghost use Rattle.details.specs.Expected.{goes_past, could_stand};

use lines::put::put_bytes;
use rules::names::name_of;
use syntax::Step;

// Does a reading go on past the token at a place?
fn goes_past(step: Step, place: usize) -> bool
    ensures { result ≡ goes_past step place }
{
    match step {
        Ok(_) => true,
        Err(refusal) => (refusal.number != 4) | (refusal.place != place),
    }
}

// Does the front of a buffer, as a text, read past the token at a place?
fn reads_past(buffer: &[u8], end: usize, place: usize) -> bool
    ensures { result ≡ goes_past (reading (take end buffer.now)).step place }
{
    goes_past(syntax::read_text(name_of(buffer, 0, end)).step, place)
}

// The text before a place, a blank and a word, read as a text of its own.
pub fn could_stand(text: &[u8], place: usize, word: &[u8]) -> bool
    ensures { result ≡ could_stand text.now place word.now }
{
    let before = name_of(text, 0, place);
    if 8192 < before.len() {
        return false;
    }
    if 64 < word.len() {
        return false;
    }
    let mut trial = [0u8; 8300];
    let blank = put_bytes(&mut trial, 0, before);
    let start = put_bytes(&mut trial, blank, b" ");
    let end = put_bytes(&mut trial, start, word);
    reads_past(&trial, end, start)
}
