// The line that the verdict program writes on a text, as bytes in a lent buffer.
#![tactic(auto)]

pub mod put;

ghost use Rattle.std.specs.Prelude.{◌≡◌, length};
ghost use Rattle.lines.specs.Lines.{line_of, Put, verdict_on, Line};

use loader::{Counts, Refused};
use put::{put_bytes, put_number, put_numbers};

// accepted P R V
fn accepted_line(out: &mut [u8], counts: Counts) -> usize
    ensures { Put out.old 0 (line_of (Ok counts)) out.new result }
{
    let first = counts.parameters as u64;
    let two = put_numbers(out, b"accepted ", first, counts.registers as u64);
    let three = put_number(out, two, b" ", counts.variables as u64);
    put_bytes(out, three, b"\n")
}

// refused N PLACE
fn refused_line(out: &mut [u8], refused: Refused) -> usize
    ensures { Put out.old 0 (line_of (Err refused)) out.new result }
{
    let number = refused.number as u64;
    let two = put_numbers(out, b"refused ", number, refused.place as u64);
    put_bytes(out, two, b"\n")
}

// The line of a verdict, from the start of a buffer; how long it is.
fn verdict_line(out: &mut [u8], verdict: Result<Counts, Refused>) -> usize
    ensures { Put out.old 0 (line_of verdict) out.new result }
{
    match verdict {
        Ok(counts) => accepted_line(out, counts),
        Err(refused) => refused_line(out, refused),
    }
}

// The verdict on a text, by tables of its own. They are of their stated sizes, so refusal 1 is never given.
pub fn verdict_on(text: &[u8]) -> Result<Counts, Refused>
    ensures { result ≡ verdict_on text.now }
{
    let mut parameters = [0u32; 577];
    let mut registers = [0u32; 961];
    let mut variables = [0u32; 7553];
    loader::load(text, &mut parameters, &mut registers, &mut variables)
}

// The line on a text; eighty bytes hold any.
pub fn line_on(text: &[u8], out: &mut [u8; 80]) -> usize
    ensures { Line text.now out.old out.new result }
{
    verdict_line(out, verdict_on(text))
}
