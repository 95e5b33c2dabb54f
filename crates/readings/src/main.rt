// Readings in units from standard input: whole records of 20 bytes, low byte first (gain and offset, a double each, and
// a reading of 32 bits without a sign). For each it writes the result's 16 hexadecimal digits, or the refusal. Bytes
// behind the last whole record are passed over.
#![tactic(auto)]

ghost use Rattle.std.specs.Prelude.{◌≡◌, ◌+◌, ◌<◌, ◌^◌, get_or};
ghost use Rattle.readings.specs.Records.{four_at, eight_at, line_at};

use std::io;
use units::Unconverted;

const RECORD: usize = 20;

// So many records are read at a time.
const BLOCK: usize = 20480;

fn tell(out: &mut impl io::Write, line: Result<u64, Unconverted>) -> io::Result<()> {
    match line {
        Ok(bits) => out.write_all(&script::digits_of(bits))?,
        Err(why) => write!(out, "refused {}", why.number())?,
    }
    out.write_all(b"\n")
}

// The byte at a place, and 0 past the end.
fn byte(input: &[u8], at: usize) -> u64
    ensures is { result ≡ get_or input.now at 0 }
    ensures small { result < 256 }
{
    u64::from(input.get(at).copied().unwrap_or(0))
}

#[tactic(auto, unfolding(crate::specs::Records::four_at))]
fn four(input: &[u8], at: usize) -> u64
    requires { at + 4 < 2 ^ 64 }
    ensures is { result ≡ four_at input.now at }
    ensures small { result < 2 ^ 32 }
{
    let a = byte(input, at);
    let b = byte(input, at + 1);
    let c = byte(input, at + 2);
    let d = byte(input, at + 3);
    a + 256 * b + 65536 * c + 16777216 * d
}

#[tactic(auto, unfolding(crate::specs::Records::eight_at))]
fn eight(input: &[u8], at: usize) -> u64
    requires { at + 8 < 2 ^ 64 }
    ensures { result ≡ eight_at input.now at }
{
    let low = four(input, at);
    let high = four(input, at + 4);
    low + 4294967296 * high
}

// What the record at a place comes to.
#[tactic(auto, unfolding(crate::specs::Records::line_at))]
fn line_at(input: &[u8], at: usize) -> Result<u64, Unconverted>
    requires { at + 20 < 2 ^ 64 }
    ensures { result ≡ line_at input.now at }
{
    units::line_of(
        eight(input, at),
        eight(input, at + 8),
        four(input, at + 16) as u32,
    )
}

// The whole records, one at a time.
fn tell_all(out: &mut impl io::Write, input: &[u8]) -> io::Result<()> {
    for i in 0..input.len() / RECORD {
        tell(out, line_at(input, i * RECORD))?;
    }
    Ok(())
}

// Block by block, until one is not full. More blocks than this no input has.
fn main(rt: HostRuntime) -> io::Result<()> {
    let mut block = [0u8; BLOCK];
    for _ in 0..u64::MAX {
        let n = streams::read_full(&mut rt.stdin(), &mut block)?;
        tell_all(&mut rt.stdout(), &block[..n])?;
        if n < BLOCK {
            break;
        }
    }
    Ok(())
}
