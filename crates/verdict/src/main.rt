// The verdict on the description on standard input, as one line. A text of 8,192 bytes is the longest that loads, so
// one byte more tells refusal 2, and no more is read.
#![tactic(auto)]

use std::io;
use std::io::Write;

fn main(rt: HostRuntime) -> io::Result<()> {
    let mut buffer = [0u8; 8193];
    let n = streams::read_full(&mut rt.stdin(), &mut buffer)?;
    let mut line = [0u8; 80];
    let end = lines::line_on(&buffer[..n], &mut line);
    rt.stdout().write_all(&line[..end])
}
