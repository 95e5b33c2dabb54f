// The verdict on each framed text on standard input, a line each. The stored cases and what they must say come from the
// second implementation.
#![tactic(auto)]

use std::io;

fn tell(out: &mut impl io::Write, text: &[u8]) -> io::Result<()> {
    let mut line = [0u8; 80];
    let end = lines::line_on(text, &mut line);
    out.write_all(&line[..end])
}

// One frame at a time: a frame ends after it began, so the loop does.
fn tell_all(out: &mut impl io::Write, input: &[u8]) -> io::Result<()> {
    let mut at = 0;
    while let Some(frame) = frames::frame_at(input, at) {
        tell(out, &input[frame.start..frame.end])?;
        at = frame.next;
    }
    Ok(())
}

fn main(rt: HostRuntime) -> io::Result<()> {
    let mut buffer = frames::space();
    let n = streams::read_full(&mut rt.stdin(), &mut buffer)?;
    tell_all(&mut rt.stdout(), &buffer[..n])
}
