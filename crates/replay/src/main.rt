// Replays scripts from standard input, each a text and then calls over it, a line each: it writes the text's verdict
// and what each call answers. rust/second/README.md says what a line may be. Of an input longer than the buffer no more
// is read.
#![tactic(auto)]

mod call;
mod fields;
mod session;
mod show;

ghost use Rattle.std.specs.Prelude.{◌≤◌, IfOk};

use session::{Description, Session};
use std::io;

// Tells what a line is answered with.
fn hear(
    out: &mut impl io::Write,
    line: &[u8],
    description: Description,
    kept: &mut [u32],
    marks: &mut [u8],
    session: Session,
) -> io::Result<Session> {
    let turn = description.answer(line, kept, marks, session);
    show::reply(out, turn.reply, description, kept, marks, turn.session)?;
    Ok(turn.session)
}

// The calls over a text, up to the next text or the end of the input. Each turn takes a line, so the loop ends.
fn run_calls(
    out: &mut impl io::Write,
    input: &[u8],
    from: usize,
    description: Description,
    kept: &mut [u32],
    marks: &mut [u8],
) -> io::Result<usize>
    ensures { IfOk result (λ at. from ≤ at) }
{
    let mut now = session::begin();
    let mut at = from;
    while at < input.len() {
        if frames::frame_at(input, at).is_some() {
            return Ok(at);
        }
        let end = script::line_end(input, at);
        now = hear(out, &input[at..end], description, kept, marks, now)?;
        at = end + 1;
    }
    Ok(at)
}

// The line that the verdict program writes. It is made over tables of its own.
fn tell_verdict(out: &mut impl io::Write, text: &[u8]) -> io::Result<()> {
    let mut line = [0u8; 80];
    let end = lines::line_on(text, &mut line);
    out.write_all(&line[..end])
}

// Tells the verdict on a text, and runs its calls if it is accepted. Answers where to go on.
fn run_script(
    out: &mut impl io::Write,
    input: &[u8],
    from: usize,
    text: &[u8],
    parameters: &mut [u32],
    registers: &mut [u32],
    variables: &mut [u32],
    kept: &mut [u32],
    marks: &mut [u8],
) -> io::Result<usize>
    ensures { IfOk result (λ at. from ≤ at) }
{
    tell_verdict(out, text)?;
    if loader::load(text, parameters, registers, variables).is_ok() {
        let description = Description {
            text,
            parameters,
            registers,
            variables,
        };
        run_calls(out, input, from, description, kept, marks)
    } else {
        Ok(from)
    }
}

// One script at a time. What stands behind a refused text, or before the first text, is passed over line by line. Each
// turn takes a text or a line.
fn run(
    out: &mut impl io::Write,
    input: &[u8],
    parameters: &mut [u32],
    registers: &mut [u32],
    variables: &mut [u32],
    kept: &mut [u32],
    marks: &mut [u8],
) -> io::Result<()> {
    let mut at = 0;
    while at < input.len() {
        at = match frames::frame_at(input, at) {
            Some(frame) => run_script(
                out,
                input,
                frame.next,
                &input[frame.start..frame.end],
                parameters,
                registers,
                variables,
                kept,
                marks,
            )?,
            None => script::line_end(input, at) + 1,
        };
    }
    Ok(())
}

// The tables are arrays of the loader's sizes, so that no script fails for want of memory.
fn main(rt: HostRuntime) -> io::Result<()> {
    let mut buffer = frames::space();
    let n = streams::read_full(&mut rt.stdin(), &mut buffer)?;
    let mut parameters = [0u32; 577];
    let mut registers = [0u32; 961];
    let mut variables = [0u32; 7553];
    let mut kept = [0u32; 64];
    let mut marks = [0u8; 128];
    run(
        &mut rt.stdout(),
        &buffer[..n],
        &mut parameters,
        &mut registers,
        &mut variables,
        &mut kept,
        &mut marks,
    )
}
