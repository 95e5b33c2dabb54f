// Plays scripts of pieces from standard input and writes what each call answers, a line each: `piece N` with N bytes
// and a newline behind it, `end`, `lend short` for a store that is a byte too short, and `lend all`. The input is one
// script, or framed ones, each of which begins afresh. rust/second/README.md says what a line may be. Of an input
// longer than the buffer no more is read.
#![tactic(auto)]

ghost use Rattle.std.specs.Prelude.{◌≤◌};

use loader::{Counts, Refused};
use std::io;

// What stands between two calls, beside the store.
#[derive(Clone, Copy)]
struct Arriving {
    taken: usize,
    short: bool,
}

fn tell_refused(out: &mut impl io::Write, refused: Refused) -> io::Result<()> {
    let number = refused.number;
    let place = refused.place;
    writeln!(out, "refused {number} {place}")
}

fn tell_reply(out: &mut impl io::Write, reply: Result<(), Refused>) -> io::Result<()> {
    match reply {
        Ok(()) => writeln!(out, "more"),
        Err(refused) => tell_refused(out, refused),
    }
}

fn tell_verdict(out: &mut impl io::Write, verdict: Result<Counts, Refused>) -> io::Result<()> {
    match verdict {
        Ok(counts) => {
            let parameters = counts.parameters;
            let registers = counts.registers;
            let variables = counts.variables;
            writeln!(out, "accepted {parameters} {registers} {variables}")
        }
        Err(refused) => tell_refused(out, refused),
    }
}

// How many bytes of the store are lent.
fn lent(length: usize, short: bool) -> usize
    ensures { result ≤ length }
{
    if short {
        length.saturating_sub(1)
    } else {
        length
    }
}

fn take(
    out: &mut impl io::Write,
    piece: &[u8],
    store: &mut [u8],
    parameters: &[u32],
    registers: &[u32],
    variables: &[u32],
    now: Arriving,
) -> io::Result<Arriving> {
    let part = lent(store.len(), now.short);
    let took = pieces::take_piece(
        &mut store[..part],
        now.taken,
        piece,
        parameters,
        registers,
        variables,
    );
    tell_reply(out, took.reply)?;
    Ok(Arriving {
        taken: took.taken,
        ..now
    })
}

fn end(
    out: &mut impl io::Write,
    store: &[u8],
    parameters: &mut [u32],
    registers: &mut [u32],
    variables: &mut [u32],
    now: Arriving,
) -> io::Result<Arriving> {
    let part = lent(store.len(), now.short);
    let ended = pieces::end_pieces(&store[..part], now.taken, parameters, registers, variables);
    tell_verdict(out, ended.verdict)?;
    Ok(Arriving {
        taken: ended.taken,
        ..now
    })
}

fn lend(out: &mut impl io::Write, what: &[u8], now: Arriving) -> io::Result<Arriving> {
    let short = script::is(what, b"short");
    if short || script::is(what, b"all") {
        writeln!(out, "lent")?;
        return Ok(Arriving { short, ..now });
    }
    writeln!(out, "unknown")?;
    Ok(now)
}

// Whether a line asks for nothing: it has no word, or is a comment.
fn is_skipped(first: &[u8]) -> bool {
    first.is_empty() || first[0] == b';'
}

// A line that heads no piece.
fn hear(
    out: &mut impl io::Write,
    line: &[u8],
    store: &[u8],
    parameters: &mut [u32],
    registers: &mut [u32],
    variables: &mut [u32],
    now: Arriving,
) -> io::Result<Arriving> {
    let first = script::word(line);
    if is_skipped(first) {
        return Ok(now);
    }
    let tail = script::rest(line);
    let second = script::word(tail);
    if script::is(first, b"end") && second.is_empty() {
        return end(out, store, parameters, registers, variables, now);
    }
    let third = script::word(script::rest(tail));
    if script::is(first, b"lend") && third.is_empty() {
        return lend(out, second, now);
    }
    writeln!(out, "unknown")?;
    Ok(now)
}

// One call at a time. Each turn takes a line, so the loop ends.
fn run(
    out: &mut impl io::Write,
    calls: &[u8],
    store: &mut [u8],
    parameters: &mut [u32],
    registers: &mut [u32],
    variables: &mut [u32],
) -> io::Result<()> {
    let mut now = Arriving {
        taken: 0,
        short: false,
    };
    let mut at = 0;
    while at < calls.len() {
        if let Some(frame) = frames::headed_at(calls, at, b"piece") {
            let piece = &calls[frame.start..frame.end];
            now = take(out, piece, store, parameters, registers, variables, now)?;
            at = frame.next;
        } else {
            let to = script::line_end(calls, at);
            let line = &calls[at..to];
            now = hear(out, line, store, parameters, registers, variables, now)?;
            at = to + 1;
        }
    }
    Ok(())
}

// A script, with a store and tables of its own.
fn play(out: &mut impl io::Write, calls: &[u8]) -> io::Result<()> {
    let mut store = [0u8; 8192];
    let mut parameters = [0u32; 577];
    let mut registers = [0u32; 961];
    let mut variables = [0u32; 7553];
    run(
        out,
        calls,
        &mut store,
        &mut parameters,
        &mut registers,
        &mut variables,
    )
}

// Framed scripts, one after the other, and where they end. A frame ends after it began, so the loop does.
fn play_framed(out: &mut impl io::Write, input: &[u8]) -> io::Result<usize> {
    let mut at = 0;
    while let Some(frame) = frames::frame_at(input, at) {
        play(out, &input[frame.start..frame.end])?;
        at = frame.next;
    }
    Ok(at)
}

fn main(rt: HostRuntime) -> io::Result<()> {
    let mut buffer = frames::space();
    let n = streams::read_full(&mut rt.stdin(), &mut buffer)?;
    let input = &buffer[..n];
    let framed = play_framed(&mut rt.stdout(), input)?;
    if framed == 0 {
        play(&mut rt.stdout(), input)?;
    }
    Ok(())
}
