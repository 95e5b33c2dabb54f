// Bytes of any kind in an input: a line with a word and a number, as `text N`, then N bytes, then a newline, which the
// last may go without. Several texts are in one input that way.
#![tactic(auto)]

ghost use Rattle.std.specs.Prelude.{◌≡◌, length, IfSome};
ghost use Rattle.frames.specs.Frames.{headed, ends_at, enclosed, headed_at, frame_at, Lies};

// Bytes from `start` to `end`, and where the next frame may begin.
#[derive(Clone, Copy, PartialEq, Eq)]
pub struct Frame {
    pub start: usize,
    pub end: usize,
    pub next: usize,
}

// How many bytes a line says there are that it heads.
fn length_of(line: &[u8], head: &[u8]) -> Option<u64>
    ensures { result ≡ headed head.now line.now }
{
    let tail = script::rest(line);
    let third = script::word(script::rest(tail));
    if script::is(script::word(line), head) & third.is_empty() {
        script::number_of(script::word(tail))
    } else {
        None
    }
}

// Whether a line may end here: at a newline, or with the input.
fn ends_at(input: &[u8], at: usize) -> bool
    ensures { result ≡ ends_at input.now at }
{
    at >= input.len() || input[at] == b'\n'
}

fn enclose(input: &[u8], start: usize, bytes: usize) -> Option<Frame>
    ensures { result ≡ enclosed input.now start bytes }
{
    let end = start.checked_add(bytes)?;
    if end <= input.len() && ends_at(input, end) {
        let next = end + 1;
        Some(Frame { start, end, next })
    } else {
        None
    }
}

// The frame at a place that this word heads: it is found where its line stands there and all of its bytes are in the
// input.
pub fn headed_at(input: &[u8], at: usize, head: &[u8]) -> Option<Frame>
    ensures found { result ≡ headed_at head.now input.now at }
    ensures within { IfSome result (Lies input.now at) }
{
    if input.len() <= at {
        return None;
    }
    let end = script::line_end(input, at);
    let bytes = length_of(&input[at..end], head)?;
    enclose(input, end + 1, bytes as usize)
}

// The text at a place.
pub fn frame_at(input: &[u8], at: usize) -> Option<Frame>
    ensures found { result ≡ frame_at input.now at }
    ensures within { IfSome result (Lies input.now at) }
{
    headed_at(input, at, b"text")
}

// Room for an input of many texts. The contract hides the array's contents, which nobody asks for.
pub fn space() -> [u8; 1048576]
    ensures { 1048576 ≡ length result }
{
    [0; 1048576]
}
