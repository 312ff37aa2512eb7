// The program `slide`, for the counter (docs/DECISIONS.md, 79): requested dates from standard input, one a line; to standard output, for
// each line, the kept due date and the calendar days that it slid. It reads and writes; what the bytes mean, what is answered to them and how
// that is written is in crates/desk, proved.
#![tactic(auto)]

ghost use Rattle.std.specs.Prelude.{◌≡◌, ◌*◌, ◌≤◌, ◌<◌, length, IfOk};
ghost use Rattle.desk.specs.Slide.{slide_line_length, slide_answer_length};
ghost use Rattle.slide.specs.Input.{is_past, Given, Turned, InputAnswered};

use desk::Piece;
use desk::slide::answer_text;
use report::layout::LAST_NUMBER;
use std::io::{Read, Write};
use streams::{StreamFailed, read_from, write_to};

// The bytes of the text, and of the buffer, which has room for an answer to each byte of the text.
const TEXT: usize = 16_384;

const OUT: usize = 344_064;

// Answers the lines in the first `filled` bytes of the text.
fn take_piece(p: Piece, filled: usize, text: &mut [u8], out: &mut [u8]) -> Piece
    requires { Given filled text.old out.old }
    ensures { Turned p filled text.old out.old result text.new out.new }
{
    answer_text(p.lines, filled, text, out).unwrap()
}

// Whether there is input past the last line that is answered.
fn is_past(p: Piece) -> bool
    ensures { result ≡ is_past p.lines p.partial }
{
    (LAST_NUMBER <= p.lines) & (0 < p.partial)
}

// The whole input, piece by piece, until it ends, goes past the last line that is answered, or a stream fails. A proved loop
// has to end, and nothing says that the input does: so the loop has a number of turns that no run uses up.
#[tactic(auto, using(crate::proofs::Laws::Input::taken_none))]
fn take_input<R: Read, W: Write>(
    rt: HostRuntime,
    input: &mut R,
    output: &mut W,
    text: &mut [u8],
    out: &mut [u8],
) -> Result<Piece, StreamFailed>
    requires { (slide_line_length < length text.old) × (slide_answer_length * length text.old ≤ length out.old) }
    ensures { IfOk result (λ p. InputAnswered (R.remaining input.old) (R.remaining input.new) (W.contents output.old) (W.contents output.new) p) }
{
    let mut p = Piece {
        lines: 0,
        partial: 0,
        written: 0,
    };
    for _ in 0..u64::MAX {
        let got = read_from(rt, "slide: standard input", input, text, p.partial)?;
        if got == 0 {
            return Ok(p);
        }
        p = take_piece(p, p.partial + got, text, out);
        write_to(rt, "slide: standard output", output, &out[..p.written])?;
        if is_past(p) {
            return Ok(p);
        }
    }
    Err(StreamFailed)
}

// Says what was not answered.
fn say_left(rt: HostRuntime, p: Piece) {
    if is_past(p) {
        let _ = eprintln!(rt; "slide: lines past 999999 were not read");
    } else if 0 < p.partial {
        let _ = eprintln!(rt; "slide: the last line has no line end and was not answered");
    }
}

// The whole run, by a text and a buffer for answers. Why a stream failed was said, and the run ends there.
fn run(rt: HostRuntime, text: &mut [u8; TEXT], out: &mut [u8; OUT]) {
    if let Ok(p) = take_input(rt, &mut rt.stdin(), &mut rt.stdout(), text, out) {
        say_left(rt, p);
    }
}

fn main(rt: HostRuntime) {
    let mut text = [0u8; TEXT];
    let mut out = [0u8; OUT];
    run(rt, &mut text, &mut out);
}
