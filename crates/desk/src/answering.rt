// The lines of a text answered one after the other, whatever the question: specs/Lines, and specs/Answering.
ghost use Rattle.std.specs.Prelude.{◌≡◌, ◌&&◌, ◌+◌, ◌-◌, ◌*◌, ◌/◌, ◌≤◌, leb, length, take, drop};
ghost use Rattle.digits.specs.Field.{pasted};
ghost use Rattle.report.specs.Layout.{last_number};
ghost use Rattle.desk.specs.Lines.{numbered, PieceAnswered};
ghost use Rattle.desk.specs.Answering.{next_end, AllWide, LineAnswered, LinesAnswered};

use crate::Piece;
use crate::question::Question;
use digits::BLANK;
use digits::writing::put;
use lines::line::LINE_END;
use refusals::Refusal;
use report::cut::line_end;
use report::layout::{LAST_NUMBER, Progress};

// How far a text is answered, and where the first byte stands that is not.
#[derive(Clone, Copy)]
pub(crate) struct Answered {
    pub(crate) progress: Progress,
    pub(crate) at: usize,
}

// Writes the answer to a line, of this number, to a place that has room for it.
fn put_answer<Q: Question>(out: &mut [u8], at: usize, number: u64, line: &[u8])
    requires wide { AllWide Q.ANSWER Q.said }
    requires room { at + Q.ANSWER ≤ length out.old }
    ensures { out.new ≡ pasted at (numbered number (Q.said line.now)) out.old }
{
    put(out, at, 6, BLANK, number);
    Q::put_said(line, out, at + 6);
    out[at + Q::ANSWER - 1] = LINE_END;
}

// Answers a line behind those before.
fn end_line<Q: Question>(p: Progress, line: &[u8], out: &mut [u8]) -> Progress
    requires wide { AllWide Q.ANSWER Q.said }
    requires room { p.written + Q.ANSWER ≤ length out.old }
    requires few { p.lines ≤ last_number }
    ensures { LineAnswered Q.said p line.now out.old result out.new }
{
    let number = p.lines + 1;
    put_answer::<Q>(out, p.written, number, line);
    Progress {
        lines: number,
        written: p.written + Q::ANSWER,
    }
}

// The end of the next line that is answered, from a place on, where so many were before.
#[tactic(auto, unfolding(crate::specs::Answering::next_end))]
fn next_end(lines: u64, text: &[u8], at: usize) -> Option<usize>
    ensures { result ≡ next_end lines text.now at }
{
    if lines < LAST_NUMBER {
        line_end(text, at)
    } else {
        None
    }
}

// Answers the lines of a text that are to be answered.
#[tactic(auto, using(crate::proofs::Laws::Lines::end_inside, crate::proofs::Laws::Lines::end_onward, crate::proofs::Laws::Lines::end_before_last))]
fn answer_lines<Q: Question>(lines: u64, text: &[u8], out: &mut [u8]) -> Answered
    requires wide { AllWide Q.ANSWER Q.said }
    requires room { Q.ANSWER * length text.now ≤ length out.old }
    ensures { LinesAnswered Q.said lines text.now out.old result out.new }
{
    // each line begins behind the end of the one before
    let mut progress = Progress { lines, written: 0 };
    let mut at = 0;
    while let Some(end) = next_end(progress.lines, text, at) {
        let next = end + 1;
        progress = end_line::<Q>(progress, &text[at..next], out);
        at = next;
    }
    Answered { progress, at }
}

// Puts what stands behind a place, no more than `most` bytes of it, to the front of the text, and gives its length.
#[tactic(auto, using(crate::proofs::Laws::Lines::rest_length, crate::proofs::Laws::Lines::rest_kept))]
fn keep_rest(text: &mut [u8], at: usize, filled: usize, most: usize) -> usize
    requires { (at ≤ filled) × (filled ≤ length text.old) }
    ensures length { result ≡ length (take most (drop at (take filled text.old))) }
    ensures text { text.new ≡ pasted 0 (take most (drop at (take filled text.old))) text.old }
{
    let n = most.min(filled - at);
    text.copy_within(at..at + n, 0);
    n
}

// Whether the text is there and the buffer has room for an answer to each byte.
fn piece_fits<Q: Question>(filled: usize, long: usize, room: usize) -> bool
    requires { AllWide Q.ANSWER Q.said }
    ensures { result ≡ leb filled long && leb filled (room / Q.ANSWER) }
{
    (filled <= long) & (filled <= room / Q::ANSWER)
}

// Takes a piece of input, its first `filled` bytes: answers every line that has ended, up to the last that is answered, and puts the
// rest, clipped, to the front of the text. Refusal 2 where text and buffer do not fit.
pub(crate) fn answer_piece<Q: Question>(
    lines: u64,
    filled: usize,
    text: &mut [u8],
    out: &mut [u8],
) -> Result<Piece, Refusal>
    requires { AllWide Q.ANSWER Q.said }
    ensures { PieceAnswered Q.LINE Q.ANSWER Q.said lines filled text.old out.old result text.new out.new }
{
    if !piece_fits::<Q>(filled, text.len(), out.len()) {
        return Err(Refusal::UnfitMemory);
    }
    let Answered { progress, at } = answer_lines::<Q>(lines, &text[..filled], out);
    let partial = keep_rest(text, at, filled, Q::LINE);
    Ok(Piece {
        lines: progress.lines,
        partial,
        written: progress.written,
    })
}
