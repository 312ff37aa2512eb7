// How far a due date slides: specs/Slide.
ghost use Rattle.std.specs.Prelude.{◌≡◌, cond, length};
ghost use Rattle.calendar.specs.Gregorian.{in_range};
ghost use Rattle.refusals.specs.Refusals.{answer_number};
ghost use Rattle.digits.specs.Field.{pasted};
ghost use Rattle.desk.specs.Lines.{PieceAnswered};
ghost use Rattle.desk.specs.Slide.{slide, is_question, requested, asked, shown, slide_said, slide_line_length, slide_answer_length};

use crate::Piece;
use crate::answering::answer_piece;
use crate::question::Question;
use calendar::gregorian::in_range;
use calendar::target::kept;
use calendar::{CalendarDays, KeptDate};
use digits::BLANK;
use digits::reading::field;
use digits::writing::put;
use lines::line::LINE_END;
use refusals::{Refusal, answer_number, ensure};

// The columns of a sound line, and its bytes.
const COLUMNS: usize = 9;

const LINE: usize = 10;

// The bytes of an answer.
const ANSWER: usize = 21;

// The kept due date of a requested one, and the calendar days that it slid; refusal 5 where the number is no date of the events' range.
#[tactic(auto, unfolding(crate::specs::Slide::slide))]
pub fn slide(requested: u64) -> Result<KeptDate, Refusal>
    ensures answer { result ≡ slide requested }
    ensures number { answer_number result ≡ cond (in_range requested) 0 5 }
{
    ensure(in_range(requested), Refusal::BadField)?;
    kept(requested).ok_or(Refusal::BadField)
}

// Whether a line has the columns of a question, and no more.
fn is_question(line: &[u8]) -> bool
    ensures { result ≡ is_question line.now }
{
    line.len() == LINE && line[COLUMNS] == LINE_END
}

// The requested date of a line, or refusal 1.
#[tactic(auto, unfolding(crate::specs::Slide::requested))]
fn requested(line: &[u8]) -> Result<u64, Refusal>
    ensures { result ≡ requested line.now }
{
    ensure(is_question(line), Refusal::BadLine)?;
    let Some(date) = field(line, 0, COLUMNS) else {
        return Err(Refusal::BadLine);
    };
    Ok(date)
}

// What a line asks for, or its refusal.
fn asked(line: &[u8]) -> Result<KeptDate, Refusal>
    ensures { result ≡ asked line.now }
{
    slide(requested(line)?)
}

// The date and the days that are shown of an answer.
fn shown(answer: Result<KeptDate, Refusal>) -> KeptDate
    ensures { result ≡ shown answer }
{
    answer.unwrap_or(KeptDate {
        date: 0,
        slid: CalendarDays(0),
    })
}

// The question for the kept due date.
struct DueQuestion;

impl Question for DueQuestion {
    ghost use Rattle.desk.specs.Slide.{slide_said, slide_line_length, slide_answer_length};

    ghost LINE = { slide_line_length };

    ghost ANSWER = { slide_answer_length };

    ghost said = { slide_said };

    const LINE: usize = LINE;

    const ANSWER: usize = ANSWER;

    #[tactic(auto, using(crate::proofs::Laws::Slide::said_written))]
    fn put_said(line: &[u8], out: &mut [u8], at: usize) {
        let answer = asked(line);
        let KeptDate { date, slid } = shown(answer);
        put(out, at, 3, BLANK, answer_number(&answer));
        put(out, at + 3, 9, BLANK, date);
        put(out, at + 12, 2, BLANK, slid.0);
    }
}

// Answers the requested dates in a piece of input, its first `filled` bytes, where so many lines were answered before.
pub fn answer_text(
    lines: u64,
    filled: usize,
    text: &mut [u8],
    out: &mut [u8],
) -> Result<Piece, Refusal>
    ensures { PieceAnswered slide_line_length slide_answer_length slide_said lines filled text.old out.old result text.new out.new }
{
    answer_piece::<DueQuestion>(lines, filled, text, out)
}
