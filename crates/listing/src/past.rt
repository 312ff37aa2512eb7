// The lines past the last that is answered: specs/Past.
ghost use Rattle.std.specs.Prelude.{◌≡◌, cond, [], ◌-◌, eqb, length};
ghost use Rattle.lines.specs.Line.{line_end};
ghost use Rattle.report.specs.Cut.{lines_from};
ghost use Rattle.report.specs.Layout.{last_number};
ghost use Rattle.listing.specs.Past.{lines_past, goes_past};

use lines::line::LINE_END;
use report::layout::LAST_NUMBER;

// The lines that may still be answered.
fn lines_left(lines: u64) -> u64
    ensures { result ≡ last_number - lines }
{
    LAST_NUMBER.saturating_sub(lines)
}

// 1 for a byte that ends a line, else 0.
fn ended_by(b: u8) -> u64
    ensures { result ≡ cond (eqb b line_end) 1 0 }
{
    u64::from(b == LINE_END)
}

// The lines of a text that have ended.
fn line_count(text: &[u8]) -> u64
    ensures { result ≡ length (lines_from [] text.now) }
{
    let mut n = 0;
    for b in text {
        n += ended_by(*b);
    }
    n
}

// How many lines of a text are not answered, where so many were before. A text of few bytes is not looked at.
#[tactic(auto, using(crate::proofs::Laws::Past::few_bytes))]
pub fn lines_past(lines: u64, text: &[u8]) -> u64
    ensures { result ≡ lines_past lines text.now }
{
    let left = lines_left(lines);
    if text.len() as u64 <= left {
        return 0;
    }
    line_count(text).saturating_sub(left)
}

// Whether there is input past the last line that is answered, by the lines past it, those answered, and the bytes of the
// partial line.
pub fn goes_past(over: u64, lines: u64, partial: usize) -> bool
    ensures { result ≡ goes_past over lines partial }
{
    (0 < over) | ((LAST_NUMBER <= lines) & (0 < partial))
}
