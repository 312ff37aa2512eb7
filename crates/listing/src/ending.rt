// The end of the input: specs/Listing.
ghost use Rattle.listing.specs.Listing.{EndTaken};

use refusals::Refusal;
use report::layout::{ANSWER, LAST_NUMBER, Progress, answer_line};

// Answers a partial line where the input ends, by the lines answered so far and the number of its bytes. A buffer
// without room for an answer is refused, and nothing is written.
#[tactic(auto, using(crate::proofs::Laws::Ending::end_refused, crate::proofs::Laws::Ending::end_none))]
pub fn end_text(lines: u64, partial: usize, out: &mut [u8]) -> Result<Progress, Refusal>
    ensures { EndTaken lines partial out.old result out.new }
{
    if out.len() < ANSWER {
        return Err(Refusal::UnfitMemory);
    }
    if !((lines < LAST_NUMBER) & (0 < partial)) {
        return Ok(Progress { lines, written: 0 });
    }
    let number = lines + 1;
    let _ = answer_line(out, 0, number, u64::from(Refusal::BadLine));
    Ok(Progress {
        lines: number,
        written: ANSWER,
    })
}
