// The lines that the program writes: specs/Layout.
ghost use Rattle.std.specs.Prelude.{◌≡◌, true, cond, ◌+◌, ◌≤◌, length};
ghost use Rattle.digits.specs.Field.{pasted};
ghost use Rattle.report.specs.Layout.{answer_length, answer_line, answer_fits, position_length, position_line, position_fits};

use digits::writing::{put, sign};
use digits::{BLANK, has_room};
use lines::line::LINE_END;
use positions::posting::in_limit;

// The bytes of an answer line and of a position line.
pub const ANSWER: usize = 10;

pub const POSITION: usize = 27;

// The largest number of a line or a party, the largest answer and the largest kind.
pub const LAST_NUMBER: u64 = 999_999;

const LAST_ANSWER: u64 = 999;

const WIDEST_KIND: u64 = 99;

// The lines answered and the bytes written so far.
#[derive(Clone, Copy, Debug, PartialEq, Eq)]
pub struct Progress {
    pub lines: u64,
    pub written: usize,
}

// Writes the answer line of a line's number to a place that has room for it.
#[tactic(auto, using(crate::proofs::Laws::Layout::answer_line_written))]
fn put_answer(out: &mut [u8], at: usize, number: u64, answer: u64)
    requires { at + answer_length ≤ length out.old }
    ensures { out.new ≡ pasted at (answer_line number answer) out.old }
{
    put(out, at, 6, BLANK, number);
    put(out, at + 6, 3, BLANK, answer);
    out[at + 9] = LINE_END;
}

// Writes the position line of a party to a place that has room for it; the kind is a number, as below.
#[tactic(auto, using(crate::proofs::Laws::Layout::position_line_written))]
fn put_position(out: &mut [u8], at: usize, kind: u64, number: u64, cents: i64)
    requires { at + position_length ≤ length out.old }
    ensures { out.new ≡ pasted at (position_line kind number cents) out.old }
{
    put(out, at, 2, BLANK, kind);
    put(out, at + 2, 6, BLANK, number);
    put(out, at + 8, 18, sign(cents), cents.unsigned_abs());
    out[at + 26] = LINE_END;
}

// Writes the answer line of a line's number, or writes nothing: whether it did.
#[tactic(auto, unfolding(crate::specs::Layout::answer_fits))]
pub fn answer_line(out: &mut [u8], at: usize, number: u64, answer: u64) -> bool
    ensures answer { result ≡ answer_fits at number answer out.old }
    ensures bytes { out.new ≡ cond (answer_fits at number answer out.old) (pasted at (answer_line number answer) out.old) out.old }
{
    let fits = has_room(out.len(), at, ANSWER) & (number <= LAST_NUMBER) & (answer <= LAST_ANSWER);
    if fits {
        put_answer(out, at, number, answer);
    }
    fits
}

// Writes the position line of a party, or writes nothing: whether it did. The kind is a number: any that its columns hold is written.
#[tactic(auto, unfolding(crate::specs::Layout::position_fits))]
pub fn position_line(out: &mut [u8], at: usize, kind: u64, number: u64, cents: i64) -> bool
    ensures answer { result ≡ position_fits at kind number cents out.old }
    ensures bytes { out.new ≡ cond (position_fits at kind number cents out.old) (pasted at (position_line kind number cents) out.old) out.old }
{
    let fits = has_room(out.len(), at, POSITION)
        & (kind <= WIDEST_KIND)
        & (number <= LAST_NUMBER)
        & in_limit(cents);
    if fits {
        put_position(out, at, kind, number, cents);
    }
    fits
}
