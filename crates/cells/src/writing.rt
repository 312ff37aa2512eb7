// Cells written: specs/Cells.
ghost use Rattle.std.specs.Prelude.{◌≡◌, set};
ghost use Rattle.refusals.specs.Refusals.{answer_number};
ghost use Rattle.cells.specs.Cells.{header_state, header_cents, counts_state, written_state, figure_cents, fresh_state, fresh_cents};

use crate::{
    COLLECTIONS_USED, COMPENSATION, Counts, FIGURE, FILLED, LATEST, LINES, MANDATES_USED, PAST,
    WRITTEN,
};
use refusals::{Refusal, answer_number};
use tables::Header;

// Writes a cell, if it is there. By `get_mut` the proof did not close: of a slice it tells the length after the write, and no element.
fn put<T: Copy>(cells: &mut [T], i: usize, x: T)
    ensures { cells.new ≡ set cells.old i x }
{
    if i < cells.len() {
        cells[i] = x;
    }
}

// Writes a header; the other cells stay.
pub fn put_header(header: Header, state: &mut [u64], cents: &mut [i64])
    ensures state { state.new ≡ header_state header state.old }
    ensures cents { cents.new ≡ header_cents header cents.old }
{
    put(state, LATEST, header.latest);
    put(state, MANDATES_USED, header.mandates as u64);
    put(state, COLLECTIONS_USED, header.collections as u64);
    put(cents, COMPENSATION, header.compensation);
}

// Writes what a text leaves; the other cells stay.
pub fn put_counts(counts: Counts, state: &mut [u64])
    ensures { state.new ≡ counts_state counts state.old }
{
    put(state, LINES, counts.lines);
    put(state, FILLED, counts.partial as u64);
    put(state, WRITTEN, counts.written as u64);
    put(state, PAST, counts.past);
}

// Writes how many bytes a listing has; the other cells stay.
pub fn put_written(written: usize, state: &mut [u64])
    ensures { state.new ≡ written_state written state.old }
{
    put(state, WRITTEN, written as u64);
}

// Writes 0 to every cell of a state and of cents.
pub fn put_fresh(state: &mut [u64], cents: &mut [i64])
    ensures state { state.new ≡ fresh_state state.old }
    ensures cents { cents.new ≡ fresh_cents cents.old }
{
    put_header(Header::default(), state, cents);
    put_counts(Counts::default(), state);
    put(cents, FIGURE, 0);
}

// The number of the answer to a position query; its figure is written where there is one.
pub fn put_query(answer: Result<i64, Refusal>, cents: &mut [i64]) -> u64
    ensures number { result ≡ answer_number answer }
    ensures cents { cents.new ≡ figure_cents answer cents.old }
{
    if let Ok(figure) = answer {
        put(cents, FIGURE, figure);
    }
    answer_number(&answer)
}
