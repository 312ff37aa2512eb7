// Cells read: specs/Cells.
ghost use Rattle.std.specs.Prelude.{◌≡◌, get_or};
ghost use Rattle.cells.specs.Cells.{state_cells_fit, cells_fit, event_cells_fit, header_in, cells_event, lines_in, filled_in};

use crate::{COLLECTIONS_USED, COMPENSATION, FILLED, LATEST, LINES, MANDATES_USED};
use events::{Event, FIELDS};
use std::array;
use tables::Header;

const STATE_CELLS: usize = 7;

const CENTS_CELLS: usize = 2;

// Whether there are as many cells of a state as there should be.
pub fn state_cells_fit(state: &[u64]) -> bool
    ensures { result ≡ state_cells_fit state.now }
{
    state.len() == STATE_CELLS
}

// Whether there are as many cells of a state and of cents.
pub fn cells_fit(state: &[u64], cents: &[i64]) -> bool
    ensures { result ≡ cells_fit state.now cents.now }
{
    (state.len() == STATE_CELLS) & (cents.len() == CENTS_CELLS)
}

// Whether there are as many cells of an event.
pub fn event_cells_fit(event: &[u64]) -> bool
    ensures { result ≡ event_cells_fit event.now }
{
    event.len() == FIELDS
}

// A cell, `none` where there is none.
fn cell<T: Copy>(cells: &[T], i: usize, none: T) -> T
    ensures { result ≡ get_or cells.now i none }
{
    cells.get(i).copied().unwrap_or(none)
}

// The header that stands in the cells.
pub fn header_in(state: &[u64], cents: &[i64]) -> Header
    ensures { result ≡ header_in state.now cents.now }
{
    Header {
        latest: cell(state, LATEST, 0),
        mandates: cell(state, MANDATES_USED, 0) as usize,
        collections: cell(state, COLLECTIONS_USED, 0) as usize,
        compensation: cell(cents, COMPENSATION, 0),
    }
}

// The lines answered.
pub fn lines_in(state: &[u64]) -> u64
    ensures { result ≡ lines_in state.now }
{
    cell(state, LINES, 0)
}

// The bytes of the text.
pub fn filled_in(state: &[u64]) -> usize
    ensures { result ≡ filled_in state.now }
{
    cell(state, FILLED, 0) as usize
}

// The event that stands in the cells.
pub fn event_in(event: &[u64]) -> Event
    ensures { result ≡ cells_event event.now }
{
    Event::from(array::from_fn(|i| cell(event, i, 0)))
}
