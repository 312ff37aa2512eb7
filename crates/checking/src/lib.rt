// What the code for every event shares: what it asks for, and the rows of what it names.
#![tactic(auto)]

ghost use Rattle.std.specs.Prelude.{◌≡◌};
ghost use Rattle.checking.specs.Calls.{used_row, found_row};

pub mod actions;

use tables::lookup::existing_of;

// Whether a row was found that is one of the used rows that there are.
pub fn is_used(found: Option<usize>, cells: &[u64], used: usize) -> bool
    ensures { result ≡ used_row cells.now used found }
{
    found.is_some_and(|row| row < existing_of(cells, used))
}

// The row that was found; the first where none was, which a caller tells apart by `is_used`.
pub fn found_row(found: Option<usize>) -> usize
    ensures { result ≡ found_row found }
{
    found.unwrap_or(0)
}
