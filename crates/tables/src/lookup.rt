// Lookup by number: specs/Lookup.
ghost use Rattle.std.specs.Prelude.{◌||◌, ◌≡◌, ℕ, ◌+◌, ◌-◌, ◌≤◌, ◌<◌, map};
ghost use Rattle.std.specs.List.{range_with_len};
ghost use Rattle.common.specs.Walk.{first_from};
ghost use Rattle.tables.specs.Lookup.{number_is, existing, lookup, lookup_since};
ghost use Rattle.tables.specs.Limits.{stride};
ghost use Rattle.tables.specs.Rows.{rows, row_at};

use crate::rows::{STRIDE, rows_of};

// The used rows that there are. Cells and the number of used rows come apart, here and above: a book has them in a table and in its header.
// A struct of both would be made for each call and hold no fact, since the number may be past the table's end.
pub fn existing_of(cells: &[u64], used: usize) -> usize
    ensures { result ≡ existing cells.now used }
{
    used.min(rows_of(cells))
}

// The cells of each of them, row by row.
#[tactic(auto, using(crate::proofs::Laws::Lookup::rows_used))]
pub fn used_rows(cells: &[u64], used: usize) -> &[[u64; STRIDE]]
    ensures { result.now ≡ map (row_at stride cells.now) (range_with_len 0 (existing cells.now used)) }
{
    let (rows, _) = cells.as_chunks();
    &rows[..existing_of(cells, used)]
}

// Whether one of the four rows from a row on has the number.
fn in_four(cells: &[u64], row: usize, number: u64) -> bool
    requires { row + 4 ≤ rows cells.now }
    ensures { result ≡ ((number_is cells.now number row || number_is cells.now number (row + 1)) || number_is cells.now number (row + 2)) || number_is cells.now number (row + 3) }
{
    let b = row * STRIDE;
    (cells[b] == number)
        | (cells[b + STRIDE] == number)
        | (cells[b + 2 * STRIDE] == number)
        | (cells[b + 3 * STRIDE] == number)
}

// A row before which none has the number, from a row on: eight rows are passed over a turn. Which of those rows it is does not matter: the
// walk from each of them has one answer.
fn skip(cells: &[u64], from: usize, n: usize, number: u64) -> usize
    requires { (from ≤ n) × (n ≤ rows cells.now) }
    ensures { first_from (number_is cells.now number) Some None result (n - result) ≡ first_from (number_is cells.now number) Some None from (n - from) }
{
    let turns = (n - from) / 8;
    for turn in 0..turns {
        let row = from + 8 * turn;
        if in_four(cells, row, number) | in_four(cells, row + 4, number) {
            return row;
        }
    }
    from + 8 * turns
}

// The lowest row of the number from a row on, below n.
fn find_from(cells: &[u64], from: usize, n: usize, number: u64) -> Option<usize>
    requires { n ≤ rows cells.now }
    ensures { result ≡ first_from (number_is cells.now number) Some None from (n - from) }
{
    (from..n).find(|&i| cells[i * STRIDE] == number)
}

// The lowest used row of a number from a row on, in either table. That row is looked at first. It walks cells: by `position` over the used
// rows as one slice a replay on full tables took 1.4 to 1.5 times as long.
pub fn find_since(cells: &[u64], used: usize, number: u64, since: usize) -> Option<usize>
    ensures { result ≡ lookup_since cells.now used number since }
{
    let n = existing_of(cells, used);
    if n <= since {
        return None;
    }
    if cells[since * STRIDE] == number {
        return Some(since);
    }
    let from = skip(cells, since, n, number);
    find_from(cells, from, n, number)
}

// The lowest used row of a number, in either table.
pub fn find(cells: &[u64], used: usize, number: u64) -> Option<usize>
    ensures { result ≡ lookup cells.now used number }
{
    find_since(cells, used, number, 0)
}
