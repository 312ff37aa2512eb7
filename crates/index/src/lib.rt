// An index of the rows of a table by number, for a batch of lookups: specs/Index.
#![tactic(auto)]

ghost use Rattle.std.specs.Prelude.{◌≡◌, ◌<◌};
ghost use Rattle.index.specs.Index.{slot_of, covered, index_of, next_row, first_row};
ghost use Rattle.tables.specs.Lookup.{number_at};

use common::COLLECTION_ROWS;
use tables::lookup::existing_of;
use tables::rows::STRIDE;

const SLOTS: usize = 4096;

// The most rows that an index covers.
const ROWS: usize = COLLECTION_ROWS;

// The first row of each slot, for each row the next one of its slot, and the rows that are covered. Rows are linked by their numbers, and no
// map holds them: there is no heap. They are counted from 1 with 0 for none: an Option at each of the places that read or write a link is no shorter.
#[derive(Clone, Copy, Debug, PartialEq, Eq)]
pub struct Index {
    pub first: [u16; SLOTS],
    pub next: [u16; ROWS],
    pub covered: u16,
}

fn slot_of(number: u64) -> usize
    ensures is { result ≡ slot_of number }
    ensures slot { result < 4096 }
{
    (number % 4096) as usize
}

// The rows of a table that an index covers.
fn covered_of(cells: &[u64], used: usize) -> usize
    ensures { result ≡ covered cells.now used }
{
    existing_of(cells, used).min(ROWS)
}

// The number of a row, 0 past the end.
fn number_at(cells: &[u64], row: usize) -> u64
    requires { row < 65536 }
    ensures { result ≡ number_at cells.now row }
{
    cells.get(row * STRIDE).copied().unwrap_or(0)
}

impl Index {
    // The index of a table, from the last row that it covers to the first.
    pub fn of(cells: &[u64], used: usize) -> Index
        ensures { result ≡ index_of cells.now used }
    {
        let n = covered_of(cells, used);
        let mut made = Index {
            first: [0; SLOTS],
            next: [0; ROWS],
            covered: n as u16,
        };
        for i in (0..n).rev() {
            let slot = slot_of(cells[i * STRIDE]);
            made.next[i] = made.first[slot];
            made.first[slot] = (i + 1) as u16;
        }
        made
    }

    // The next row of a row's slot.
    fn next_row(&self, row: usize) -> u16
        ensures { result ≡ next_row self.now row }
    {
        self.next.get(row).copied().unwrap_or(0)
    }

    // A row before which none has the number, by the index: the rows of its slot are followed to the first that has it. So many turns
    // are enough, and it ends whatever stands in the index.
    pub fn first_row(&self, cells: &[u64], number: u64) -> usize
        ensures { result ≡ first_row self.now cells.now number }
    {
        let mut k = self.first[slot_of(number)];
        for _ in 0..ROWS {
            if k == 0 {
                break;
            }
            let row = usize::from(k) - 1;
            if number_at(cells, row) == number {
                return row;
            }
            k = self.next_row(row);
        }
        usize::from(self.covered)
    }
}
