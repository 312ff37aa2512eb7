// Reading and writing a row: specs/Records and specs/Rows.
ghost use Rattle.std.specs.Prelude.{◌≡◌, List, ℕ, ◌+◌, ◌*◌, ◌<◌, get_or};
ghost use Rattle.tables.specs.Limits.{stride};
ghost use Rattle.tables.specs.Records.{standing_tag as tag_of, standing_of, mandate_cells, mandate_from, state_tag, state_day, state_of, collection_cells, collection_from};
ghost use Rattle.tables.specs.Rows.{rows, row_at, put_row};

use crate::{Collection, Mandate, Standing, State, Undoing, collection_column, mandate_column};
use std::array;

// The cells of a row, in either table.
pub const STRIDE: usize = 9;

// A record in the cells of a row.
pub trait Record: Sized {
    ghost cells: { Self → List ℕ };

    ghost from: { List ℕ → Self };

    // The cells of the record, in the order of their columns.
    fn to_cells(self) -> [u64; STRIDE]
        ensures { result ≡ cells self };

    fn from_cells(fields: &[u64; STRIDE]) -> Self
        ensures { result ≡ from fields.now };
}

// The whole rows of a table.
pub fn rows_of(cells: &[u64]) -> usize
    ensures { result ≡ rows cells.now }
{
    cells.len() / STRIDE
}

// Cell k of a row, 0 past the end.
fn cell(cells: &[u64], row: usize, k: usize) -> u64
    requires { k < stride }
    ensures { result ≡ get_or cells.now (row * stride + k) 0 }
{
    if row < cells.len() {
        cells.get(row * STRIDE + k).copied().unwrap_or(0)
    } else {
        0
    }
}

// The cells of a row, each 0 past the end.
fn fields_at(cells: &[u64], row: usize) -> [u64; STRIDE]
    ensures { result ≡ row_at stride cells.now row }
{
    array::from_fn(|k| cell(cells, row, k))
}

// The record of a row. A row past the end reads as cells of 0.
pub fn record_at<R: Record>(cells: &[u64], row: usize) -> R
    ensures { result ≡ R.from (row_at stride cells.now row) }
{
    R::from_cells(&fields_at(cells, row))
}

// The record over the cells of a row; a row that is not there whole is not written.
pub fn put_record<R: Record + Copy>(cells: &mut [u64], row: usize, r: R)
    ensures { cells.new ≡ put_row stride cells.old row (R.cells r) }
{
    if row < cells.len() / STRIDE {
        let b = row * STRIDE;
        cells[b..b + STRIDE].copy_from_slice(&r.to_cells());
    }
}

impl From<u64> for Standing {
    ghost use Rattle.std.specs.Prelude.{◌≡◌};
    ghost use Rattle.tables.specs.Records.{standing_of};

    ghost from_gives = { λ tag s. s ≡ standing_of tag };

    fn from(tag: u64) -> Standing {
        match tag {
            0 => Standing::Live,
            1 => Standing::Closed,
            // 2, and in unfit memory any tag past it
            _ => Standing::Cancelled,
        }
    }
}

impl From<Standing> for u64 {
    ghost use Rattle.std.specs.Prelude.{◌≡◌};
    ghost use Rattle.tables.specs.Records.{standing_tag};

    ghost from_gives = { λ s tag. tag ≡ standing_tag s };

    fn from(standing: Standing) -> u64 {
        match standing {
            Standing::Live => 0,
            Standing::Closed => 1,
            Standing::Cancelled => 2,
        }
    }
}

impl Record for Mandate {
    ghost use Rattle.tables.specs.Records.{mandate_cells, mandate_from};

    ghost cells = { mandate_cells };

    ghost from = { mandate_from };

    fn to_cells(self) -> [u64; STRIDE] {
        let standing = self.standing;
        [
            self.number,
            self.creditor,
            self.debtor,
            self.bank,
            self.signed,
            self.code,
            u64::from(standing),
            u64::from(self.first),
            self.presented,
        ]
    }

    #[tactic(auto, unfolding(crate::specs::Records::mandate_from))]
    fn from_cells(fields: &[u64; STRIDE]) -> Mandate {
        Mandate {
            number: fields[mandate_column::NUMBER],
            creditor: fields[mandate_column::CREDITOR],
            debtor: fields[mandate_column::DEBTOR],
            bank: fields[mandate_column::BANK],
            signed: fields[mandate_column::SIGNED],
            code: fields[mandate_column::CODE],
            standing: Standing::from(fields[mandate_column::STANDING]),
            first: fields[mandate_column::FIRST] != 0,
            presented: fields[mandate_column::PRESENTED],
        }
    }
}

impl State {
    // The state of a tag and a day.
    fn of(tag: u64, day: u64) -> State
        ensures { result ≡ state_of tag day }
    {
        match tag {
            0 => State::Presented,
            1 => State::Rejected,
            2 => State::Settled(day),
            3 => State::Undone(day, Undoing::Return),
            4 => State::Undone(day, Undoing::Refund),
            // 5, and in unfit memory any tag past it
            _ => State::Undone(day, Undoing::Reversal),
        }
    }

    fn tag(self) -> u64
        ensures { result ≡ state_tag self }
    {
        match self {
            State::Presented => 0,
            State::Rejected => 1,
            State::Settled(_) => 2,
            State::Undone(_, Undoing::Return) => 3,
            State::Undone(_, Undoing::Refund) => 4,
            State::Undone(_, Undoing::Reversal) => 5,
        }
    }

    fn day(self) -> u64
        ensures { result ≡ state_day self }
    {
        match self {
            State::Presented | State::Rejected => 0,
            State::Settled(day) | State::Undone(day, _) => day,
        }
    }
}

impl Record for Collection {
    ghost use Rattle.tables.specs.Records.{collection_cells, collection_from};

    ghost cells = { collection_cells };

    ghost from = { collection_from };

    fn to_cells(self) -> [u64; STRIDE] {
        let state = self.state;
        [
            self.number,
            self.creditor,
            self.debtor,
            self.cbank,
            self.dbank,
            self.amount,
            self.due,
            state.tag(),
            state.day(),
        ]
    }

    #[tactic(auto, unfolding(crate::specs::Records::collection_from))]
    fn from_cells(fields: &[u64; STRIDE]) -> Collection {
        Collection {
            number: fields[collection_column::NUMBER],
            creditor: fields[collection_column::CREDITOR],
            debtor: fields[collection_column::DEBTOR],
            cbank: fields[collection_column::CBANK],
            dbank: fields[collection_column::DBANK],
            amount: fields[collection_column::AMOUNT],
            due: fields[collection_column::DUE],
            state: State::of(
                fields[collection_column::STATE],
                fields[collection_column::DAY],
            ),
        }
    }
}
