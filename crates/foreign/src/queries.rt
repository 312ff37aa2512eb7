// The position query over lent cells: specs/Queries.
ghost use Rattle.tables.specs.Ledger.{ledger};
ghost use Rattle.cells.specs.Cells.{header_in};
ghost use Rattle.foreign.specs.Queries.{QueryCall};

use book::query::position;
use cells::reading::{cells_fit, header_in};
use cells::writing::put_query;
use refusals::Refusal;
use tables::BookRef;

// A position in cents, written to its cell: book's `position`. The kind is a number, as C has it. 0, or 2 or 5, where nothing changes.
pub fn kalanhav_position(
    state: &[u64],
    cents: &mut [i64],
    kind: u64,
    number: u64,
    mandates: &[u64],
    collections: &[u64],
    creditors: &[u64],
    creditor_positions: &[i64],
    debtor_positions: &[i64],
    bank_positions: &[i64],
) -> u64
    ensures { QueryCall state.now cents.old (ledger (header_in state.now cents.old) mandates.now collections.now creditors.now creditor_positions.now debtor_positions.now bank_positions.now) kind number result cents.new }
{
    if !cells_fit(state, cents) {
        return u64::from(Refusal::UnfitMemory);
    }
    let book = BookRef {
        header: header_in(state, cents),
        mandates,
        collections,
        creditors,
        creditor_positions,
        debtor_positions,
        bank_positions,
    };
    put_query(position(&book, kind, number), cents)
}
