// The ledger for programs in C or Rust: functions on numbers and slices, for any sizes and any content. A slice passes as
// a pointer and a length, and so the tables come one by one, and each call makes a book of them: the C interface needs it. What stands in
// which cell: crates/cells/specs/Cells.
#![tactic(auto)]

ghost use Rattle.std.specs.Prelude.{◌≡◌, ◌&&◌};
ghost use Rattle.tables.specs.Ledger.{ledger};
ghost use Rattle.fitness.specs.Fitness.{fit};
ghost use Rattle.safety.specs.Safety.{is_safe};
ghost use Rattle.cells.specs.Cells.{cells_fit, header_in};

pub mod books;
pub mod queries;
pub mod texts;

use cells::reading::{cells_fit, header_in};
use fitness::fitness::is_fit;
use safety::is_safe;
use tables::BookRef;

// Whether lent memory is fit.
pub fn kalanhav_is_fit(
    state: &[u64],
    cents: &[i64],
    mandates: &[u64],
    collections: &[u64],
    creditors: &[u64],
    creditor_positions: &[i64],
    debtor_positions: &[i64],
    bank_positions: &[i64],
) -> bool
    ensures { result ≡ (cells_fit state.now cents.now && fit (ledger (header_in state.now cents.now) mandates.now collections.now creditors.now creditor_positions.now debtor_positions.now bank_positions.now)) }
{
    let book = BookRef {
        header: header_in(state, cents),
        mandates,
        collections,
        creditors,
        creditor_positions,
        debtor_positions,
        bank_positions,
    };
    cells_fit(state, cents) && is_fit(&book)
}

// Whether lent memory is safe: fit, and every position within what the collections have moved.
pub fn kalanhav_is_safe(
    state: &[u64],
    cents: &[i64],
    mandates: &[u64],
    collections: &[u64],
    creditors: &[u64],
    creditor_positions: &[i64],
    debtor_positions: &[i64],
    bank_positions: &[i64],
) -> bool
    ensures { result ≡ (cells_fit state.now cents.now && is_safe (ledger (header_in state.now cents.now) mandates.now collections.now creditors.now creditor_positions.now debtor_positions.now bank_positions.now)) }
{
    let book = BookRef {
        header: header_in(state, cents),
        mandates,
        collections,
        creditors,
        creditor_positions,
        debtor_positions,
        bank_positions,
    };
    cells_fit(state, cents) && is_safe(&book)
}
