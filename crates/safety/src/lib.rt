// Safety of lent memory: fit, and every position within what the collections have moved: specs/Safety. An event keeps safe
// memory safe, so a batch of events tests once.
#![tactic(auto)]

ghost use Rattle.std.specs.Prelude.{◌≡◌, ◌≤◌, length, get_or};
ghost use Rattle.std.specs.List.{sum_by};
ghost use Rattle.common.specs.Limits.{collection_row_limit};
ghost use Rattle.tables.specs.CollectionColumn;
ghost use Rattle.tables.specs.Ledger.{ledger_of};
ghost use Rattle.safety.specs.Safety.{tag_moved, between, all_between, is_safe};

use common::AMOUNT_LIMIT;
use fitness::fitness::is_fit;
use positions::COMPENSATION_LIMIT;
use tables::lookup::used_rows;
use tables::rows::STRIDE;
use tables::{BookRef, collection_column};

// What one row moves a position by at most: an amount when settled, an amount and its compensation when undone.
const ROW_MOVE: u64 = AMOUNT_LIMIT + (AMOUNT_LIMIT + COMPENSATION_LIMIT);

// What a row has moved at most, by the tag of its state.
fn tag_moved(tag: u64) -> u64
    ensures { result ≡ tag_moved tag }
{
    match tag {
        0 | 1 => 0,
        2 => AMOUNT_LIMIT,
        _ => ROW_MOVE,
    }
}

// What the rows have moved at most.
fn sum_moved(rows: &[[u64; STRIDE]]) -> u64
    requires { length rows.now ≤ collection_row_limit }
    ensures { result ≡ sum_by (λ fields. tag_moved (get_or fields CollectionColumn.state 0)) rows.now }
{
    rows.iter()
        .map(|row| tag_moved(row[collection_column::STATE]))
        .sum()
}

fn is_between(low: i64, high: i64, z: i64) -> bool
    ensures { result ≡ between low high z }
{
    (low <= z) & (z <= high)
}

fn all_between(low: i64, high: i64, positions: &[i64]) -> bool
    ensures { result ≡ all_between low high positions.now }
{
    positions.iter().all(|z| is_between(low, high, *z))
}

// Whether lent memory is safe, for any content and any sizes.
pub fn is_safe(book: &BookRef) -> bool
    ensures { result ≡ is_safe (ledger_of book.now) }
{
    if !is_fit(book) {
        return false;
    }
    let header = book.header;
    let high = sum_moved(used_rows(book.collections, header.collections)) as i64;
    let low = -high;
    all_between(low, high, book.creditor_positions)
        & all_between(low, high, book.debtor_positions)
        & all_between(low, high, book.bank_positions)
        & is_between(low, high, header.compensation)
}
