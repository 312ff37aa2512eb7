// Fitness of lent memory, refusal 2: specs/Fitness. One pass over each table.
ghost use Rattle.std.specs.Prelude.{◌≡◌, ◌≤◌, length};
ghost use Rattle.std.specs.List.{list_all};
ghost use Rattle.common.specs.Tests.{all_of};
ghost use Rattle.tables.specs.Ledger.{ledger_of};
ghost use Rattle.fitness.specs.Fitness.{none_or_date, compensation_fit, row_count_fit, sizes_of, header_of, named_tests, mandate_fit, day_fit, collection_fit, creditor_fit, creditors_fit, positions_fit, fit};

use calendar::gregorian::in_range;
use common::{
    AMOUNT_LIMIT, BANKS, COLLECTION_ROWS, CREDITORS, DEBTORS, MANDATE_ROWS, NUMBER_LIMIT,
    POSITION_LIMIT,
};
use positions::posting::in_limit;
use tables::creditors::is_added;
use tables::lookup::used_rows;
use tables::rows::{STRIDE, rows_of};
use tables::{BookRef, Header, collection_column, mandate_column};

fn none_or_date(x: u64) -> bool
    ensures { result ≡ none_or_date x }
{
    (x == 0) | in_range(x)
}

fn compensation_fit(z: i64) -> bool
    ensures { result ≡ compensation_fit z }
{
    (0 <= z) & (z <= POSITION_LIMIT)
}

fn row_count_fit(cells: &[u64], most: usize) -> bool
    ensures { result ≡ row_count_fit most cells.now }
{
    let n = rows_of(cells);
    (cells.len() % STRIDE == 0) & (1 <= n) & (n <= most)
}

// Row counts and table sizes, all that the opening looks at. The tables come one by one: the opening has no book, since C lends it the
// rows to be read alone, and one made for this test would be no plainer.
#[tactic(auto, unfolding(crate::specs::Fitness::sizes_of))]
pub fn sizes_fit(
    mandates: &[u64],
    collections: &[u64],
    creditors: &[u64],
    creditor_positions: &[i64],
    debtor_positions: &[i64],
    bank_positions: &[i64],
) -> bool
    ensures { result ≡ sizes_of mandates.now collections.now creditors.now creditor_positions.now debtor_positions.now bank_positions.now }
{
    row_count_fit(mandates, MANDATE_ROWS)
        & row_count_fit(collections, COLLECTION_ROWS)
        & (creditors.len() == CREDITORS as usize)
        & (creditor_positions.len() == CREDITORS as usize)
        & (debtor_positions.len() == DEBTORS as usize)
        & (bank_positions.len() == BANKS as usize)
}

#[tactic(auto, unfolding(crate::specs::Fitness::header_of))]
fn header_fit(header: Header, mandates: &[u64], collections: &[u64]) -> bool
    ensures { result ≡ header_of header.latest header.mandates header.collections header.compensation mandates.now collections.now }
{
    (header.mandates <= rows_of(mandates))
        & (header.collections <= rows_of(collections))
        & none_or_date(header.latest)
        & compensation_fit(header.compensation)
}

// The number and the parties of a row, in either table.
fn named_fit(creditors: &[u64], number: u64, creditor: u64, debtor: u64) -> bool
    ensures { result ≡ all_of (named_tests creditors.now number creditor debtor) }
{
    ((1 <= number) & (number <= NUMBER_LIMIT))
        & ((1 <= creditor) & (creditor <= CREDITORS))
        & is_added(creditors, creditor)
        & ((1 <= debtor) & (debtor <= DEBTORS))
}

// The cells of one mandate row.
#[tactic(auto, unfolding(crate::specs::Fitness::mandate_fit))]
fn mandate_fit(creditors: &[u64], fields: &[u64; STRIDE]) -> bool
    ensures { result ≡ mandate_fit creditors.now fields.now }
{
    let bank = fields[mandate_column::BANK];
    named_fit(
        creditors,
        fields[mandate_column::NUMBER],
        fields[mandate_column::CREDITOR],
        fields[mandate_column::DEBTOR],
    ) & ((1 <= bank) & (bank <= BANKS))
        & in_range(fields[mandate_column::SIGNED])
        & (fields[mandate_column::CODE] <= 1)
        & (fields[mandate_column::STANDING] <= 2)
        & (fields[mandate_column::FIRST] <= 1)
        & none_or_date(fields[mandate_column::PRESENTED])
}

// One line, like `collections_fit`: with the test of a row as a parameter both would be as long.
fn mandates_fit(creditors: &[u64], rows: &[[u64; STRIDE]]) -> bool
    ensures { result ≡ list_all (mandate_fit creditors.now) rows.now }
{
    rows.iter().all(|row| mandate_fit(creditors, row))
}

// The day of a state, by its tag; it is looked at in a settled or undone row alone.
fn day_fit(latest: u64, tag: u64, day: u64) -> bool
    ensures { result ≡ day_fit latest tag day }
{
    (tag <= 1) || (in_range(day) & (day <= latest))
}

// The cells of one collection row.
#[tactic(auto, unfolding(crate::specs::Fitness::collection_fit))]
fn collection_fit(latest: u64, creditors: &[u64], fields: &[u64; STRIDE]) -> bool
    ensures { result ≡ collection_fit latest creditors.now fields.now }
{
    let cbank = fields[collection_column::CBANK];
    let dbank = fields[collection_column::DBANK];
    let amount = fields[collection_column::AMOUNT];
    let tag = fields[collection_column::STATE];
    named_fit(
        creditors,
        fields[collection_column::NUMBER],
        fields[collection_column::CREDITOR],
        fields[collection_column::DEBTOR],
    ) & ((1 <= cbank) & (cbank <= BANKS))
        & ((1 <= dbank) & (dbank <= BANKS))
        & ((1 <= amount) & (amount <= AMOUNT_LIMIT))
        & in_range(fields[collection_column::DUE])
        & (tag <= 5)
        & day_fit(latest, tag, fields[collection_column::DAY])
}

fn collections_fit(latest: u64, creditors: &[u64], rows: &[[u64; STRIDE]]) -> bool
    ensures { result ≡ list_all (collection_fit latest creditors.now) rows.now }
{
    rows.iter()
        .all(|row| collection_fit(latest, creditors, row))
}

// One creditor's bank and position.
#[tactic(auto, unfolding(crate::specs::Fitness::creditor_fit))]
fn creditor_fit(bank: u64, position: i64) -> bool
    ensures { result ≡ creditor_fit bank position }
{
    (bank <= BANKS) & in_limit(position) & ((1 <= bank) | (position == 0))
}

fn creditors_fit(creditors: &[u64], positions: &[i64]) -> bool
    requires { length creditors.now ≤ length positions.now }
    ensures { result ≡ creditors_fit creditors.now positions.now }
{
    creditors
        .iter()
        .zip(positions)
        .all(|(bank, position)| creditor_fit(*bank, *position))
}

fn positions_fit(positions: &[i64]) -> bool
    ensures { result ≡ positions_fit positions.now }
{
    positions.iter().all(|z| in_limit(*z))
}

// Whether lent memory is fit, for any content and any sizes.
pub fn is_fit(book: &BookRef) -> bool
    ensures { result ≡ fit (ledger_of book.now) }
{
    if !sizes_fit(
        book.mandates,
        book.collections,
        book.creditors,
        book.creditor_positions,
        book.debtor_positions,
        book.bank_positions,
    ) {
        return false;
    }
    if !header_fit(book.header, book.mandates, book.collections) {
        return false;
    }
    let header = book.header;
    let mandates = used_rows(book.mandates, header.mandates);
    let collections = used_rows(book.collections, header.collections);
    mandates_fit(book.creditors, mandates)
        & collections_fit(header.latest, book.creditors, collections)
        & creditors_fit(book.creditors, book.creditor_positions)
        & positions_fit(book.debtor_positions)
        & positions_fit(book.bank_positions)
}
