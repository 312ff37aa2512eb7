// The calls that change the book: opening, an event, a list of events: specs/Books.
ghost use Rattle.tables.specs.Ledger.{ledger};
ghost use Rattle.cells.specs.Cells.{header_in};
ghost use Rattle.foreign.specs.Books.{OpenCall, EventCall, ReplayCall};

use book::event::take_event;
use cells::reading::{cells_fit, event_cells_fit, event_in, header_in};
use cells::writing::{put_fresh, put_header};
use opening::open_ledger;
use refusals::{Refusal, answer_number};
use replay::replay::replay;
use tables::BookMut;

// Opens the ledger. 0, or 2 where nothing changes: cells of another count, or tables of other sizes.
pub fn kalanhav_open(
    state: &mut [u64],
    cents: &mut [i64],
    mandates: &[u64],
    collections: &[u64],
    creditors: &mut [u64],
    creditor_positions: &mut [i64],
    debtor_positions: &mut [i64],
    bank_positions: &mut [i64],
) -> u64
    ensures { OpenCall state.old cents.old (ledger (header_in state.old cents.old) mandates.now collections.now creditors.old creditor_positions.old debtor_positions.old bank_positions.old) result
        state.new cents.new (ledger (header_in state.new cents.new) mandates.now collections.now creditors.new creditor_positions.new debtor_positions.new bank_positions.new) }
{
    if !cells_fit(state, cents) {
        return u64::from(Refusal::UnfitMemory);
    }
    let mut header = header_in(state, cents);
    match open_ledger(
        &mut header,
        mandates,
        collections,
        creditors,
        creditor_positions,
        debtor_positions,
        bank_positions,
    ) {
        Ok(()) => {
            put_fresh(state, cents);
            0
        }
        Err(r) => u64::from(r),
    }
}

// Gives one event to the ledger: book's `take_event`. 0, or the number of the refusal, where nothing changes.
pub fn kalanhav_take_event(
    state: &mut [u64],
    cents: &mut [i64],
    event: &[u64],
    mandates: &mut [u64],
    collections: &mut [u64],
    creditors: &mut [u64],
    creditor_positions: &mut [i64],
    debtor_positions: &mut [i64],
    bank_positions: &mut [i64],
) -> u64
    ensures { EventCall state.old cents.old event.now (ledger (header_in state.old cents.old) mandates.old collections.old creditors.old creditor_positions.old debtor_positions.old bank_positions.old) result
        state.new cents.new (ledger (header_in state.new cents.new) mandates.new collections.new creditors.new creditor_positions.new debtor_positions.new bank_positions.new) }
{
    if !(cells_fit(state, cents) && event_cells_fit(event)) {
        return u64::from(Refusal::UnfitMemory);
    }
    let mut book = BookMut {
        header: header_in(state, cents),
        mandates,
        collections,
        creditors,
        creditor_positions,
        debtor_positions,
        bank_positions,
    };
    let answer = take_event(&mut book, event_in(event));
    put_header(book.header, state, cents);
    answer_number(&answer)
}

// Opens the ledger and gives it every event of a list: replay's `replay`. 0, or 2 where nothing changes: cells of
// another count, or tables of other sizes.
pub fn kalanhav_replay(
    state: &mut [u64],
    cents: &mut [i64],
    events: &[u64],
    mandates: &mut [u64],
    collections: &mut [u64],
    creditors: &mut [u64],
    creditor_positions: &mut [i64],
    debtor_positions: &mut [i64],
    bank_positions: &mut [i64],
) -> u64
    ensures { ReplayCall state.old cents.old events.now (ledger (header_in state.old cents.old) mandates.old collections.old creditors.old creditor_positions.old debtor_positions.old bank_positions.old) result
        state.new cents.new (ledger (header_in state.new cents.new) mandates.new collections.new creditors.new creditor_positions.new debtor_positions.new bank_positions.new) }
{
    if !cells_fit(state, cents) {
        return u64::from(Refusal::UnfitMemory);
    }
    let mut book = BookMut {
        header: header_in(state, cents),
        mandates,
        collections,
        creditors,
        creditor_positions,
        debtor_positions,
        bank_positions,
    };
    let answer = replay(&mut book, events);
    put_header(book.header, state, cents);
    answer_number(&answer)
}
