// A text of events, its end, and the listing, over lent cells: specs/Texts.
ghost use Rattle.std.specs.Prelude.{◌≡◌, take};
ghost use Rattle.tables.specs.Ledger.{ledger};
ghost use Rattle.listing.specs.Past.{lines_past};
ghost use Rattle.cells.specs.Cells.{header_in, counts_state};
ghost use Rattle.foreign.specs.Texts.{TextCall, EndCall, ListCall};

use cells::Counts;
use cells::reading::{cells_fit, filled_in, header_in, lines_in, state_cells_fit};
use cells::writing::{put_counts, put_header, put_written};
use listing::ending::end_text;
use listing::listing::list_positions;
use listing::past::{goes_past, lines_past};
use refusals::Refusal;
use tables::{BookMut, BookRef};
use text::text::{Piece, take_text};

// How many lines of the first bytes of a text are not answered.
fn past_in(lines: u64, filled: usize, text: &[u8]) -> u64
    ensures { result ≡ lines_past lines (take filled text.now) }
{
    lines_past(lines, text.get(..filled).unwrap_or(text))
}

// Writes what a piece of a text left, and how many of its lines were not taken.
fn put_piece(piece: Piece, past: u64, state: &mut [u64])
    ensures { state.new ≡ counts_state (record { lines = piece.lines; partial = piece.partial; written = piece.written; past = past }) state.old }
{
    put_counts(
        Counts {
            lines: piece.lines,
            partial: piece.partial,
            written: piece.written,
            past,
        },
        state,
    );
}

// Takes a piece of input: text's `take_text`. 0, or 2 where nothing changes: cells of another count, or a text or a
// buffer that is too short.
pub fn kalanhav_take_text(
    state: &mut [u64],
    cents: &mut [i64],
    text: &mut [u8],
    out: &mut [u8],
    mandates: &mut [u64],
    collections: &mut [u64],
    creditors: &mut [u64],
    creditor_positions: &mut [i64],
    debtor_positions: &mut [i64],
    bank_positions: &mut [i64],
) -> u64
    ensures { TextCall state.old cents.old (ledger (header_in state.old cents.old) mandates.old collections.old creditors.old creditor_positions.old debtor_positions.old bank_positions.old) text.old out.old result
        state.new cents.new (ledger (header_in state.new cents.new) mandates.new collections.new creditors.new creditor_positions.new debtor_positions.new bank_positions.new) text.new out.new }
{
    if !cells_fit(state, cents) {
        return u64::from(Refusal::UnfitMemory);
    }
    let lines = lines_in(state);
    let filled = filled_in(state);
    let past = past_in(lines, filled, text);
    let mut book = BookMut {
        header: header_in(state, cents),
        mandates,
        collections,
        creditors,
        creditor_positions,
        debtor_positions,
        bank_positions,
    };
    match take_text(&mut book, lines, filled, text, out) {
        Ok(piece) => {
            put_header(book.header, state, cents);
            put_piece(piece, past, state);
            0
        }
        Err(r) => u64::from(r),
    }
}

// Answers a partial line where the input ends: listing's `end_text`. 0, or 2 where nothing changes: cells of another
// count, or a buffer that is too short.
pub fn kalanhav_end_text(state: &mut [u64], out: &mut [u8]) -> u64
    ensures { EndCall state.old out.old result state.new out.new }
{
    if !state_cells_fit(state) {
        return u64::from(Refusal::UnfitMemory);
    }
    let lines = lines_in(state);
    let partial = filled_in(state);
    match end_text(lines, partial, out) {
        Ok(ending) => {
            put_counts(
                Counts {
                    lines: ending.lines,
                    partial: 0,
                    written: ending.written,
                    past: u64::from(goes_past(0, lines, partial)),
                },
                state,
            );
            0
        }
        Err(r) => u64::from(r),
    }
}

// Writes the listing of positions: listing's `list_positions`. 0, or 2 where nothing changes: memory that is not fit, or
// a buffer without room for the longest listing.
pub fn kalanhav_list_positions(
    state: &mut [u64],
    cents: &[i64],
    mandates: &[u64],
    collections: &[u64],
    creditors: &[u64],
    creditor_positions: &[i64],
    debtor_positions: &[i64],
    bank_positions: &[i64],
    out: &mut [u8],
) -> u64
    ensures { ListCall state.old cents.now (ledger (header_in state.old cents.now) mandates.now collections.now creditors.now creditor_positions.now debtor_positions.now bank_positions.now) out.old result state.new out.new }
{
    if !cells_fit(state, cents) {
        return u64::from(Refusal::UnfitMemory);
    }
    let book = BookRef {
        header: header_in(state, cents),
        mandates,
        collections,
        creditors,
        creditor_positions,
        debtor_positions,
        bank_positions,
    };
    match list_positions(&book, out) {
        Ok(written) => {
            put_written(written, state);
            0
        }
        Err(r) => u64::from(r),
    }
}
