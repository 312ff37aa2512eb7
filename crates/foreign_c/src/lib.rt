// The ledger's archive for programs in C or Rust: each function of crate foreign under its C name, with the same promise. C needs the names,
// and a crate that other crates use cannot be an archive. Kinds are numbers, as C has them.
#![tactic(auto)]

ghost use Rattle.std.specs.Prelude.{◌≡◌, ◌&&◌};
ghost use Rattle.tables.specs.Ledger.{ledger};
ghost use Rattle.fitness.specs.Fitness.{fit};
ghost use Rattle.safety.specs.Safety.{is_safe};
ghost use Rattle.cells.specs.Cells.{cells_fit, header_in};
ghost use Rattle.foreign.specs.Books.{OpenCall, EventCall, ReplayCall};
ghost use Rattle.foreign.specs.Queries.{QueryCall};
ghost use Rattle.foreign.specs.Texts.{TextCall, EndCall, ListCall};

// Whether lent memory is fit.
#[unsafe(no_mangle)]
pub extern "C" fn kalanhav_is_fit(
    state: &[u64],
    cents: &[i64],
    mandates: &[u64],
    collections: &[u64],
    creditors: &[u64],
    creditor_positions: &[i64],
    debtor_positions: &[i64],
    bank_positions: &[i64],
) -> bool
    ensures { result ≡ (cells_fit state.now cents.now && fit (ledger (header_in state.now cents.now) mandates.now collections.now creditors.now creditor_positions.now debtor_positions.now bank_positions.now)) }
{
    foreign::kalanhav_is_fit(
        state,
        cents,
        mandates,
        collections,
        creditors,
        creditor_positions,
        debtor_positions,
        bank_positions,
    )
}

// Whether lent memory is safe: fit, and every position within what the collections have moved.
#[unsafe(no_mangle)]
pub extern "C" fn kalanhav_is_safe(
    state: &[u64],
    cents: &[i64],
    mandates: &[u64],
    collections: &[u64],
    creditors: &[u64],
    creditor_positions: &[i64],
    debtor_positions: &[i64],
    bank_positions: &[i64],
) -> bool
    ensures { result ≡ (cells_fit state.now cents.now && is_safe (ledger (header_in state.now cents.now) mandates.now collections.now creditors.now creditor_positions.now debtor_positions.now bank_positions.now)) }
{
    foreign::kalanhav_is_safe(
        state,
        cents,
        mandates,
        collections,
        creditors,
        creditor_positions,
        debtor_positions,
        bank_positions,
    )
}

// Opens the ledger. 0, or 2 where nothing changes: cells of another count, or tables of other sizes.
#[unsafe(no_mangle)]
pub extern "C" fn kalanhav_open(
    state: &mut [u64],
    cents: &mut [i64],
    mandates: &[u64],
    collections: &[u64],
    creditors: &mut [u64],
    creditor_positions: &mut [i64],
    debtor_positions: &mut [i64],
    bank_positions: &mut [i64],
) -> u64
    ensures { OpenCall state.old cents.old (ledger (header_in state.old cents.old) mandates.now collections.now creditors.old creditor_positions.old debtor_positions.old bank_positions.old) result
        state.new cents.new (ledger (header_in state.new cents.new) mandates.now collections.now creditors.new creditor_positions.new debtor_positions.new bank_positions.new) }
{
    foreign::books::kalanhav_open(
        state,
        cents,
        mandates,
        collections,
        creditors,
        creditor_positions,
        debtor_positions,
        bank_positions,
    )
}

// Gives one event to the ledger: book's `take_event`. 0, or the number of the refusal, where nothing changes.
#[unsafe(no_mangle)]
pub extern "C" fn kalanhav_take_event(
    state: &mut [u64],
    cents: &mut [i64],
    event: &[u64],
    mandates: &mut [u64],
    collections: &mut [u64],
    creditors: &mut [u64],
    creditor_positions: &mut [i64],
    debtor_positions: &mut [i64],
    bank_positions: &mut [i64],
) -> u64
    ensures { EventCall state.old cents.old event.now (ledger (header_in state.old cents.old) mandates.old collections.old creditors.old creditor_positions.old debtor_positions.old bank_positions.old) result
        state.new cents.new (ledger (header_in state.new cents.new) mandates.new collections.new creditors.new creditor_positions.new debtor_positions.new bank_positions.new) }
{
    foreign::books::kalanhav_take_event(
        state,
        cents,
        event,
        mandates,
        collections,
        creditors,
        creditor_positions,
        debtor_positions,
        bank_positions,
    )
}

// Opens the ledger and gives it every event of a list: replay's `replay`. 0, or 2 where nothing changes: cells of
// another count, or tables of other sizes.
#[unsafe(no_mangle)]
pub extern "C" fn kalanhav_replay(
    state: &mut [u64],
    cents: &mut [i64],
    events: &[u64],
    mandates: &mut [u64],
    collections: &mut [u64],
    creditors: &mut [u64],
    creditor_positions: &mut [i64],
    debtor_positions: &mut [i64],
    bank_positions: &mut [i64],
) -> u64
    ensures { ReplayCall state.old cents.old events.now (ledger (header_in state.old cents.old) mandates.old collections.old creditors.old creditor_positions.old debtor_positions.old bank_positions.old) result
        state.new cents.new (ledger (header_in state.new cents.new) mandates.new collections.new creditors.new creditor_positions.new debtor_positions.new bank_positions.new) }
{
    foreign::books::kalanhav_replay(
        state,
        cents,
        events,
        mandates,
        collections,
        creditors,
        creditor_positions,
        debtor_positions,
        bank_positions,
    )
}

// A position in cents, written to its cell: book's `position`. The kind is a number, as C has it. 0, or 2 or 5, where nothing changes.
#[unsafe(no_mangle)]
pub extern "C" fn kalanhav_position(
    state: &[u64],
    cents: &mut [i64],
    kind: u64,
    number: u64,
    mandates: &[u64],
    collections: &[u64],
    creditors: &[u64],
    creditor_positions: &[i64],
    debtor_positions: &[i64],
    bank_positions: &[i64],
) -> u64
    ensures { QueryCall state.now cents.old (ledger (header_in state.now cents.old) mandates.now collections.now creditors.now creditor_positions.now debtor_positions.now bank_positions.now) kind number result cents.new }
{
    foreign::queries::kalanhav_position(
        state,
        cents,
        kind,
        number,
        mandates,
        collections,
        creditors,
        creditor_positions,
        debtor_positions,
        bank_positions,
    )
}

// Takes a piece of input: text's `take_text`. 0, or 2 where nothing changes: cells of another count, or a text or a
// buffer that is too short.
#[unsafe(no_mangle)]
pub extern "C" fn kalanhav_take_text(
    state: &mut [u64],
    cents: &mut [i64],
    text: &mut [u8],
    out: &mut [u8],
    mandates: &mut [u64],
    collections: &mut [u64],
    creditors: &mut [u64],
    creditor_positions: &mut [i64],
    debtor_positions: &mut [i64],
    bank_positions: &mut [i64],
) -> u64
    ensures { TextCall state.old cents.old (ledger (header_in state.old cents.old) mandates.old collections.old creditors.old creditor_positions.old debtor_positions.old bank_positions.old) text.old out.old result
        state.new cents.new (ledger (header_in state.new cents.new) mandates.new collections.new creditors.new creditor_positions.new debtor_positions.new bank_positions.new) text.new out.new }
{
    foreign::texts::kalanhav_take_text(
        state,
        cents,
        text,
        out,
        mandates,
        collections,
        creditors,
        creditor_positions,
        debtor_positions,
        bank_positions,
    )
}

// Answers a partial line where the input ends: listing's `end_text`. 0, or 2 where nothing changes: cells of another
// count, or a buffer that is too short.
#[unsafe(no_mangle)]
pub extern "C" fn kalanhav_end_text(state: &mut [u64], out: &mut [u8]) -> u64
    ensures { EndCall state.old out.old result state.new out.new }
{
    foreign::texts::kalanhav_end_text(state, out)
}

// Writes the listing of positions: listing's `list_positions`. 0, or 2 where nothing changes: memory that is not fit, or
// a buffer without room for the longest listing.
#[unsafe(no_mangle)]
pub extern "C" fn kalanhav_list_positions(
    state: &mut [u64],
    cents: &[i64],
    mandates: &[u64],
    collections: &[u64],
    creditors: &[u64],
    creditor_positions: &[i64],
    debtor_positions: &[i64],
    bank_positions: &[i64],
    out: &mut [u8],
) -> u64
    ensures { ListCall state.old cents.now (ledger (header_in state.old cents.now) mandates.now collections.now creditors.now creditor_positions.now debtor_positions.now bank_positions.now) out.old result state.new out.new }
{
    foreign::texts::kalanhav_list_positions(
        state,
        cents,
        mandates,
        collections,
        creditors,
        creditor_positions,
        debtor_positions,
        bank_positions,
        out,
    )
}
