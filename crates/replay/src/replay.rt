// Replay: a lent list of events on a ledger that is opened first: specs/Replay.
ghost use Rattle.std.specs.Prelude.{◌≡◌, true};
ghost use Rattle.refusals.specs.Refusals.{answer_number};
ghost use Rattle.tables.specs.Ledger.{ledger_in, SameLoans};
ghost use Rattle.opening.specs.Opening.{open_result, opening};
ghost use Rattle.model.specs.Step.{run};
ghost use Rattle.model.specs.Bounds.{Safe};
ghost use Rattle.fitness.specs.Fitness.{fit};
ghost use Rattle.book.specs.Events.{Taken};
ghost use Rattle.replay.specs.Replay.{events_in, Replayed};

use book::acting::act_from;
use events::limits::check;
use events::{Event, FIELDS};
use model::HandedOn;
use opening::open_ledger;
use refusals::Refusal;
use tables::BookMut;

// Opens the ledger of a book.
fn open(book: &mut BookMut) -> Result<(), Refusal>
    ensures loans { SameLoans book.old book.new }
    ensures opening { open_result (answer_number result) (ledger_in book.new) ≡ opening (ledger_in book.old) }
{
    // In variables, and by `&mut`: beside a field that is lent to be changed no other can be read.
    let mandates = &mut *book.mandates;
    let collections = &mut *book.collections;
    open_ledger(
        &mut book.header,
        mandates,
        collections,
        book.creditors,
        book.creditor_positions,
        book.debtor_positions,
        book.bank_positions,
    )
}

// Any event, given to lent memory that is known to be fit.
fn take_fit(book: &mut BookMut, e: Event) -> Result<HandedOn, Refusal>
    requires { fit (ledger_in book.old) ≡ true }
    ensures loans { SameLoans book.old book.new }
    ensures taken { Taken (ledger_in book.old) e result (ledger_in book.new) }
{
    check(e)?;
    act_from(book, e, 0, 0)
}

// The events one after the other. The tables were tested once, and every event keeps them fit.
fn run_events(book: &mut BookMut, cells: &[u64])
    requires { Safe (ledger_in book.old) }
    ensures loans { SameLoans book.old book.new }
    ensures run { ledger_in book.new ≡ run (ledger_in book.old) (events_in cells.now) }
{
    let (events, _) = cells.as_chunks::<FIELDS>();
    for fields in events {
        let _ = take_fit(book, Event::from(*fields));
    }
}

// Opens the ledger, and gives it every event of the list.
pub fn replay(book: &mut BookMut, events: &[u64]) -> Result<(), Refusal>
    ensures loans { SameLoans book.old book.new }
    ensures replayed { Replayed (ledger_in book.old) (events_in events.now) result (ledger_in book.new) }
{
    open(book)?;
    run_events(book, events);
    Ok(())
}
