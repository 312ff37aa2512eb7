// The call for an event.
ghost use Rattle.tables.specs.Ledger.{ledger_in, SameLoans};
ghost use Rattle.book.specs.Events.{Taken};

use crate::acting::act_from;
use events::Event;
use events::limits::check;
use fitness::fitness::is_fit;
use model::HandedOn;
use refusals::Refusal;
use tables::BookMut;

// Any event, given to any lent memory. An accepted collect hands on the days that its due date slid.
pub fn take_event(book: &mut BookMut, e: Event) -> Result<HandedOn, Refusal>
    ensures loans { SameLoans book.old book.new }
    ensures taken { Taken (ledger_in book.old) e result (ledger_in book.new) }
{
    if !is_fit(&book.view()) {
        return Err(Refusal::UnfitMemory);
    }
    check(e)?;
    act_from(book, e, 0, 0)
}
