// An event acted on, by what its kind asks for and by the rows that were found of what it names: specs/Acting.
ghost use Rattle.std.specs.Prelude.{◌≡◌, cond, None};
ghost use Rattle.tables.specs.Ledger.{ledger_in, SameLoans};
ghost use Rattle.tables.specs.Lookup.{lookup_since};
ghost use Rattle.model.specs.Actions.{action_of};
ghost use Rattle.book.specs.Acting.{names_mandate, names_collection, named_mandate, named_collection, ActedOn, ActedFrom};

use checking::actions::action_of;
use events::Event;
use model::{Action, HandedOn};
use records::MandatesMut;
use records::collects::collect;
use records::creditors::add_creditor;
use records::mandates::{add_mandate, change_mandate};
use refusals::Refusal;
use tables::BookMut;
use tables::lookup::find_since;
use treatments::treat::treat;

// The number of the mandate that an event names.
pub fn named_mandate(e: Event) -> Option<u64>
    ensures { result ≡ named_mandate e }
{
    ((2 <= e.kind) & (e.kind <= 5)).then_some(e.mandate)
}

// The number of the collection that an event names.
pub fn named_collection(e: Event) -> Option<u64>
    ensures { result ≡ named_collection e }
{
    (5 <= e.kind).then_some(e.a)
}

// The row of the mandate that an event names, looked for from a row on.
pub fn find_mandate(e: Event, mandates: &[u64], used: usize, since: usize) -> Option<usize>
    ensures { result ≡ cond (names_mandate e.kind) (lookup_since mandates.now used e.mandate since) None }
{
    find_since(mandates, used, named_mandate(e)?, since)
}

// The row of the collection that an event names, looked for from a row on.
pub fn find_collection(e: Event, collections: &[u64], used: usize, since: usize) -> Option<usize>
    ensures { result ≡ cond (names_collection e.kind) (lookup_since collections.now used e.a since) None }
{
    find_since(collections, used, named_collection(e)?, since)
}

// An event done to any lent memory, where `mandate` and `collection` are the rows of what it names. What the event names is not tested
// against its limits, nor the memory for fitness.
pub fn act(
    book: &mut BookMut,
    e: Event,
    mandate: Option<usize>,
    collection: Option<usize>,
) -> Result<HandedOn, Refusal>
    ensures loans { SameLoans book.old book.new }
    ensures acted { ActedOn mandate collection (ledger_in book.old) e.date (action_of e) result (ledger_in book.new) }
{
    let date = e.date;
    // In variables, and the creditors by `&mut`: beside a field that is lent to be changed no other can be read.
    let header = book.header;
    let creditors = &mut *book.creditors;
    let mut lent = MandatesMut {
        header,
        mandates: book.mandates,
        creditors,
    };
    let answer = match action_of(e) {
        Action::AddCreditor(number, bank) => return add_creditor(book, date, number, bank),
        Action::Treat(_, t) => return treat(book, date, t, collection),
        Action::AddMandate(m) => add_mandate(&mut lent, date, m, mandate),
        Action::ChangeMandate(_, change) => change_mandate(&mut lent, date, change, mandate),
        Action::Collect(p) => collect(&mut lent, book.collections, date, p, mandate, collection),
    };
    book.header = lent.header;
    answer
}

// The same, where the rows of what it names are looked for from a row on in each table.
pub fn act_from(
    book: &mut BookMut,
    e: Event,
    mandates_since: usize,
    collections_since: usize,
) -> Result<HandedOn, Refusal>
    ensures loans { SameLoans book.old book.new }
    ensures acted { ActedFrom mandates_since collections_since (ledger_in book.old) e result (ledger_in book.new) }
{
    let view = book.view();
    let mandate = find_mandate(e, view.mandates, view.header.mandates, mandates_since);
    let collection = find_collection(
        e,
        view.collections,
        view.header.collections,
        collections_since,
    );
    act(book, e, mandate, collection)
}
