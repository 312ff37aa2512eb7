// What an event asks for, by its kind and its fields: the model's specs/Actions.
ghost use Rattle.std.specs.Prelude.{◌≡◌};
ghost use Rattle.model.specs.Actions.{new_mandate, amendment, presentation, action_of};

use events::Event;
use model::{Action, Authorisation, Change, Presentation, Treatment, Way};
use tables::{Mandate, Standing};

// The mandate that event 2 adds: FRST is due if it is recurrent.
#[tactic(auto, unfolding(model::specs::Actions::new_mandate))]
fn new_mandate(e: Event) -> Mandate
    ensures { result ≡ new_mandate e }
{
    Mandate {
        number: e.mandate,
        creditor: e.a,
        debtor: e.b,
        bank: e.c,
        signed: e.second,
        code: e.code,
        standing: Standing::Live,
        first: e.code == 0,
        presented: 0,
    }
}

// What event 3 changes.
fn amendment_of(e: Event) -> Change
    ensures { result ≡ amendment e }
{
    if e.code == 0 {
        Change::NewBank(e.c)
    } else {
        Change::NewCreditor(e.a)
    }
}

// What event 5 presents.
fn presentation_of(e: Event) -> Presentation
    ensures { result ≡ presentation e }
{
    Presentation {
        mandate: e.mandate,
        collection: e.a,
        amount: e.amount,
        requested: e.second,
        code: e.code,
    }
}

// What an event asks for.
#[tactic(auto, unfolding(model::specs::Actions::action_of))]
pub fn action_of(e: Event) -> Action
    ensures { result ≡ action_of e }
{
    match e.kind {
        1 => Action::AddCreditor(e.a, e.b),
        2 => Action::AddMandate(new_mandate(e)),
        3 => Action::ChangeMandate(e.mandate, amendment_of(e)),
        4 => Action::ChangeMandate(e.mandate, Change::Cancel),
        5 => Action::Collect(presentation_of(e)),
        6 => Action::Treat(e.a, Treatment::Settle),
        7 => Action::Treat(e.a, Treatment::Reject),
        8 => Action::Treat(e.a, Treatment::Undo(Way::ByReturn)),
        9 => {
            let way = Way::ByRefund(e.b, Authorisation::from(e.code));
            Action::Treat(e.a, Treatment::Undo(way))
        }
        // 10; an event of any other kind is refused by 3 before this is asked, or is acted on as a reversal
        _ => Action::Treat(e.a, Treatment::Undo(Way::ByReversal)),
    }
}
