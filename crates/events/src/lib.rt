// The events of document 01, and their limits.
#![tactic(auto)]

ghost use Rattle.std.specs.Prelude.{◌≡◌};
ghost use Rattle.events.specs.Fields.{event_of, fields_of};

pub mod limits;

// The fields of an event.
pub const FIELDS: usize = 9;

// An event by its nine fields. A field that the kind and code do not name is 0. Kind and code are numbers, no enums: an event may be
// given with any, and refusals 3 and 5 are about those that mean nothing.
#[derive(Clone, Copy, Debug, PartialEq, Eq)]
pub struct Event {
    pub kind: u64,
    pub date: u64,
    pub mandate: u64,
    pub a: u64,
    pub b: u64,
    pub c: u64,
    pub amount: u64,
    pub second: u64,
    pub code: u64,
}

// The event whose fields are nine numbers, in their order.
impl From<[u64; FIELDS]> for Event {
    ghost from_gives = { λ vs e. e ≡ event_of vs };

    fn from(vs: [u64; FIELDS]) -> Event {
        let [kind, date, mandate, a, b, c, amount, second, code] = vs;
        Event {
            kind,
            date,
            mandate,
            a,
            b,
            c,
            amount,
            second,
            code,
        }
    }
}

// Its fields, in their order.
impl From<Event> for [u64; FIELDS] {
    ghost from_gives = { λ e vs. vs ≡ fields_of e };

    fn from(e: Event) -> [u64; FIELDS] {
        [
            e.kind, e.date, e.mandate, e.a, e.b, e.c, e.amount, e.second, e.code,
        ]
    }
}
