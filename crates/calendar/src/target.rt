// Business days: specs/Target.
ghost use Rattle.std.specs.Prelude.{◌≡◌};
ghost use Rattle.calendar.specs.DayNumber.{in_calendar};
ghost use Rattle.calendar.specs.Target.{business_day, is_open, first_open, last_open_before, answer_date, kept, last_business_day_before};

use crate::easter::easter_place;
use crate::gregorian::Day;
use crate::{CalendarDays, KeptDate, gregorian};

// Whether a day is a business day. The table of Easter is read only for a day from two before 22 March to the one after 25 April.
#[tactic(auto, using(crate::proofs::Laws::Rules::of_is_open_day))]
fn is_open_day(day: Day) -> bool
    ensures { result ≡ is_open day }
{
    let n = day.number();
    if 5 <= (n + 5) % 7 {
        return false;
    }
    let place = day.place();
    let r = place.day;
    let l = place.year.leap_day();
    if (r == 0) | (r == 120 + l) | (r == 358 + l) | (r == 359 + l) {
        return false;
    }
    if (r < 78) | (116 < r) {
        return true;
    }
    let sunday = easter_place(place.year);
    (r + 2 != sunday) & (r != sunday + 1)
}

// Whether x is a date and a business day.
pub fn is_business_day(x: u64) -> bool
    ensures { result ≡ business_day x }
{
    Day::of(x).is_some_and(is_open_day)
}

// Whether n is the number of a business day.
pub fn is_open(n: u64) -> bool
    ensures { result ≡ is_open n }
{
    Day::at(n).is_some_and(is_open_day)
}

// The first business day on or after a day: a loop left by break with it, the form that document 01 names for it.
pub fn first_open_day(day: Day) -> Day
    ensures { result ≡ first_open day }
{
    let mut d = day.number();
    loop {
        if is_open_day(Day(d)) {
            break Day(d);
        }
        d += 1;
    }
}

// The first business day on or after the day n.
#[tactic(auto, using(crate::proofs::Laws::Rules::of_first_open))]
pub fn first_open(n: u64) -> Option<u64>
    ensures { result ≡ in_calendar (first_open n) }
{
    Some(first_open_day(Day::at(n)?).number())
}

// The last business day before the day n.
fn last_open_before(n: u64) -> Option<u64>
    ensures { result ≡ last_open_before n }
{
    (0..n).rfind(|&d| is_open(d))
}

// The date of a day that was worked out.
pub fn date_of_day(d: Option<u64>) -> Option<u64>
    ensures { result ≡ answer_date d }
{
    d.and_then(gregorian::date_of)
}

// The first business day on or after a date, with the calendar days to it.
#[tactic(auto, using(crate::proofs::Laws::Rules::of_kept))]
pub fn kept(x: u64) -> Option<KeptDate>
    ensures { result ≡ kept x }
{
    let day = Day::of(x)?;
    let found = first_open_day(day);
    Some(KeptDate {
        date: found.date(),
        slid: CalendarDays(found.number() - day.number()),
    })
}

// The last business day before a date.
#[tactic(auto, using(crate::proofs::Laws::Rules::of_last_business_day_before))]
pub fn last_business_day_before(x: u64) -> Option<u64>
    ensures { result ≡ last_business_day_before x }
{
    date_of_day(last_open_before(gregorian::day_number(x)?))
}
