// Dates and day numbers: specs/Gregorian and specs/DayNumber.
ghost use Rattle.std.specs.Prelude.{◌≡◌, true, cond, ◌&&◌, ℕ, ◌+◌, ◌-◌, ◌≤◌, ◌<◌, ltb, leb};
ghost use Rattle.calendar.specs.Gregorian.{leap, leap_day, month_length, is_date, in_range, first_year, last_year};
ghost use Rattle.calendar.specs.DayNumber.{days_before, year_start, calendar_days, day_number, day_of, in_calendar, year_at, month_at, date_in, date_at, date_of};

use std::marker::Model;

// The days before each month, in a year without a leap day.
const COUNTS: [u64; 12] = [0, 31, 59, 90, 120, 151, 181, 212, 243, 273, 304, 334];

const CALENDAR_DAYS: u64 = 73049;

// The days before 2101.
const DAYS_TO_2101: u64 = 36890;

// The days of four years, of which one has a leap day.
const FOUR_YEARS: u64 = 1461;

// A year of the calendar.
#[derive(Clone, Copy, Debug, PartialEq, Eq)]
pub(crate) struct Year(pub(crate) u64);

impl Model for Year {
    ghost Value = { ℕ };

    ghost view = { λ y. y.0 };

    ghost invariant = { λ y. (first_year ≤ y.0) × (y.0 ≤ last_year) };

    ghost inverse = { λ n. record { 0 = n } };
}

// A day of the calendar, by its number.
#[derive(Clone, Copy, Debug, PartialEq, Eq, PartialOrd, Ord)]
pub struct Day(pub(crate) u64);

impl Model for Day {
    ghost Value = { ℕ };

    ghost view = { λ d. d.0 };

    ghost invariant = { λ d. d.0 < calendar_days };

    ghost inverse = { λ n. record { 0 = n } };
}

// A day by its year and its day of the year, from 0.
#[derive(Clone, Copy)]
pub(crate) struct Place {
    pub(crate) year: Year,
    pub(crate) day: u64,
}

#[tactic(auto, unfolding(crate::specs::Gregorian::leap))]
pub fn is_leap(y: u64) -> bool
    ensures { result ≡ leap y }
{
    (y % 4 == 0) & ((y % 100 != 0) | (y % 400 == 0))
}

// 1 in a leap year, else 0.
#[tactic(auto, unfolding(crate::specs::Gregorian::leap_day))]
pub fn leap_day(y: u64) -> u64
    ensures { result ≡ leap_day y }
{
    u64::from(is_leap(y))
}

// The days of a month of a year with l leap days.
#[tactic(auto, unfolding(crate::specs::Gregorian::month_length))]
fn month_length(l: u64, m: u64) -> u64
    requires { l ≤ 1 }
    ensures { result ≡ month_length l m }
{
    match m {
        2 => 28 + l,
        4 | 6 | 9 | 11 => 30,
        _ => 31,
    }
}

// The last day of the month m of the year y.
#[tactic(auto, using(crate::proofs::Laws::Gregorian::leap_day_le))]
pub fn last_of_month(y: u64, m: u64) -> u64
    ensures { result ≡ month_length (leap_day y) m }
{
    month_length(leap_day(y), m)
}

impl Year {
    pub(crate) fn of(y: u64) -> Option<Year>
        ensures { result ≡ cond (leb first_year y && leb y last_year) (Some y) None }
    {
        if (2000 <= y) & (y <= 2199) {
            return Some(Year(y));
        }
        None
    }

    // 1 in a leap year, else 0: of the years of the calendar that 4 divides only 2100 is none, so that one division does where any year
    // takes three.
    #[tactic(auto, using(crate::proofs::Laws::Gregorian::leap_day_in))]
    pub(crate) fn leap_day(self) -> u64
        ensures { result ≡ leap_day self }
    {
        let y = self.0;
        u64::from((y % 4 == 0) & (y != 2100))
    }

    // The last day of the month m.
    #[tactic(auto, using(crate::proofs::Laws::Gregorian::leap_day_le))]
    pub(crate) fn last_of(self, m: u64) -> u64
        ensures { result ≡ month_length (leap_day self) m }
    {
        month_length(self.leap_day(), m)
    }

    // The days before the month m.
    #[tactic(auto, unfolding(crate::specs::DayNumber::days_before), using(crate::proofs::Laws::Gregorian::leap_day_le))]
    fn days_before(self, m: u64) -> u64
        requires { (1 ≤ m) × (m ≤ 12) }
        ensures { result ≡ days_before (leap_day self) m }
    {
        let b = COUNTS[(m - 1) as usize];
        if 2 < m { b + self.leap_day() } else { b }
    }

    // The days of the calendar before the year. Of the years that 4 divides only 2100 has no leap day.
    #[tactic(auto, unfolding(crate::specs::DayNumber::year_start))]
    fn start(self) -> u64
        ensures { result ≡ year_start (self - first_year) }
    {
        let k = self.0 - 2000;
        let days = 365 * k + (k + 3) / 4;
        if 100 < k { days - 1 } else { days }
    }

    // The month of the day r.
    #[tactic(auto, unfolding(crate::specs::DayNumber::month_at))]
    fn month_at(self, r: u64) -> u64
        requires { r < 365 + leap_day self }
        ensures { result ≡ month_at (leap_day self) r }
    {
        let q = r / 32;
        if 11 <= q {
            return q + 1;
        }
        if self.days_before(q + 2) <= r {
            q + 2
        } else {
            q + 1
        }
    }

    // The date of the day r.
    #[tactic(auto, using(crate::proofs::Laws::Rules::of_date_in), unfolding(crate::specs::DayNumber::date_in))]
    fn date(self, r: u64) -> u64
        requires { r < 365 + leap_day self }
        ensures { result ≡ date_in self r }
    {
        let m = self.month_at(r);
        self.0 * 10000 + m * 100 + (r - self.days_before(m) + 1)
    }
}

// Whether x is a date of the calendar.
#[tactic(auto, unfolding(crate::specs::Gregorian::is_date))]
pub fn is_date(x: u64) -> bool
    ensures { result ≡ is_date x }
{
    let m = x / 100 % 100;
    let d = x % 100;
    Year::of(x / 10000).is_some_and(|year| (1 <= m) & (m <= 12) & (1 <= d) & (d <= year.last_of(m)))
}

// Whether x is a date that an event or a row may have.
#[tactic(auto, unfolding(crate::specs::Gregorian::in_range))]
pub fn in_range(x: u64) -> bool
    ensures { result ≡ in_range x }
{
    is_date(x) & (20100101 <= x) & (x <= 21891231)
}

impl Day {
    // The day of a number.
    #[tactic(auto, unfolding(crate::specs::DayNumber::in_calendar))]
    pub fn at(n: u64) -> Option<Day>
        ensures { result ≡ in_calendar n }
    {
        if n < CALENDAR_DAYS {
            return Some(Day(n));
        }
        None
    }

    // The day of what is known to be a date.
    #[tactic(auto, using(crate::proofs::Laws::Rules::of_number), unfolding(crate::specs::DayNumber::day_number))]
    pub(crate) fn of_date(x: u64) -> Day
        requires { is_date x ≡ true }
        ensures { result ≡ day_number x }
    {
        let year = Year(x / 10000);
        let m = x / 100 % 100;
        let d = x % 100;
        Day(year.start() + year.days_before(m) + (d - 1))
    }

    // The day of a date.
    #[tactic(auto, unfolding(crate::specs::DayNumber::day_of))]
    pub fn of(x: u64) -> Option<Day>
        ensures { result ≡ day_of x }
    {
        if is_date(x) {
            return Some(Day::of_date(x));
        }
        None
    }

    pub fn number(self) -> u64
        ensures is { result ≡ self }
        ensures inside { result < calendar_days }
    {
        let Day(n) = self;
        n
    }

    // The day, counted from 2101 on as if 2100 had a leap day: then every fourth year has one.
    fn in_fours(self) -> u64
        ensures { result ≡ cond (ltb self 36890) self (self + 1) }
    {
        if self.0 < DAYS_TO_2101 {
            self.0
        } else {
            self.0 + 1
        }
    }

    // Its year and its day of that year.
    #[tactic(auto, using(crate::proofs::Laws::Rules::of_place))]
    pub(crate) fn place(self) -> Place
        ensures { (result.year ≡ first_year + year_at self) × (result.day ≡ self - year_start (year_at self)) }
    {
        let m = self.in_fours();
        let k = 4 * m / FOUR_YEARS;
        Place {
            year: Year(2000 + k),
            day: m - (FOUR_YEARS * k + 3) / 4,
        }
    }

    #[tactic(auto, using(crate::proofs::Laws::Rules::of_date_at), unfolding(crate::specs::DayNumber::date_at))]
    pub(crate) fn date(self) -> u64
        ensures { Some result ≡ date_of self }
    {
        let p = self.place();
        p.year.date(p.day)
    }
}

// The number of a date's day.
pub fn day_number(x: u64) -> Option<u64>
    ensures { result ≡ day_of x }
{
    Day::of(x).map(Day::number)
}

// The date of the day n.
#[tactic(auto, using(crate::proofs::Laws::Rules::of_date_of))]
pub fn date_of(n: u64) -> Option<u64>
    ensures { result ≡ date_of n }
{
    Some(Day::at(n)?.date())
}
