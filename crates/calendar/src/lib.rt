// The calendar of document 01: Gregorian dates, TARGET business days, and periods counted in them.
// A date is the number YYYYMMDD. The calendar has the years 2000 to 2199, and every public function answers for
// any number whatever: it gives None where there is no date.
#![tactic(auto)]

pub mod easter;
pub mod gregorian;
pub mod periods;
pub mod target;

// A count of calendar days. It is never added to a count of business days: three tuple structs keep three units apart, as document 01
// asks, and one generic over a unit would be no plainer.
#[derive(Clone, Copy, Debug, PartialEq, Eq)]
pub struct CalendarDays(pub u64);

// A count of business days.
#[derive(Clone, Copy, Debug, PartialEq, Eq)]
pub struct BusinessDays(pub u64);

// The date to which a due date is kept, and the calendar days from the requested one to it.
#[derive(Clone, Copy, Debug, PartialEq, Eq)]
pub struct KeptDate {
    pub date: u64,
    pub slid: CalendarDays,
}

// A count of months.
#[derive(Clone, Copy, Debug, PartialEq, Eq)]
pub struct Months(pub u64);

// Months, then calendar days, then business days: the form of every last day and of the lapse of a mandate.
#[derive(Clone, Copy, Debug, PartialEq, Eq)]
pub struct Period {
    pub months: Months,
    pub days: CalendarDays,
    pub business: BusinessDays,
}
