// Further cases of the calendar, for comparison with values that do not come from it (tests/calendar_oracle.py).
// First some dates with all answers, then a line for each year: Easter, a digest of the answers for every day of it, and the most days that one
// of them slides.
#![tactic(auto)]

ghost use Rattle.std.specs.Prelude.{◌<◌};

use calendar::{BusinessDays, CalendarDays, Months, Period, easter, gregorian, periods, target};
use std::io;

// Closing days and their neighbours, month ends, leap days and year ends; and numbers that are no dates.
const DATES: [u64; 42] = [
    20000101, // the calendar's first days
    20000102, 20000103, 20000104, 20000229, // leap days, and days that look like them
    20001231, 20091231, 20100101, // the ends of the range
    20100104, 20160229, 20230228, 20240101, // 1 January
    20240131, // month ends
    20240229, 20240301, 20240328, // around Easter 2024
    20240329, 20240330, 20240331, 20240401, 20240402, 20240430, // 1 May
    20240501, 20240502, 20241224, // Christmas and the year's end
    20231223, 20251225, 20241225, 20241226, 20241227, 20241231, 20250131, 20251130, 21000228, // no leap year
    21000301, 21890228, 21891231, 21991224, // the calendar's last days
    21991231, 20230229, // no dates
    21000229, 22000101,
];

fn put(rt: &impl Print, n: u64) -> io::Result<()> {
    print!(rt; "{n} ")
}

fn end_line(rt: &impl Print) -> io::Result<()> {
    println!(rt; "")
}

// A date, or 0 where there is none.
fn shown(d: Option<u64>) -> u64 {
    d.unwrap_or(0)
}

// The end of a period, in the order in which it is counted.
fn end_of(x: u64, months: u64, days: u64, business: u64) -> u64 {
    let p = Period {
        months: Months(months),
        days: CalendarDays(days),
        business: BusinessDays(business),
    };
    shown(periods::period_end(x, p))
}

// The days to the date to which a date is kept, or 0 where there is none.
fn days_slid(x: u64) -> u64 {
    target::kept(x).map_or(0, |kept| kept.slid.0)
}

// All answers for a date, in a row.
fn answers(x: u64) -> [u64; 10] {
    [
        u64::from(target::is_business_day(x)),
        shown(target::kept(x).map(|kept| kept.date)),
        days_slid(x),
        shown(target::last_business_day_before(x)),
        end_of(x, 0, 0, 5),
        end_of(x, 0, 56, 2),
        end_of(x, 13, 30, 4),
        shown(periods::months_after(x, Months(13))),
        shown(periods::months_after(x, Months(36))),
        shown(periods::days_after(x, CalendarDays(14))),
    ]
}

fn show(rt: &impl Print, x: u64) -> io::Result<()> {
    put(rt, x)?;
    for v in answers(x) {
        put(rt, v)?;
    }
    end_line(rt)
}

// One value more in a digest.
fn mixed(h: u64, v: u64) -> u64 {
    (h % 1000000007 * 31 + v % 100000000) % 1000000007
}

fn day_digest(h: u64, x: u64) -> u64 {
    answers(x).into_iter().fold(h, mixed)
}

// The digest of every date of a year: MMDD from 101 to 1231, those that are dates.
fn year_digest(start: u64) -> u64
    requires { start < 100000000 }
{
    let mut sum = 0;
    for md in 101..1232 {
        let x = start + md;
        if gregorian::is_date(x) {
            sum = day_digest(sum, x);
        }
    }
    sum
}

// The most days that a date of a year slides.
fn most_slid(start: u64) -> u64
    requires { start < 100000000 }
{
    (start + 101..start + 1232).map(days_slid).fold(0, u64::max)
}

fn show_year(rt: &impl Print, year: u64) -> io::Result<()>
    requires { year < 2200 }
{
    put(rt, year)?;
    put(rt, shown(easter::easter_sunday(year)))?;
    put(rt, year_digest(year * 10000))?;
    put(rt, most_slid(year * 10000))?;
    end_line(rt)
}

fn show_years(rt: &impl Print) -> io::Result<()> {
    for y in 2000..2200 {
        show_year(rt, y)?;
    }
    Ok(())
}

fn show_dates(rt: &impl Print) -> io::Result<()> {
    for x in DATES {
        show(rt, x)?;
    }
    Ok(())
}

fn main(rt: HostRuntime) -> io::Result<()> {
    show_dates(&rt)?;
    show_years(&rt)
}
