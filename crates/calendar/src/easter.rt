// The table of Easter Sundays: specs/Easter.
ghost use Rattle.std.specs.Prelude.{◌≡◌, ◌+◌, ◌-◌, ◌≤◌};
ghost use Rattle.calendar.specs.Gregorian.{month_day, first_year, last_year};
ghost use Rattle.calendar.specs.DayNumber.{year_start, day_number};
ghost use Rattle.calendar.specs.Easter.{easter_sunday, easter_of, easter_day_of};

use crate::gregorian;
use crate::gregorian::Year;

// Easter Sunday of each year from 2000 to 2199, as MMDD.
const EASTER: [u16; 200] = [
    423, // 2000 to 2009
    415, 331, 420, 411, 327, 416, 408, 323, 412, 404, // 2010 to 2019
    424, 408, 331, 420, 405, 327, 416, 401, 421, 412, // 2020 to 2029
    404, 417, 409, 331, 420, 405, 328, 416, 401, 421, // 2030 to 2039
    413, 328, 417, 409, 325, 413, 405, 425, 410, 401, // 2040 to 2049
    421, 406, 329, 417, 409, 325, 414, 405, 418, 410, // 2050 to 2059
    402, 421, 406, 329, 418, 402, 422, 414, 330, 418, // 2060 to 2069
    410, 326, 415, 406, 329, 411, 403, 422, 414, 330, // 2070 to 2079
    419, 410, 326, 415, 407, 419, 411, 403, 423, 407, // 2080 to 2089
    330, 419, 404, 326, 415, 331, 420, 411, 403, 416, // 2090 to 2099
    408, 330, 412, 404, 424, 415, 331, 420, 412, 328, // 2100 to 2109
    417, 409, 325, 413, 405, 418, 410, 401, 421, 406, // 2110 to 2119
    329, 417, 402, 422, 414, 329, 418, 410, 326, 414, // 2120 to 2129
    406, 329, 411, 402, 422, 414, 330, 418, 410, 326, // 2130 to 2139
    415, 406, 419, 411, 403, 422, 407, 330, 419, 403, // 2140 to 2149
    326, 415, 331, 419, 411, 403, 416, 407, 330, 412, // 2150 to 2159
    404, 423, 415, 331, 420, 411, 327, 416, 408, 323, // 2160 to 2169
    412, 404, 424, 408, 331, 420, 405, 327, 416, 401, // 2170 to 2179
    421, 412, 404, 417, 409, 331, 420, 405, 328, 416, // 2180 to 2189
    401, 421, 413, 328, 417, 409, 325, 413, 405, 425, // 2190 to 2199
    410, 401, 421, 406, 329, 417, 409, 325, 414,
];

// Easter Sunday of a year, as MMDD. Only this function reads the table.
#[tactic(auto, using(crate::proofs::Laws::Easter::table_of_year))]
fn easter_in(year: Year) -> u64
    ensures date { result ≡ month_day (easter_sunday year) }
    ensures inside { (first_year ≤ year) × (year ≤ last_year) }
{
    u64::from(EASTER[(year.0 - 2000) as usize])
}

// The day, from 0, of a year that is its Easter Sunday.
#[tactic(auto, using(crate::proofs::Laws::Gregorian::leap_day_le))]
pub(crate) fn easter_place(year: Year) -> u64
    ensures { year_start (year - first_year) + result ≡ day_number (easter_sunday year) }
{
    let md = easter_in(year);
    let l = year.leap_day();
    if md < 400 {
        59 + l + md - 301
    } else {
        90 + l + md - 401
    }
}

#[tactic(auto, using(crate::proofs::Laws::Rules::of_easter_sunday), unfolding(crate::specs::Easter::easter_of))]
pub fn easter_sunday(y: u64) -> Option<u64>
    ensures { result ≡ easter_of y }
{
    let year = Year::of(y)?;
    Some(y * 10000 + easter_in(year))
}

// The day number of Easter Sunday.
#[tactic(auto, using(crate::proofs::Laws::Rules::of_easter_day))]
pub fn easter_day(y: u64) -> Option<u64>
    ensures { result ≡ easter_day_of y }
{
    gregorian::day_number(easter_sunday(y)?)
}
