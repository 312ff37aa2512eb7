// Compensation by the date of a refund and its two products for a spread of cases, postings and transfers on a table of four, the amounts of
// an event. The figures in stdout were worked out apart from this code, those of compensation with exact fractions.
#![tactic(auto)]

use positions::amounts::{refunded, reversed, settlement};
use positions::compensation::{compensation, rate_days, rate_days_amount};
use positions::posting::{post, transfer};
use positions::{PostError, Postings};
use refusals::Refusal;
use std::io;

// The dates of refunds: the last that takes a half up, the first that takes it to the even cent and the first business day of these; 0 and
// the largest number, since no number is refused as a date.
const DATES: [u64; 5] = [0, 20251231, 20260101, 20260102, 18446744073709551615];

// Amount, rate and days of each case: the worked cases of documents 01 and 02, the limits, numbers chosen at random, exact halves above odd
// and above even cents, small ones and the largest, and one part less and more than a half.
const CASES: [(u64, u64, u64); 72] = [
    (5000, 360, 1),
    (5000, 360, 0),
    (5000, 360, 2),
    (5000, 360, 3),
    (4999, 360, 1),
    (5001, 360, 1),
    (10000, 360, 10),
    (1, 1, 1),
    (1, 9999, 999),
    (1, 0, 999),
    (99999999999, 9999, 999),
    (99999999999, 9999, 453),
    (99999999999, 9999, 0),
    (99999999999, 0, 999),
    (99999999999, 1, 1),
    (1800000, 1, 1),
    (1799999, 1, 1),
    (1800001, 1, 1),
    (5400000, 1, 1),
    (600000, 3, 1),
    (600000, 9, 1),
    (50000, 12, 9),
    (3600000, 1, 1),
    (0, 360, 1),
    (100000000000, 360, 1),
    (5000, 10000, 1),
    (5000, 360, 1000),
    (
        18446744073709551615,
        18446744073709551615,
        18446744073709551615,
    ),
    (8081863, 2758, 95),
    (3763876, 7713, 269),
    (20138542418, 4953, 326),
    (42245, 7830, 89),
    (84324, 3494, 373),
    (55126042269, 7870, 109),
    (43510, 6652, 217),
    (9741475, 5833, 271),
    (8455841, 6164, 444),
    (89592, 404, 231),
    (6090449, 7268, 386),
    (2935836, 4677, 203),
    (7031843, 8718, 374),
    (28653657892, 192, 152),
    (15496, 1534, 105),
    (25403456798, 3224, 277),
    (61533, 9017, 399),
    (5115456, 7990, 216),
    (1708945, 5723, 421),
    (8843049, 800, 266),
    (312700, 360, 150),
    (151675, 250, 288),
    (21333600, 250, 3),
    (432400, 2250, 18),
    (3725000, 72, 41),
    (11302560, 250, 5),
    (691250, 360, 60),
    (190700, 250, 216),
    (288040, 1000, 45),
    (558225, 1000, 24),
    (44000, 225, 90),
    (275000, 36, 430),
    (5000, 360, 5),
    (5000, 360, 7),
    (5399999, 1, 1),
    (5400001, 1, 1),
    (9000000, 1, 1),
    (8999999, 1, 1),
    (9000001, 1, 1),
    (5000, 90, 4),
    (99999400000, 9999, 999),
    (99999800000, 9999, 999),
    (99999700000, 9999, 438),
    (99999900000, 9999, 438),
];

// Products of 0, each number past its limit alone, also where the product would be 0, amounts of a row on both sides of the most that
// document 02, (a), leaves to a collect, and products that would wrap to 0.
const LIMITS: [(u64, u64, u64); 13] = [
    (1, 0, 0),
    (1, 9999, 1000),
    (1, 10000, 999),
    (1, 10000, 0),
    (1, 0, 1000),
    (5000000, 360, 1),
    (5000001, 360, 1),
    (100000000000, 9999, 999),
    (18446744073709551615, 1, 1),
    (1, 18446744073709551615, 1),
    (1, 1, 18446744073709551615),
    (1, 4294967296, 4294967296),
    (9223372036854775808, 2, 1),
];

// Number and amount of each posting.
const POSTS: [(u64, i64); 9] = [
    (1, 500),
    (4, -700),
    (0, 5),
    (5, 5),
    (2, 4000000000000000001),
    (2, -4000000000000000001),
    (2, 4000000000000000000),
    (2, 1),
    (2, -1),
];

// Giver, taker and amount of each transfer.
const TRANSFERS: [(u64, u64, i64); 8] = [
    (1, 4, 200),
    (3, 3, 9),
    (1, 5, 1),
    (0, 1, 1),
    (2, 1, 1),
    (1, 2, 1),
    (4, 1, -100),
    (4, 4, -7),
];

// Of the posting behind the transfers.
const LAST_POSTS: [(u64, i64); 1] = [(3, -1)];

fn show_cents(rt: &impl Print, date: u64, amount: u64, rate: u64, days: u64) -> io::Result<()> {
    match compensation(date, amount, rate, days) {
        Some(k) => print!(rt; " {k}"),
        None => print!(rt; " outside"),
    }
}

// In a refund of each date.
fn show_by_date(rt: &impl Print, amount: u64, rate: u64, days: u64) -> io::Result<()> {
    print!(rt; "{amount} {rate} {days}")?;
    for date in DATES {
        show_cents(rt, date, amount, rate, days)?;
    }
    println!(rt; "")
}

fn show_product(rt: &impl Print, answer: Result<u64, Refusal>) -> io::Result<()> {
    match answer {
        Ok(p) => print!(rt; " product {p}"),
        Err(r) => print!(rt; " refused {}", u64::from(r)),
    }
}

// Both products, that of days and rate first.
fn show_products(rt: &impl Print, amount: u64, rate: u64, days: u64) -> io::Result<()> {
    print!(rt; "{amount} {rate} {days}")?;
    show_product(rt, rate_days(days, rate))?;
    show_product(rt, rate_days_amount(days, rate, amount))?;
    println!(rt; "")
}

fn show_cases(rt: &impl Print) -> io::Result<()> {
    for (amount, rate, days) in CASES {
        show_by_date(rt, amount, rate, days)?;
        show_products(rt, amount, rate, days)?;
    }
    for (amount, rate, days) in LIMITS {
        show_products(rt, amount, rate, days)?;
    }
    Ok(())
}

// What became of a posting, and the table after it.
fn show(rt: &impl Print, answer: Result<(), PostError>, t: &[i64; 4]) -> io::Result<()> {
    match answer {
        Ok(()) => print!(rt; "posted")?,
        Err(e) => print!(rt; "{e}")?,
    }
    let [a, b, c, d] = *t;
    println!(rt; " {a} {b} {c} {d}")
}

fn show_posts(rt: &impl Print, posts: &[(u64, i64)], t: &mut [i64; 4]) -> io::Result<()> {
    for (number, amount) in posts {
        show(rt, post(t, *number, *amount), t)?;
    }
    Ok(())
}

fn show_postings(rt: &impl Print) -> io::Result<()> {
    let mut t = [0; 4];
    show_posts(rt, &POSTS, &mut t)?;
    for (from, to, amount) in TRANSFERS {
        show(rt, transfer(&mut t, from, to, amount), &t)?;
    }
    show_posts(rt, &LAST_POSTS, &mut t)
}

fn show_amounts(rt: &impl Print, answer: Option<Postings>) -> io::Result<()> {
    match answer {
        Some(p) => println!(rt;
            "{} {} {} {} {}",
            p.debtor, p.creditor, p.dbank, p.cbank, p.compensation
        ),
        None => println!(rt; "outside"),
    }
}

fn show_events(rt: &impl Print) -> io::Result<()> {
    show_amounts(rt, settlement(10000))?;
    show_amounts(rt, reversed(10000))?;
    show_amounts(rt, refunded(10000, 10))?;
    show_amounts(rt, settlement(99999999999))?;
    show_amounts(rt, settlement(100000000000))?;
    show_amounts(rt, reversed(0))?;
    show_amounts(rt, reversed(18446744073709551615))?;
    show_amounts(rt, refunded(99999999999, 277472249997))?;
    show_amounts(rt, refunded(99999999999, 277472249998))?;
    show_amounts(rt, refunded(100000000000, 0))
}

fn main(rt: HostRuntime) -> io::Result<()> {
    show_cases(&rt)?;
    show_postings(&rt)?;
    show_events(&rt)
}
