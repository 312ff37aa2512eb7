// Reading the number of a field: specs/Field, and specs/Words for eight columns at a time.
ghost use Rattle.std.specs.Prelude.{◌≡◌, true, List, [], ◌∷◌, ◌++◌, ℕ, ◌+◌, ◌*◌, ◌^◌, ◌≤◌, ◌<◌, IfSome, length, take, drop};
ghost use Rattle.digits.specs.Field.{read_field, field_at};
ghost use Rattle.digits.specs.Words.{bytes_of, are_digits, digits_from, led_by, onward, onward_of};

use crate::{BLANK, has_room};

// The columns of the widest field that is read.
const WIDEST: usize = 12;

// The first eight bytes of some as one number, the first the lowest.
fn word(bytes: &[u8]) -> u64
    requires { 8 ≤ length bytes.now }
    ensures { bytes_of 8 result ≡ take 8 bytes.now }
{
    u64::from_le_bytes(*bytes.first_chunk().unwrap())
}

// Whether the eight bytes of a word are digits: by the upper halves of the bytes, and of the bytes with 6 added.
#[tactic(auto, using(crate::proofs::Laws::Words::high_no, crate::proofs::Laws::Words::high_fits, crate::proofs::Laws::Words::high_yes))]
fn are_digits(w: u64) -> bool
    ensures { result ≡ are_digits (bytes_of 8 w) }
{
    w & 0xF0F0F0F0F0F0F0F0 == 0x3030303030303030
        && (w + 0x0606060606060606) & 0xF0F0F0F0F0F0F0F0 == 0x3030303030303030
}

// The number of eight digits: the four pairs at once, and then their sum.
#[tactic(auto, using(crate::proofs::Laws::Words::value_from, crate::proofs::Laws::Words::value_fits, crate::proofs::Laws::Words::value_pairs))]
fn value(w: u64) -> u64
    requires { are_digits (bytes_of 8 w) ≡ true }
    ensures { result ≡ digits_from 0 (bytes_of 8 w) }
{
    let t = w - 0x3030303030303030;
    let p = t * 10 + t / 256;
    p % 256 * 1000000
        + p / 65536 % 256 * 10000
        + p / 4294967296 % 256 * 100
        + p / 281474976710656 % 256
}

// The number of a word whose leading blanks fill turns into zeros; none where it is below least.
fn led(w: u64, fill: u64, least: u64) -> Option<u64>
    requires { w + fill < 2 ^ 64 }
    ensures { result ≡ led_by least (bytes_of 8 (w + fill)) }
{
    let x = w + fill;
    if !are_digits(x) {
        return None;
    }
    Some(value(x)).filter(|v| least <= *v)
}

// A field of eight columns, by the blanks that it begins with.
fn eight(w: u64) -> Option<u64>
    ensures { result ≡ read_field (bytes_of 8 w) }
{
    if w == 0x3020202020202020 {
        return Some(0);
    }
    if w % 4294967296 == 0x20202020 {
        if w % 281474976710656 == 0x202020202020 {
            if w % 72057594037927936 == 0x20202020202020 {
                return led(w, 0x10101010101010, 0);
            }
            return led(w, 0x101010101010, 10);
        }
        if w % 1099511627776 == 0x2020202020 {
            return led(w, 0x1010101010, 100);
        }
        return led(w, 0x10101010, 1000);
    }
    if w % 65536 == 0x2020 {
        if w % 16777216 == 0x202020 {
            return led(w, 0x101010, 10000);
        }
        return led(w, 0x1010, 100000);
    }
    if w % 256 == 0x20 {
        return led(w, 0x10, 1000000);
    }
    led(w, 0, 10000000)
}

// A column b that others follow, after columns that came to v: 0 for blanks alone.
#[tactic(auto, using(crate::proofs::Laws::Words::next_read, crate::proofs::Laws::Words::last_digit_lem, crate::proofs::Laws::Words::last_other))]
fn next(v: u64, b: u8) -> Option<u64>
    requires { v < 10 ^ 11 }
    ensures read { (s : List ℕ) → 0 < length s → onward v (b ∷ s) ≡ onward_of result s }
    ensures digit { IfSome result (λ r. r < v * 10 + 10) }
{
    if (v == 0) & (b == BLANK) {
        return Some(0);
    }
    // No zero leads.
    last(v, b).filter(|r| 0 < *r)
}

// The first columns of a field, which others follow.
fn head(columns: &[u8]) -> Option<u64>
    requires { length columns.now ≤ 11 }
    ensures read { (s : List ℕ) → 0 < length s → onward_of result s ≡ read_field (columns.now ++ s) }
    ensures digits { IfSome result (λ r. r < 10 ^ length columns.now) }
{
    let mut v = 0;
    for b in columns {
        v = next(v, *b)?;
    }
    Some(v)
}

// The number of a field that ends in the column b.
#[tactic(auto, using(crate::proofs::Laws::Words::last_digit_lem, crate::proofs::Laws::Words::last_other))]
fn last(v: u64, b: u8) -> Option<u64>
    requires { v < 10 ^ 11 }
    ensures is { result ≡ onward v (b ∷ []) }
    ensures digit { IfSome result (λ r. r < v * 10 + 10) }
{
    if b.is_ascii_digit() {
        Some(v * 10 + u64::from(b - b'0'))
    } else {
        None
    }
}

// The number of a field that ends in the eight columns of a word.
#[tactic(auto, unfolding(crate::specs::Words::onward), using(crate::proofs::Laws::Words::eight_below, crate::proofs::Laws::Words::tail_digits, crate::proofs::Laws::Words::tail_none))]
fn tail(v: u64, w: u64) -> Option<u64>
    requires { v < 10 ^ 4 }
    ensures { result ≡ onward v (bytes_of 8 w) }
{
    if v == 0 {
        return eight(w);
    }
    if are_digits(w) {
        Some(v * 100000000 + value(w))
    } else {
        None
    }
}

// The number of a field. Nine columns stand apart: tail, called from two places, stays one function. It takes place and width, no part of
// the line: of a part the compiler does not see the length, each field's read is a call then, and the program takes 14 to 21 % more
// instructions.
fn number(line: &[u8], at: usize, width: usize) -> Option<u64>
    requires { (at + width ≤ length line.now) × (1 ≤ width) × (width ≤ 12) }
    ensures { result ≡ read_field (take width (drop at line.now)) }
{
    if width < 8 {
        let edge = at + width - 1;
        return last(head(&line[at..edge])?, line[edge]);
    }
    if width == 9 {
        return tail(head(&line[at..at + 1])?, word(&line[at + 1..]));
    }
    let middle = at + width - 8;
    tail(head(&line[at..middle])?, word(&line[middle..]))
}

// The field of a width at a place of a line: no value where it is too wide or does not lie in the line.
#[tactic(auto, unfolding(crate::specs::Field::field_at), using(crate::proofs::Laws::Buffer::field_outside))]
pub fn field(line: &[u8], at: usize, width: usize) -> Option<u64>
    ensures { result ≡ field_at at width line.now }
{
    if (0 < width) & (width <= WIDEST) & has_room(line.len(), at, width) {
        number(line, at, width)
    } else {
        None
    }
}
