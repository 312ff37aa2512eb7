// Writing a number to a field: specs/Field.
ghost use Rattle.std.specs.Prelude.{◌≡◌, ◌+◌, ◌≤◌, length};
ghost use Rattle.digits.specs.Field.{last_digit, sign_of, signed_field, pasted, put_at};

use crate::{BLANK, has_room};

const MINUS: u8 = 45;

// The byte of the last digit of v.
fn last_digit(v: u64) -> u8
    ensures { result ≡ last_digit v }
{
    (48 + v % 10) as u8
}

// What stands before the digits of a number with a sign.
pub fn sign(z: i64) -> u8
    ensures { result ≡ sign_of z }
{
    if z < 0 { MINUS } else { BLANK }
}

// Writes v to the right edge of a field that has room, the sign before its digits, and blanks before that.
fn put_field(out: &mut [u8], at: usize, width: usize, sign: u8, v: u64)
    requires { (1 ≤ width) × (at + width ≤ length out.old) }
    ensures { out.new ≡ pasted at (signed_field width sign v) out.old }
{
    let edge = at + width - 1;
    out[edge] = last_digit(v);
    let mut rest = v / 10;
    let mut fill = sign;
    for i in (at..edge).rev() {
        if rest == 0 {
            out[i] = fill;
            fill = BLANK;
        } else {
            out[i] = last_digit(rest);
            rest /= 10;
        }
    }
}

// Writes v to the right edge of the field of a width at a place, the sign before its digits, and blanks before that; or writes nothing,
// where the field has no room.
#[tactic(auto, using(crate::proofs::Laws::Buffer::put_outside))]
pub fn put(out: &mut [u8], at: usize, width: usize, sign: u8, v: u64)
    ensures { out.new ≡ put_at at width sign v out.old }
{
    if (0 < width) & has_room(out.len(), at, width) {
        put_field(out, at, width, sign, v);
    }
}
