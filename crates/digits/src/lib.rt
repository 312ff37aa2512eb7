// Numbers as text, document 01, "The text line": reading the number of a field and writing it. Every public function answers for
// any input.
#![tactic(auto)]

ghost use Rattle.std.specs.Prelude.{◌≡◌};
ghost use Rattle.digits.specs.Field.{has_room};

pub mod reading;
pub mod writing;

pub const BLANK: u8 = 32;

// Whether some bytes have room from a place on in a buffer of a length.
pub fn has_room(long: usize, at: usize, bytes: usize) -> bool
    ensures { result ≡ has_room at bytes long }
{
    bytes <= long && at <= long - bytes
}
