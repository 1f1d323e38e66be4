// Numbers as text.
ghost use Rattle.std.specs.Prelude.{◌≡◌, Some};
ghost use Rattle.text.specs.Text.{signed_digits};

use crate::signed;
use std::fmt;

// The digits of a signed number, put into a line.
fn digits(bits: u32, line: &mut [u8; 21]) -> &str
    ensures { result.now ≡ signed_digits bits }
{
    let end = signed(line, 0, bits);
    std::str::from_utf8(&line[..end]).unwrap_or("")
}

// The signed number with these two's complement bits, in decimal.
#[derive(Clone, Copy)]
pub struct Signed(pub u32);

impl fmt::Display for Signed {
    ghost output = { λ number. Some (signed_digits number.0) };

    fn fmt<W: fmt::Write>(&self, f: &mut fmt::Formatter<W>) -> fmt::Result {
        f.write_str(digits(self.0, &mut [0; 21]))
    }
}
