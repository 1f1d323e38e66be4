// Octets in hexadecimal, a space before each, the first 16 of them.
use std::fmt;
use text::hex::SpacedOctets;

// The most octets that are shown of contents or of a value.
const SHOWN: usize = 16;

#[derive(Clone, Copy)]
pub(crate) struct FirstOctets<'a>(pub(crate) &'a [u8]);

impl fmt::Display for FirstOctets<'_> {
    fn fmt<W: fmt::Write>(&self, f: &mut fmt::Formatter<W>) -> fmt::Result {
        if self.0.len() <= SHOWN {
            return write!(f, "{}", SpacedOctets(self.0));
        }
        write!(f, "{} ..", SpacedOctets(&self.0[..SHOWN]))
    }
}
