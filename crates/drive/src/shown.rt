// Fields as they stand in a line.
use base::octets::four;
use codes::{Code, Name};
use std::fmt;
use text::hex::Octets;

// Octets in hexadecimal, without blanks, and a dash for none.
#[derive(Clone, Copy)]
pub(crate) struct OctetsOrDash<'a>(pub(crate) &'a [u8]);

impl fmt::Display for OctetsOrDash<'_> {
    fn fmt<W: fmt::Write>(&self, f: &mut fmt::Formatter<W>) -> fmt::Result {
        if self.0.is_empty() {
            return write!(f, "-");
        }
        write!(f, "{}", Octets(self.0))
    }
}

// A code: a name as `n`, its length and its 16 octets. What has length 0 shows as a local code, though it may be no code's form.
#[derive(Clone, Copy)]
pub(crate) struct Coded(pub(crate) Code);

impl fmt::Display for Coded {
    fn fmt<W: fmt::Write>(&self, f: &mut fmt::Formatter<W>) -> fmt::Result {
        match self.0 {
            Code::Local(number) => write!(f, "{number:08x}"),
            Code::Global(name) => {
                if name.length == 0 {
                    return write!(f, "{:08x}", four(&name.octets, 0));
                }
                write!(f, "n{:02x}{}", name.length, Octets(&name.octets))
            }
        }
    }
}

// An id, or a number of 32 bits.
#[derive(Clone, Copy)]
pub(crate) struct Digits(pub(crate) u32);

impl fmt::Display for Digits {
    fn fmt<W: fmt::Write>(&self, f: &mut fmt::Formatter<W>) -> fmt::Result {
        write!(f, "{:08x}", self.0)
    }
}

// A field, or `none` where it is absent.
#[derive(Clone, Copy)]
pub(crate) struct OrNone<T>(pub(crate) Option<T>);

impl<T: fmt::Display> fmt::Display for OrNone<T> {
    fn fmt<W: fmt::Write>(&self, f: &mut fmt::Formatter<W>) -> fmt::Result {
        match &self.0 {
            Some(field) => write!(f, "{field}"),
            None => write!(f, "none"),
        }
    }
}
