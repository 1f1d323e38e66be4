// Codes and readings in words.
use codes::Code;
use std::fmt;
use text::hex::Octets;
use text::number::Signed;

// A code: a signed number, or a name in hexadecimal. Not Code's own Display, since each program has its own words for a code.
#[derive(Clone, Copy)]
pub(crate) struct Coded(pub(crate) Code);

impl fmt::Display for Coded {
    fn fmt<W: fmt::Write>(&self, f: &mut fmt::Formatter<W>) -> fmt::Result {
        match self.0 {
            Code::Local(bits) => write!(f, "{}", Signed(bits)),
            Code::Global(name) => write!(f, "name {}", Octets(name.contents())),
        }
    }
}

// Hundredths of a mg/l, as mg/l, behind a space.
#[derive(Clone, Copy)]
pub(crate) struct Reading(pub(crate) u32);

impl fmt::Display for Reading {
    fn fmt<W: fmt::Write>(&self, f: &mut fmt::Formatter<W>) -> fmt::Result {
        write!(f, " {}.{:02}", self.0 / 100, self.0 % 100)
    }
}
