// Words, numbers and octets written as text to a writer, as standard output or standard error.
// Text is kept in a buffer until one ends with a line end, or does not fit, and written then: none asks for memory.
ghost use Rattle.std.specs.Prelude.{◌≡◌, ℕ, ◌≤◌, ◌↔◌, IsTrue, Bool, true, List, [], ◌∷◌, take};
ghost use Rattle.std.specs.Io.KnownBytes.{Appends};
ghost use Rattle.text.specs.Text.{hex_octet, spaced_octets, decimal_digits, signed_digits, item_of};
ghost use Rattle.text.specs.Out.{Put, Adds, AddsWords, EndsLine, Fits, kept_behind};

use crate::item::item;
use crate::problem::problem;
use crate::{print, signed};
use arrayvec::ArrayVec;
use std::fmt;
use std::io::Write;
use std::marker::Model;

// A writer, and the text that it is still to be given.
#[derive(Drop)]
pub struct Out<W: Write> {
    to: W,
    kept: ArrayVec<u8, 4096>,
    whole: bool,
}

impl<W: Write> Model for Out<W> {
    ghost Value = { Put };

    ghost view = { λ o. record { held = W.contents o.to; kept = o.kept.items; whole = o.whole } };
}

impl<W: Write> Out<W> {
    pub fn new(to: W) -> Self
        ensures { result ≡ record { held = W.contents to; kept = []; whole = true } }
    {
        Out {
            to,
            kept: ArrayVec::new(),
            whole: true,
        }
    }

    // Whether the writer took all that it was given.
    pub fn is_whole(&self) -> bool
        ensures { result ≡ self.now.whole }
    {
        self.whole
    }

    // Gives the writer what is kept. What the writer keeps itself stays there.
    pub fn flush(&mut self)
        ensures added { Adds self.old [] self.new }
        ensures written { self.new.kept ≡ [] }
    {
        let is_taken = self.to.write_all(self.kept.as_slice()).is_ok();
        self.kept.clear();
        self.whole = self.whole && is_taken;
    }

    // Keeps text, or writes it where there is no room for it behind what is kept.
    fn keep(&mut self, s: &[u8])
        ensures added { Adds self.old s.now self.new }
        ensures kept { Fits self.old s.now → self.new ≡ kept_behind self.old s.now }
        ensures given { (Fits self.old s.now → ⊥) → self.new.kept ≡ [] }
    {
        if self.kept.try_extend_from_slice(s).is_ok() {
            return;
        }
        let is_first_taken = self.to.write_all(self.kept.as_slice()).is_ok();
        let is_taken = self.to.write_all(s).is_ok();
        self.kept.clear();
        self.whole = self.whole && is_first_taken && is_taken;
    }
}

// Text that `write!` makes is put out as `words` puts it, and `write!` never fails.
impl<W: Write> fmt::Write for Out<W> {
    ghost write_str_gives = { Adds };

    fn write_str(&mut self, s: &str) -> fmt::Result
        ensures added { Adds self.old s.now self.new }
        ensures ok { result ≡ Ok tt }
    {
        words(self, s.as_bytes());
        Ok(())
    }
}

fn ends_line(s: &[u8]) -> bool
    ensures { IsTrue result ↔ EndsLine s.now }
{
    s.last() == Some(&b'\n')
}

pub fn words(out: &mut Out<impl Write>, s: &[u8])
    ensures added { Adds out.old s.now out.new }
    ensures kept { Fits out.old s.now → (EndsLine s.now → ⊥) → out.new ≡ kept_behind out.old s.now }
    ensures written { EndsLine s.now → out.new.kept ≡ [] }
{
    out.keep(s);
    if ends_line(s) {
        out.flush();
    }
}

// Each of the functions with a line of their own has it as long as its text can be: one function for them, over a closure, would take more than three lines.
pub fn decimal(out: &mut Out<impl Write>, n: u64)
    ensures { Adds out.old (decimal_digits n) out.new }
{
    let mut line = [0u8; 20];
    let end = crate::decimal(&mut line, 0, n);
    print(out, &line, end);
}

// The signed number with these two's complement bits, in decimal.
pub fn signed_number(out: &mut Out<impl Write>, bits: u32)
    ensures { Adds out.old (signed_digits bits) out.new }
{
    let mut line = [0u8; 21];
    let end = signed(&mut line, 0, bits);
    print(out, &line, end);
}

// An octet as two hexadecimal digits.
pub fn octet(out: &mut Out<impl Write>, b: u8)
    ensures { Adds out.old (hex_octet b) out.new }
{
    let mut line = [0u8; 2];
    let end = crate::octet(&mut line, 0, b);
    print(out, &line, end);
}

fn spaced_octet(out: &mut Out<impl Write>, b: u8)
    ensures { Adds out.old (32 ∷ hex_octet b) out.new }
{
    words(out, b" ");
    octet(out, b);
}

// Octets as hexadecimal digits, a space before each.
pub fn octets(out: &mut Out<impl Write>, s: &[u8])
    ensures { Adds out.old (spaced_octets s.now) out.new }
{
    for &b in s {
        spaced_octet(out, b);
    }
}

// The first 64 octets of item n of a list of names with a bar between each and the next.
pub fn name(out: &mut Out<impl Write>, list: &[u8], n: usize)
    ensures { Adds out.old (take 64 (item_of n list.now)) out.new }
{
    let mut line = [0u8; 64];
    let end = item(&mut line, 0, list, n);
    print(out, &line, end);
}

// A Reject's problem by its kind, number and name.
// Two octets, since `problem` takes any.
pub fn problem_name(out: &mut Out<impl Write>, kind: u8, number: u8)
    ensures { AddsWords out.old out.new }
{
    let mut line = [0u8; 64];
    let end = problem(&mut line, 0, kind, number);
    print(out, &line, end);
}

#[cfg(test)]
mod tests {
    use super::*;
    use std::io::{Error, ErrorKind, Result};

    #[test]
    fn a_line_is_written_when_it_ends(rt: HostRuntime) {
        let mut taken: Vec<u8> = Vec::new(rt.alloc());
        let mut out = Out::new(&mut taken);
        words(&mut out, b"at ");
        decimal(&mut out, 18446744073709551615);
        signed_number(&mut out, 0x8000_0000);
        octets(&mut out, b"\x00\xff");
        words(&mut out, b"\n");
        words(&mut out, b"kept");
        assert!(rt; out.is_whole());
        drop(out);
        assert!(rt; taken.as_slice() == b"at 18446744073709551615-2147483648 00 ff\n".as_slice());
    }

    // It takes nothing once, and all from then on.
    #[derive(Drop)]
    struct Broken {
        failed: bool,
        taken: Vec<u8>,
    }

    impl Write for Broken {
        fn write(&mut self, buf: &[u8]) -> Result<usize> {
            if self.failed {
                return self.taken.write(buf);
            }
            self.failed = true;
            Err(Error::from(ErrorKind::BrokenPipe))
        }

        fn flush(&mut self) -> Result<()> {
            Ok(())
        }
    }

    #[test]
    fn a_lost_line_is_told_and_the_next_is_written(rt: HostRuntime) {
        let mut writer = Broken {
            failed: false,
            taken: Vec::new(rt.alloc()),
        };
        let mut out = Out::new(&mut writer);
        words(&mut out, b"lost\n");
        assert!(rt; !out.is_whole());
        words(&mut out, b"written\n");
        assert!(rt; !out.is_whole());
        drop(out);
        assert!(rt; writer.taken.as_slice() == b"written\n".as_slice());
    }
}
