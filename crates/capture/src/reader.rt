// A reader that keeps the lent capture and its place. Each method takes it apart and leaves the work to a function over the slice and the number.
ghost use Rattle.std.specs.Prelude.{◌≡◌};
ghost use Rattle.capture.specs.Entry.{entry_at, octets_at, following};

use crate::{Entry, entry_at, following, octets_at};

#[derive(Clone, Copy, Debug)]
pub struct Reader<'a> {
    pub capture: &'a [u8],
    pub entry: usize,
}

impl<'a> Reader<'a> {
    // A reader at an entry of a capture.
    pub fn standing(capture: &'a [u8], entry: usize) -> Self
        ensures capture { result.capture ≡ capture.entry }
        ensures entry { result.entry ≡ entry }
    {
        Reader { capture, entry }
    }

    // The reader moved on to the next entry.
    pub fn moved_on(self) -> Self
        ensures capture { result.capture ≡ self.entry.capture }
        ensures entry { result.entry ≡ following self.entry.capture.now self.entry.entry }
    {
        Reader {
            capture: self.capture,
            entry: following(self.capture, self.entry),
        }
    }

    // The kind of the entry, and where its octets stand.
    pub fn entry_here(self) -> Entry
        ensures { result ≡ entry_at self.entry.capture.now self.entry.entry }
    {
        entry_at(self.capture, self.entry)
    }

    pub fn octets_here(self) -> &'a [u8]
        ensures { result.now ≡ octets_at self.entry.capture.now self.entry.entry }
    {
        octets_at(self.capture, self.entry)
    }
}

// The entry with a number, by a reader that stands there: what every caller with a plain capture uses.
pub fn entry_numbered(capture: &[u8], number: usize) -> Entry
    ensures { result ≡ entry_at capture.now number }
{
    Reader::standing(capture, number).entry_here()
}
