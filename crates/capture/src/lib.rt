// A day's capture: whether octets are a valid one, and its entries (docs/RULES.md, 'A day's capture, replayed').
#![tactic(auto)]

ghost use Rattle.std.specs.Prelude.{◌≡◌, ◌<◌};
ghost use Rattle.capture.specs.Format.{count, valid};
ghost use Rattle.capture.specs.Entry.{entry_at, octets_at, following, side_of, id_of};

pub mod kind;
mod read;
pub mod reader;
pub mod side;
mod validity;

use base::octets::{between, four, octet};
use kind::Kind;
use read::{kind, offset, size};
use side::Side;
use validity::{entries_end, is_headed};

// The most octets of a capture.
pub const MOST_OCTETS: usize = 60_000;

// The most entries of a capture.
pub const MOST_ENTRIES: usize = 1_000;

// An entry: its kind, and its octets as those of the capture from `at` up to `end`. It has no kind where there is no such entry, or where its octet is none.
#[derive(Clone, Copy, Debug, PartialEq, Eq)]
pub struct Entry {
    pub kind: Option<Kind>,
    pub at: usize,
    pub end: usize,
}

// How many entries the capture says to have.
#[tactic(auto, unfolding(crate::specs::Format::count))]
pub fn count(capture: &[u8]) -> usize
    ensures value { result ≡ count capture.now }
    ensures fits { result < 4294967296 }
{
    four(capture, 0) as usize
}

// Whether octets are a valid capture.
#[tactic(auto, unfolding(crate::specs::Format::valid))]
pub fn valid(capture: &[u8]) -> bool
    ensures { result ≡ valid capture.now }
{
    capture.len() <= MOST_OCTETS && is_headed(capture) && entries_end(capture)
}

// The entry with a number.
#[tactic(auto, unfolding(crate::specs::Entry::entry_at))]
pub fn entry_at(capture: &[u8], number: usize) -> Entry
    ensures { result ≡ entry_at capture.now number }
{
    if number >= count(capture) {
        return Entry {
            kind: None,
            at: 0,
            end: 0,
        };
    }
    let at = offset(capture, number) as usize;
    let end = at + size(capture, number) as usize;
    Entry {
        kind: Kind::try_from(kind(capture, number)).ok(),
        at,
        end,
    }
}

// The octets of an entry, none where there is no such entry.
pub fn octets_at(capture: &[u8], number: usize) -> &[u8]
    ensures { result.now ≡ octets_at capture.now number }
{
    let e = entry_at(capture, number);
    between(capture, e.at, e.end)
}

// The number of the entry behind one; behind the last there is none.
#[tactic(auto, unfolding(crate::specs::Entry::following))]
pub fn following(capture: &[u8], number: usize) -> usize
    ensures { result ≡ following capture.now number }
{
    if number < count(capture) {
        number + 1
    } else {
        number
    }
}

// The side of a forget's octets; an octet that is missing counts as 0.
pub fn side_of(octets: &[u8]) -> Side
    ensures { result ≡ side_of octets.now }
{
    Side::from(octet(octets, 0))
}

// The id of a forget's octets.
pub fn id_of(octets: &[u8]) -> u32
    ensures { result ≡ id_of octets.now }
{
    four(octets, 1)
}
