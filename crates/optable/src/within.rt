// Octets that the table is known to have, so that no end is asked for: what the check of a whole table reads.
ghost use Rattle.std.specs.Prelude.{◌≡◌, true, ◌+◌, ◌<◌, ◌≤◌, length};
ghost use Rattle.base.specs.Octets.{u16, u32};
ghost use Rattle.optable.specs.Read.{edition, header_of, name_here, has_part, count, start};

use crate::read::{counts_at, has_part, head_of};
use crate::{Edition, Part};
use base::octets::octets;
use codes::Name;

// Two octets that the table has. Not by `two` of base: its tests of the table's end cost a full table's check as much again.
pub(crate) fn two_within(table: &[u8], at: usize) -> u16
    requires { at + 2 ≤ length table.now }
    ensures { result ≡ u16 table.now at }
{
    u16::from_be_bytes([table[at], table[at + 1]])
}

// Four octets that the table has; as above.
pub(crate) fn four_within(table: &[u8], at: usize) -> u32
    requires { at + 4 ≤ length table.now }
    ensures value { result ≡ u32 table.now at }
    ensures low { u16 table.now (at + 2) < 65536 }
{
    u32::from_be_bytes([table[at], table[at + 1], table[at + 2], table[at + 3]])
}

// A name that the table has, by its place.
#[tactic(auto, unfolding(crate::specs::Read::name_here))]
pub(crate) fn name_within(table: &[u8], at: usize) -> Name
    requires { at + 17 ≤ length table.now }
    ensures { result ≡ name_here table.now at }
{
    Name {
        length: table[at],
        octets: octets(table, at + 1),
    }
}

// A part's count and start, read of a table that has its header.
#[tactic(auto, unfolding(crate::specs::Read::count))]
pub(crate) fn count_within(table: &[u8], e: Edition, part: Part) -> u16
    requires same_edition { e ≡ edition table.now }
    requires header { header_of e ≤ length table.now }
    ensures { result ≡ count table.now part }
{
    if has_part(e, part) {
        return two_within(table, counts_at(e) + head_of(part));
    }
    0
}

// The start of a part that the edition has.
#[tactic(auto, unfolding(crate::specs::Read::start))]
pub(crate) fn start_within(table: &[u8], e: Edition, part: Part) -> u16
    requires same_edition { e ≡ edition table.now }
    requires header { header_of e ≤ length table.now }
    requires there { has_part e part ≡ true }
    ensures { result ≡ start table.now part }
{
    two_within(table, counts_at(e) + head_of(part) + 2)
}
