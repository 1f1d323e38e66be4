// What a table's octets say, an octet behind the end being 0.
ghost use Rattle.std.specs.Prelude.{◌≡◌, true, ◌+◌, ◌<◌, ◌≤◌, length};
ghost use Rattle.base.specs.Octets.{u16, u32};
ghost use Rattle.optable.specs.Read.{edition, header_of, name_here, has_part, counts_at, head_of, size_of, count, start, entry_start, octet_at, key_at, name_at, code_of, code_at, operation_at, idempotent_at, error_at, first_at, second_at, second_part, kind_of};
ghost use Rattle.optable.specs.Validity.{limit_of, behind};
ghost use Rattle.optable.specs.Steps.{in_every};

use crate::{Class, Edition, Operation, Part, Rule};
use base::octets::{four, octet, octets, two};
use codes::search::key_at;
use codes::{Code, Key, Kind, Name};

#[tactic(auto, unfolding(crate::specs::Read::edition))]
pub fn edition(table: &[u8]) -> Edition
    ensures { result ≡ edition table.now }
{
    if four(table, 0) == 0xFFFF_0002 {
        return Edition::Second;
    }
    Edition::First
}

// How many octets a header has.
pub fn header_of(e: Edition) -> usize
    ensures { result ≡ header_of e }
{
    match e {
        Edition::First => 16,
        Edition::Second => 24,
    }
}

// Whether a table of the edition has the part.
pub fn has_part(e: Edition, part: Part) -> bool
    ensures { result ≡ has_part e part }
{
    match (e, part) {
        (Edition::First, Part::Names) => false,
        _ => true,
    }
}

pub(crate) fn counts_at(e: Edition) -> usize
    ensures value { result ≡ counts_at e }
    ensures most { result ≤ 4 }
{
    match e {
        Edition::First => 0,
        Edition::Second => 4,
    }
}

pub(crate) fn head_of(part: Part) -> usize
    ensures value { result ≡ head_of part }
    ensures most { result ≤ 16 }
{
    match part {
        Part::Operations => 0,
        Part::Errors => 4,
        Part::ErrorPairs => 8,
        Part::ChildPairs => 12,
        Part::Names => 16,
    }
}

pub(crate) fn size_of(part: Part) -> usize
    ensures value { result ≡ size_of part }
    ensures most { result ≤ 17 }
{
    match part {
        Part::Operations => 8,
        Part::Errors => 6,
        Part::ErrorPairs | Part::ChildPairs => 4,
        Part::Names => 17,
    }
}

// How many entries a part may have.
pub fn limit_of(part: Part) -> u16
    ensures { result ≡ limit_of part }
{
    match part {
        Part::Operations | Part::Errors => 64,
        Part::ErrorPairs | Part::ChildPairs => 256,
        Part::Names => 128,
    }
}

// The part that a pair's second index is of; of another part it is Operations, as `second_part` has it.
pub fn second_part(part: Part) -> Part
    ensures { result ≡ second_part part }
{
    match part {
        Part::ErrorPairs => Part::Errors,
        _ => Part::Operations,
    }
}

#[tactic(auto, unfolding(crate::specs::Read::count))]
pub fn count(table: &[u8], part: Part) -> u16
    ensures { result ≡ count table.now part }
{
    let e = edition(table);
    if has_part(e, part) {
        return two(table, counts_at(e) + head_of(part));
    }
    0
}

#[tactic(auto, unfolding(crate::specs::Read::start))]
pub fn start(table: &[u8], part: Part) -> u16
    ensures { result ≡ start table.now part }
{
    two(table, counts_at(edition(table)) + head_of(part) + 2)
}

// Where entry `i` starts, so near that no sum with it wraps. Octets, part and index stay parameters: what Read defines is of these three, and of any octets.
#[tactic(auto, unfolding(crate::specs::Read::entry_start))]
fn entry_start(table: &[u8], part: Part, i: u16) -> usize
    ensures value { result ≡ entry_start table.now part i }
    ensures near { result < 2097152 }
{
    (start(table, part) as usize) + (i as usize) * size_of(part)
}

// Where a part ends.
#[tactic(auto, unfolding(crate::specs::Validity::behind))]
pub fn end(table: &[u8], part: Part) -> usize
    ensures { result ≡ behind table.now part }
{
    entry_start(table, part, count(table, part))
}

// Octet `n` of entry `i`.
#[tactic(auto, unfolding(crate::specs::Read::octet_at))]
pub fn octet_at(table: &[u8], part: Part, i: u16, n: u8) -> u8
    ensures { result ≡ octet_at table.now part i n }
{
    octet(table, entry_start(table, part, i) + (n as usize))
}

// The kind of a part's entries, where they have a code; else it is Operation, as `kind_of` has it.
pub(crate) fn kind_of(part: Part) -> Kind
    ensures { result ≡ kind_of part }
{
    match part {
        Part::Errors => Kind::Error,
        _ => Kind::Operation,
    }
}

// How the code of entry `i` stands in it.
#[tactic(auto, unfolding(crate::specs::Read::key_at))]
pub(crate) fn key_in(table: &[u8], part: Part, i: u16) -> Key
    ensures { result ≡ key_at table.now part i }
{
    key_at(table, start(table, part), kind_of(part), i)
}

#[tactic(auto, unfolding(crate::specs::Read::name_at, crate::specs::Read::name_here, crate::specs::Read::entry_start))]
pub fn name_at(table: &[u8], i: u32) -> Name
    ensures { result ≡ name_at table.now i }
{
    let at = (start(table, Part::Names) as usize) + (i as usize) * 17;
    Name {
        length: octet(table, at),
        octets: octets(table, at + 1),
    }
}

// The code that stands so in an entry.
#[tactic(auto, unfolding(crate::specs::Read::code_of))]
fn code_of(table: &[u8], key: Key) -> Code
    ensures { result ≡ code_of table.now key }
{
    match key {
        Key::Bits(bits) => Code::Local(bits),
        Key::Index(index) => Code::Global(name_at(table, index)),
    }
}

#[tactic(auto, unfolding(crate::specs::Read::code_at))]
pub fn code_at(table: &[u8], part: Part, i: u16) -> Code
    ensures { result ≡ code_at table.now part i }
{
    code_of(table, key_in(table, part, i))
}

#[tactic(auto, unfolding(crate::specs::Read::first_at))]
pub fn first_at(table: &[u8], part: Part, i: u16) -> u16
    ensures { result ≡ first_at table.now part i }
{
    two(table, entry_start(table, part, i))
}

// Beside `first_at`: a reader of one line for each index, as Read defines them.
#[tactic(auto, unfolding(crate::specs::Read::second_at))]
pub fn second_at(table: &[u8], part: Part, i: u16) -> u16
    ensures { result ≡ second_at table.now part i }
{
    two(table, entry_start(table, part, i) + 2)
}

#[tactic(auto, unfolding(crate::specs::Read::operation_at, crate::specs::Read::octet_at))]
pub fn operation_at(table: &[u8], i: u16) -> Operation
    ensures { result ≡ operation_at table.now i }
{
    let at = entry_start(table, Part::Operations, i);
    let flags = octet(table, at + 7);
    Operation {
        class: Class::from(octet(table, at + 4)),
        argument: Rule {
            identifier: octet(table, at + 5),
            optional: flags % 2 == 1,
        },
        result: Rule {
            identifier: octet(table, at + 6),
            optional: flags / 2 % 2 == 1,
        },
    }
}

#[tactic(auto, unfolding(crate::specs::Read::idempotent_at))]
pub fn idempotent_at(table: &[u8], i: u16) -> bool
    ensures { result ≡ idempotent_at table.now i }
{
    octet_at(table, Part::Operations, i, 7) / 8 % 2 == 1
}

// Not one with `operation_at`: an error's entry has other fields, in other octets.
#[tactic(auto, unfolding(crate::specs::Read::error_at, crate::specs::Read::octet_at))]
pub fn error_at(table: &[u8], i: u16) -> Rule
    ensures { result ≡ error_at table.now i }
{
    let at = entry_start(table, Part::Errors, i);
    Rule {
        identifier: octet(table, at + 4),
        optional: octet(table, at + 5) % 2 == 1,
    }
}
