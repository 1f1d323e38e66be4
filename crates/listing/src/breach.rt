// The rule that an entry breaks, in words.
use crate::entry::Entry;
use crate::service::no_acknowledge;
use codes::NameFault;
use optable::read::{count, edition, error_at, name_at, octet_at, operation_at, second_part};
use optable::{Breach, Edition, Part, Rule};
use std::fmt;
use std::fmt::{Formatter, Write};
use text::hex::Octets;

// An entry, and the rule that it breaks.
#[derive(Clone, Copy)]
pub(crate) struct Broken<'a> {
    pub(crate) entry: Entry<'a>,
    pub(crate) breach: Breach,
}

impl fmt::Display for Broken<'_> {
    fn fmt<W: Write>(&self, f: &mut Formatter<W>) -> fmt::Result {
        let entry = self.entry;
        match self.breach {
            Breach::Class => write!(f, "class is {}, expected 1 to 5", entry.octet(4)),
            Breach::Flags => entry.flags(f),
            Breach::ArgumentFlag => write!(f, "argument is optional but has type 00"),
            Breach::ArgumentType => all_ones(f, "argument", entry.operation().argument),
            Breach::ResultFlag => write!(f, "result is optional but has type 00"),
            Breach::ResultType => all_ones(f, "result", entry.operation().result),
            Breach::ResultUnexpected => entry.unexpected_result(f),
            Breach::ParameterFlag => write!(f, "parameter is optional but has type 00"),
            Breach::ParameterType => all_ones(f, "parameter", error_at(entry.table, entry.index)),
            Breach::NameIndex => entry.name_index(f),
            Breach::ServiceClass => entry.service_class(f),
            Breach::ServiceArgument => entry.service_argument(f),
            Breach::ServiceResult => entry.service_result(f),
            Breach::NoAcknowledge => no_acknowledge(f),
            Breach::FirstIndex => entry.first_index(f),
            Breach::SecondIndex => entry.second_index(f),
            Breach::PairClass => entry.pair_class(f),
            Breach::NameForm(fault) => entry.name_form(f, fault),
            Breach::Order => entry.order(f),
            Breach::Repeated => write!(f, "the same as name {}", entry.first_same()),
        }
    }
}

fn all_ones<W: Write>(f: &mut Formatter<W>, of: &str, rule: Rule) -> fmt::Result {
    let identifier = rule.identifier;
    write!(
        f,
        "{of} type is {identifier:02x}, whose low five bits are all ones"
    )
}

fn index<W: Write>(f: &mut Formatter<W>, of: &str, found: u32, limit: u16) -> fmt::Result {
    write!(f, "{of} index is {found}, expected below {limit}")
}

impl Entry<'_> {
    fn octet(&self, n: u8) -> u8 {
        octet_at(self.table, self.part, self.index, n)
    }

    fn flags<W: Write>(&self, f: &mut Formatter<W>) -> fmt::Result {
        let flags = match self.part {
            Part::Operations => self.octet(7),
            _ => self.octet(5),
        };
        let expected = match (self.part, edition(self.table)) {
            (Part::Operations, Edition::First) => "00 to 03",
            (Part::Operations, Edition::Second) => "00 to 0f",
            (_, Edition::First) => "00 or 01",
            (_, Edition::Second) => "00 to 03",
        };
        write!(f, "flags are {flags:02x}, expected {expected}")
    }

    fn unexpected_result<W: Write>(&self, f: &mut Formatter<W>) -> fmt::Result {
        let operation = self.operation();
        let found = operation.result.identifier;
        let class = u8::from(operation.class);
        write!(
            f,
            "result type is {found:02x}, expected 00 for class {class}"
        )
    }

    // The index of a name stands in four octets, where a pair has its two indexes.
    fn name_index<W: Write>(&self, f: &mut Formatter<W>) -> fmt::Result {
        let found = u32::from(self.first()) * 0x1_0000 + u32::from(self.second());
        index(f, "name", found, count(self.table, Part::Names))
    }

    fn first_index<W: Write>(&self, f: &mut Formatter<W>) -> fmt::Result {
        let limit = count(self.table, Part::Operations);
        index(f, "first", u32::from(self.first()), limit)
    }

    fn second_index<W: Write>(&self, f: &mut Formatter<W>) -> fmt::Result {
        let limit = count(self.table, second_part(self.part));
        index(f, "second", u32::from(self.second()), limit)
    }

    fn pair_class<W: Write>(&self, f: &mut Formatter<W>) -> fmt::Result {
        let first = self.first();
        let class = u8::from(operation_at(self.table, first).class);
        let part = self.part;
        write!(
            f,
            "operation {first} is of class {class}, which has no {part}"
        )
    }

    fn name_form<W: Write>(&self, f: &mut Formatter<W>, fault: NameFault) -> fmt::Result {
        let name = self.name();
        match fault {
            NameFault::Length => write!(f, "length is {}, expected 1 to 16", name.length),
            NameFault::Contents => {
                write!(f, "{} is no OBJECT IDENTIFIER", Octets(name.contents()))
            }
            NameFault::Padding => write!(f, "octets behind its length are not 0"),
        }
    }

    fn order<W: Write>(&self, f: &mut Formatter<W>) -> fmt::Result {
        match self.part {
            Part::ErrorPairs | Part::ChildPairs => write!(f, "pairs do not rise"),
            _ => write!(f, "codes do not rise"),
        }
    }

    // The first index that has the name at this one.
    fn first_same(&self) -> u16 {
        let name = self.name();
        (0..self.index)
            .find(|&j| name_at(self.table, j as u32).same(name))
            .unwrap_or(self.index)
    }
}
