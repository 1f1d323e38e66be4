// The octets of a table: its header, and its entries one behind the other.
use crate::entry::Entry;
use crate::reason::Reason;
use codes::{Code, Key, Name};
use optable::read::{code_at, count, end, has_part, header_of, name_at, second_part, start};
use optable::{Edition, Operation, Part, Rule};
use text::words;

// The code of an entry, or the name that it is.
fn listed_at(table: &[u8], part: Part, i: u16) -> Code {
    match part {
        Part::Names => Code::Global(name_at(table, i as u32)),
        _ => code_at(table, part, i),
    }
}

// A table, and the place where the next octets are put: names are put first and stand last, so that octets are not only added behind others.
#[derive(Drop)]
pub(crate) struct Maker<'a> {
    table: &'a mut [u8],
    at: usize,
}

// Whether a flag says that the code is the index of a name.
fn is_named(key: Key) -> bool {
    matches!(key, Key::Index(_))
}

impl<'a> Maker<'a> {
    // At the first octet of a table.
    pub(crate) fn at_header(table: &'a mut [u8]) -> Self {
        Maker { table, at: 0 }
    }

    // At the first entry of a part, where the header says that it starts.
    pub(crate) fn at_part(table: &'a mut [u8], part: Part) -> Self {
        let at = start(table, part) as usize;
        Maker { table, at }
    }

    fn put(&mut self, octets: &[u8]) {
        self.at = words(self.table, self.at, octets);
    }

    // The header of a table of an edition that has so many entries of each part.
    pub(crate) fn header<F: Fn(Part) -> u16>(&mut self, e: Edition, count_of: F)
        requires { F.IsAlwaysCallable count_of }
    {
        if e == Edition::Second {
            self.put(&[0xFF, 0xFF, 0x00, 0x02]);
        }
        let mut start = header_of(e);
        for part in Part::ALL {
            if has_part(e, part) {
                self.put(&count_of(part).to_be_bytes());
                // `%` cuts, since `as` cuts nothing.
                self.put(&((start % 0x1_0000) as u16).to_be_bytes());
                start = end(self.table, part);
            }
        }
    }

    // Where a code stands among the entries of a part that is written.
    fn index_of(&self, part: Part, code: Code) -> Result<u16, Reason> {
        (0..count(self.table, part))
            .find(|&i| listed_at(self.table, part, i) == code)
            .ok_or(Reason::NoLine { part, code })
    }

    // How a code is to stand in an entry: a name by the index of its line.
    fn key(&self, code: Code) -> Result<Key, Reason> {
        match code {
            Code::Local(bits) => Ok(Key::Bits(bits)),
            Code::Global(_) => {
                let index = self.index_of(Part::Names, code)?;
                Ok(Key::Index(u32::from(index)))
            }
        }
    }

    fn put_key(&mut self, key: Key) {
        match key {
            Key::Bits(number) | Key::Index(number) => self.put(&number.to_be_bytes()),
        }
    }

    fn operation(
        &mut self,
        code: Code,
        operation: Operation,
        is_idempotent: bool,
    ) -> Result<(), Reason> {
        let key = self.key(code)?;
        let flags = u8::from(operation.argument.optional)
            | u8::from(operation.result.optional) << 1
            | u8::from(is_named(key)) << 2
            | u8::from(is_idempotent) << 3;
        self.put_key(key);
        self.put(&[
            u8::from(operation.class),
            operation.argument.identifier,
            operation.result.identifier,
            flags,
        ]);
        Ok(())
    }

    fn error(&mut self, code: Code, parameter: Rule) -> Result<(), Reason> {
        let key = self.key(code)?;
        let flags = u8::from(parameter.optional) | u8::from(is_named(key)) << 1;
        self.put_key(key);
        self.put(&[parameter.identifier, flags]);
        Ok(())
    }

    fn pair(&mut self, part: Part, first: Code, second: Code) -> Result<(), Reason> {
        let operation = self.index_of(Part::Operations, first)?;
        let other = self.index_of(second_part(part), second)?;
        self.put(&operation.to_be_bytes());
        self.put(&other.to_be_bytes());
        Ok(())
    }

    fn name(&mut self, name: Name) {
        self.put(&[name.length]);
        self.put(&name.octets());
    }

    pub(crate) fn entry(&mut self, entry: Entry) -> Result<(), Reason> {
        match entry {
            Entry::Edition => Ok(()),
            Entry::Operation {
                code,
                operation,
                is_idempotent,
            } => self.operation(code, operation, is_idempotent),
            Entry::Error { code, parameter } => self.error(code, parameter),
            Entry::Pair {
                part,
                first,
                second,
            } => self.pair(part, first, second),
            Entry::Name(name) => {
                self.name(name);
                Ok(())
            }
        }
    }
}
