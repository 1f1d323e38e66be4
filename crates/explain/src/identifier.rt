// An identifier: its octets, and in words, the universal types by name, every other by its class and number.
use std::fmt;
use text::hex::SpacedOctets;

// The universal types by their numbers; those from 31 on take several octets.
const NAMES: [&str; 31] = [
    "",
    "BOOLEAN",
    "INTEGER",
    "BIT STRING",
    "OCTET STRING",
    "NULL",
    "OBJECT IDENTIFIER",
    "ObjectDescriptor",
    "EXTERNAL",
    "REAL",
    "ENUMERATED",
    "EMBEDDED PDV",
    "UTF8String",
    "RELATIVE-OID",
    "",
    "",
    "SEQUENCE",
    "SET",
    "NumericString",
    "PrintableString",
    "TeletexString",
    "VideotexString",
    "IA5String",
    "UTCTime",
    "GeneralizedTime",
    "GraphicString",
    "VisibleString",
    "GeneralString",
    "UniversalString",
    "",
    "BMPString",
];

#[derive(Clone, Copy)]
pub(crate) struct Identifier<'a> {
    first: u8,
    behind: &'a [u8],
}

impl<'a> Identifier<'a> {
    // The identifier at the front of an element.
    pub(crate) fn of(element: &'a [u8]) -> Self {
        let Some((&first, behind)) = element.split_first() else {
            return Identifier {
                first: 0,
                behind: &[],
            };
        };
        if first % 32 != 31 {
            return Identifier { first, behind: &[] };
        }
        let last = behind.iter().position(|&octet| octet < 0x80);
        let behind = last.map_or(behind, |last| &behind[..=last]);
        Identifier { first, behind }
    }

    // Whether it stands before a number, as an INTEGER's and an ENUMERATED's do.
    pub(crate) fn is_number(&self) -> bool {
        matches!(self.first, 0x02 | 0x0A)
    }

    // Whether it is that of a SEQUENCE or a SET.
    pub(crate) fn is_sequence_or_set(&self) -> bool {
        matches!(self.first, 0x30 | 0x31)
    }

    pub(crate) fn is_constructed(&self) -> bool {
        self.first / 32 % 2 == 1
    }

    // Its number, of one above 32 bits the last 32.
    fn number(&self) -> u32 {
        if self.behind.is_empty() {
            return u32::from(self.first % 32);
        }
        self.behind.iter().fold(0, |number, &octet| {
            number % 0x200_0000 * 0x80 + u32::from(octet % 0x80)
        })
    }
}

impl fmt::Display for Identifier<'_> {
    fn fmt<W: fmt::Write>(&self, f: &mut fmt::Formatter<W>) -> fmt::Result {
        let number = self.number();
        write!(f, " {:02x}{} ", self.first, SpacedOctets(self.behind))?;
        match self.first / 64 {
            0 => match NAMES.get(usize::from(self.first % 32)) {
                Some(name) if !name.is_empty() => write!(f, "{name}"),
                _ => write!(f, "[UNIVERSAL {number}]"),
            },
            1 => write!(f, "[APPLICATION {number}]"),
            2 => write!(f, "[{number}]"),
            _ => write!(f, "[PRIVATE {number}]"),
        }
    }
}
