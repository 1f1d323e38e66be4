// Codes of operations and errors, local ones and names; how a code stands in an entry of a table, their order, and the search for one by halving
// (docs/RULES.md, 'Operation table').
#![tactic(auto)]

mod names;
pub mod search;

ghost use Rattle.std.specs.Prelude.{◌≡◌, ◌+◌, ◌*◌, ◌<◌, ◌≤◌};
ghost use Rattle.codes.specs.Code.{code_right, same_code};
ghost use Rattle.codes.specs.Order.{rank, key_rank, below, same_key};
ghost use Rattle.codes.specs.Search.{size_of, flags_of, named_by, key_by};

// The contents of an OBJECT IDENTIFIER, 1 to 16 octets, with zeros behind: an array and a length, since there is no heap and a name is copied.
#[derive(Clone, Copy, Debug, PartialEq, Eq)]
pub struct Name {
    pub length: u8,
    pub octets: [u8; 16],
}

// What is wrong with a name first.
#[derive(Clone, Copy, Debug, PartialEq, Eq)]
pub enum NameFault {
    // It has not 1 to 16 octets.
    Length,
    // They are no contents of an OBJECT IDENTIFIER.
    Contents,
    // An octet behind them is not 0.
    Padding,
}

// The code of an operation or of an error: the two's complement bits of a signed 32-bit number, or a name.
#[derive(Clone, Copy, Debug, PartialEq, Eq)]
pub enum Code {
    Local(u32),
    Global(Name),
}

// How a code stands in an entry: the bits of a local code, or the index of a name.
#[derive(Clone, Copy, Debug, PartialEq, Eq)]
pub enum Key {
    Bits(u32),
    Index(u32),
}

// The two kinds of entries that have a code.
#[derive(Clone, Copy, Debug, PartialEq, Eq)]
pub enum Kind {
    Operation,
    Error,
}

// Where a code stands in its list, if it does.
pub type Place = Option<u16>;

impl Code {
    #[tactic(auto, unfolding(crate::specs::Code::code_right))]
    pub fn is_right(self) -> bool
        ensures { result ≡ code_right self }
    {
        match self {
            Code::Local(_) => true,
            Code::Global(name) => name.is_right(),
        }
    }

    #[tactic(auto, unfolding(crate::specs::Code::same_code, crate::specs::Code::same_name))]
    pub fn same(self, other: Code) -> bool
        ensures { result ≡ same_code self other }
    {
        self == other
    }
}

// How many signed numbers stand below the one with these two's complement bits. By ranks and no Ord: `below` and `key_rank` have numbers in their signed order, and
// indexes behind them.
fn rank(bits: u32) -> u32
    ensures { result ≡ rank bits }
{
    bits.wrapping_add(0x8000_0000)
}

impl Key {
    pub fn rank(self) -> u64
        ensures { result ≡ key_rank self }
    {
        match self {
            Key::Bits(bits) => rank(bits) as u64,
            Key::Index(index) => 0x1_0000_0000 + (index as u64),
        }
    }

    pub fn is_below(self, other: Key) -> bool
        ensures { result ≡ below self other }
    {
        self.rank() < other.rank()
    }

    // `==` with the promise that the walk in `find` goes by: with `==` itself there its proof did not close.
    #[tactic(auto, unfolding(crate::specs::Order::same_key))]
    pub(crate) fn same(self, other: Key) -> bool
        ensures { result ≡ same_key self other }
    {
        self == other
    }
}

impl Kind {
    // Where entry `i` starts, of entries that start there.
    pub(crate) fn entry_start(self, start: u16, i: u16) -> usize
        ensures value { result ≡ start + i * size_of self }
        ensures near { result < 1048560 }
    {
        match self {
            Kind::Operation => (start as usize) + (i as usize) * 8,
            Kind::Error => (start as usize) + (i as usize) * 6,
        }
    }

    // Where an entry's flags stand in it.
    pub fn flags(self) -> usize
        ensures value { result ≡ flags_of self }
        ensures most { result ≤ 7 }
    {
        match self {
            Kind::Operation => 7,
            Kind::Error => 5,
        }
    }

    // Whether the flags say that the code is the index of a name.
    pub fn is_named(self, flags: u8) -> bool
        ensures { result ≡ named_by self flags }
    {
        match self {
            Kind::Operation => flags / 4 % 2 == 1,
            Kind::Error => flags / 2 % 2 == 1,
        }
    }

    // How the code stands in an entry with these flags and this number in front.
    pub fn key(self, flags: u8, number: u32) -> Key
        ensures { result ≡ key_by self flags number }
    {
        if self.is_named(flags) {
            Key::Index(number)
        } else {
            Key::Bits(number)
        }
    }
}
