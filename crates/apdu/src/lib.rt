// The four APDUs: what a received one says, and the octets of one to send.
#![tactic(auto)]

ghost use Rattle.std.specs.Prelude.{◌≡◌};
ghost use Rattle.base.specs.Octets.{part};

pub mod encode;
mod field;
pub mod inside;
pub mod parse;
mod part;
pub mod problem;
mod reject;
mod size;
mod store;

use base::octets::between;
use codes::Code;
use records::{OwnId, PeerId};

// The octets from `at` up to `end` of the lent APDU.
#[derive(Clone, Copy, Debug, PartialEq, Eq)]
pub struct Span {
    pub at: usize,
    pub end: usize,
}

impl Span {
    // These octets of the APDU that was lent, as far as there are any.
    pub fn of(self, apdu: &[u8]) -> &[u8]
        ensures { result.now ≡ part apdu.now self.at self.end }
    {
        between(apdu, self.at, self.end)
    }
}

// What a result holds behind its id: a code, none for one that equals no table code, and its value, the whole element.
#[derive(Clone, Copy, Debug, PartialEq, Eq)]
pub struct Body {
    pub code: Option<Code>,
    pub value: Span,
}

// One enum with what is wrong: `parse` answers it, and `receive_apdu` goes by its cases.
// What a received APDU says, with places in the lent octets and each id by its side. A code is none where it equals no table code: an 02 over
// four octets, or a 06 over 16.
#[derive(Clone, Copy)]
pub enum Parsed {
    // Not well formed, with the first fault there.
    BadlyStructured {
        at: usize,
    },
    Unrecognized,
    Mistyped(Option<u32>),
    Invoke {
        id: PeerId,
        linked: Option<OwnId>,
        code: Option<Code>,
        value: Option<Span>,
    },
    Result {
        id: OwnId,
        body: Option<Body>,
    },
    Error {
        id: OwnId,
        code: Option<Code>,
        value: Option<Span>,
    },
    // The number of a problem is handed on as it came, within the bounds of its kind: nothing here goes by it, so it stays a number.
    // 81: of an invocation that this end made.
    InvokeReject {
        id: OwnId,
        problem: u8,
    },
    // 82: of a result that this end gave.
    ResultReject {
        id: PeerId,
        problem: u8,
    },
    // 83: of an error that this end gave.
    ErrorReject {
        id: PeerId,
        problem: u8,
    },
    // 80: the id has no side, and 05 00 may stand in its place.
    GeneralReject {
        id: Option<u32>,
        problem: u8,
    },
}
