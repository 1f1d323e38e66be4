// The state of one end: the invocations that it made and those that it received, the ids that rest and the kept answers: docs/RULES.md, 'Records'.
#![tactic(auto)]

mod answers;
mod ids;
mod rest;
mod side;
mod sides;

use codes::Code;

// The id of an invocation that this end made: the two's complement bits of a signed 32-bit number.
#[derive(Clone, Copy, Debug, PartialEq, Eq)]
pub struct OwnId(pub u32);

// The id of an invocation that this end received, as bits too. Two types and no parameter for the side, so that no id is taken for one of the other side.
#[derive(Clone, Copy, Debug, PartialEq, Eq)]
pub struct PeerId(pub u32);

// A live invocation.
#[derive(Clone, Copy, Debug, PartialEq, Eq)]
pub struct Record {
    pub id: u32,
    pub code: Code,
}

// Three structs of an array and a count: there is no heap, a State is copied, and `view`, `view_ids` and `kept_places` are each of one of them.
// The live invocations of one side, oldest first. Places from `count` on are unused.
#[derive(Clone, Copy, Debug, PartialEq, Eq)]
pub struct Records {
    pub count: usize,
    pub places: [Record; State::RECORDS],
}

// The own ids that were forgotten last, oldest first. Places from `count` on are 0.
#[derive(Clone, Copy)]
pub struct Resting {
    pub count: usize,
    pub ids: [u32; State::RESTING],
}

// A kept answer's id, and how many octets it has.
#[derive(Clone, Copy, Debug, PartialEq, Eq)]
pub struct KeptPlace {
    pub id: u32,
    pub length: u32,
}

// The kept answers, oldest first. Their octets, 512 for each, stand in the store, which is lent beside the state. Places from `count` on are 0.
#[derive(Clone, Copy)]
pub struct Kept {
    pub count: usize,
    pub places: [KeptPlace; State::ANSWERS],
}

#[derive(Clone, Copy)]
pub struct State {
    pub own: Records,
    pub peer: Records,
    pub resting: Resting,
    pub kept: Kept,
}

// What a lookup found, beside the state as it was given.
#[derive(Clone, Copy)]
pub struct Looked {
    pub state: State,
    pub found: Option<Code>,
}
