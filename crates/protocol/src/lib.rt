// What the six calls answer: indications and refusals. The calls' definitions stand in specs/, and what holds of them are the contracts of the
// three functions at the end.
#![tactic(auto)]

ghost use Rattle.std.specs.Prelude.{◌≡◌};
ghost use Rattle.protocol.specs.Call.{refusal_number};
ghost use Rattle.protocol.specs.ShownWasGiven.{ShownWasGiven};
ghost use Rattle.protocol.specs.End.{OneEnd};
ghost use Rattle.protocol.specs.Marked.{MarkedHold};
ghost use Rattle.protocol.specs.Reading.{read_refusal, problem_numbers, refusal_problem};

pub use apdu::problem::Problem;
use apdu::problem::ProblemKind;
use apdu::{Body, Span};
use codes::Code;
use records::{OwnId, PeerId, State};

// The invocation to forget, on one side or the other.
#[derive(Clone, Copy)]
pub enum Invocation {
    Own(OwnId),
    Peer(PeerId),
}

// A received APDU that was accepted; a value is a place in the lent octets, and the number of a problem stays one, as Parsed hands it on.
#[derive(Clone, Copy)]
pub enum Indication {
    Invoke {
        id: PeerId,
        linked: Option<OwnId>,
        code: Code,
        argument: Option<Span>,
    },
    Result {
        id: OwnId,
        body: Option<Body>,
        operation: Code,
    },
    Error {
        id: OwnId,
        code: Code,
        parameter: Option<Span>,
        operation: Code,
    },
    // RO-REJECT-U of an invocation that this end made.
    InvokeRejected {
        id: OwnId,
        problem: u8,
    },
    // RO-REJECT-U of a result that this end gave.
    ResultRejected {
        id: PeerId,
        problem: u8,
    },
    // RO-REJECT-U of an error that this end gave.
    ErrorRejected {
        id: PeerId,
        problem: u8,
    },
    // RO-REJECT-P: the id has no side.
    GeneralReject {
        id: Option<u32>,
        problem: u8,
    },
}

// Why a call was refused, in the order of 'The table of refusals': 1 to 19, 21 and 22.
#[derive(Clone, Copy, Debug, PartialEq, Eq)]
pub enum Refusal {
    InvalidTable,
    ShortOutput,
    LongInput,
    UnknownOperation,
    IdInUse,
    SynchronousLive,
    UnknownLinkedId,
    NotAChild,
    MalformedValue,
    MistypedValue,
    NoRecord,
    WrongClass,
    UnlistedError,
    RecordsFull,
    LargeApdu,
    WrongProblem,
    UnacceptableReject,
    // The Reject with these fields stands at the front of the output; the number of its problem is as `write_reject` takes it.
    Rejected {
        id: Option<u32>,
        kind: ProblemKind,
        problem: u8,
    },
    UnsoundState,
    // One well-formed element, and then more octets.
    TrailingOctets,
    // The id was forgotten, and rests.
    IdResting,
}

impl Refusal {
    // Its number in 'The table of refusals', which programs show: 1 to 19, 21 or 22.
    #[tactic(auto, unfolding(crate::specs::Reading::read_refusal))]
    pub fn number(self) -> u8
        ensures { result ≡ refusal_number (read_refusal self) }
    {
        match self {
            Refusal::InvalidTable => 1,
            Refusal::ShortOutput => 2,
            Refusal::LongInput => 3,
            Refusal::UnknownOperation => 4,
            Refusal::IdInUse => 5,
            Refusal::SynchronousLive => 6,
            Refusal::UnknownLinkedId => 7,
            Refusal::NotAChild => 8,
            Refusal::MalformedValue => 9,
            Refusal::MistypedValue => 10,
            Refusal::NoRecord => 11,
            Refusal::WrongClass => 12,
            Refusal::UnlistedError => 13,
            Refusal::RecordsFull => 14,
            Refusal::LargeApdu => 15,
            Refusal::WrongProblem => 16,
            Refusal::UnacceptableReject => 17,
            Refusal::Rejected {
                id: _,
                kind: _,
                problem: _,
            } => 18,
            Refusal::UnsoundState => 19,
            Refusal::TrailingOctets => 21,
            Refusal::IdResting => 22,
        }
    }

    // The problem that the Reject of an 18 carries; another refusal has none.
    #[tactic(auto, unfolding(crate::specs::Reading::read_refusal))]
    pub fn problem(self) -> Option<Problem>
        ensures { problem_numbers result ≡ refusal_problem (read_refusal self) }
    {
        match self {
            Refusal::Rejected {
                id: _,
                kind,
                problem,
            } => Some(Problem {
                kind,
                number: problem,
            }),
            _ => None,
        }
    }
}

// What receive answers: the state then, where the received octets are at fault (for a general problem 2 or a 17, else 0, as `place_named` has it), the indication or
// refusal, and how many octets of the output were written. A probe or an acknowledge is accepted without an indication: nobody is told of it, and
// what it is answered stands at the front of the output.
#[derive(Clone, Copy)]
pub struct Received {
    pub state: State,
    pub place: usize,
    pub reception: Result<Option<Indication>, Refusal>,
    pub written: usize,
}

// What a request or forget answers: the state then, where the value is at fault (for a 9 or a 21, else 0, as `place_named` has it), and how many octets of the output
// were written. Received and Requested stay two: a generic answer would be no shorter, and would name reception and outcome alike.
#[derive(Clone, Copy)]
pub struct Requested {
    pub state: State,
    pub place: usize,
    pub outcome: Result<(), Refusal>,
    pub written: usize,
}

// Of two valid tables, one of which extends the other, and of fair calls, as `ShownWasGiven` asks them: what the kiosk shows is what the controller gave,
// and is shown once, whatever the channel loses, repeats or reorders.
pub fn shown_was_given()
    ensures { ShownWasGiven }
{}

// The marked examples are answered as they are marked.
pub fn marked_examples()
    ensures { MarkedHold }
{}

// With one valid table each call of an end, from a fresh state on, is made on a sound state that the table covers: never a refusal 19 or 1.
#[tactic(auto, using(crate::proofs::Fitting::one_end))]
pub fn one_end_stays_sound()
    ensures { OneEnd }
{}
