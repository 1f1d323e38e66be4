// The problems that a received APDU is rejected with (docs/RULES.md, 'Receiving').
ghost use Rattle.std.specs.Prelude.{◌≡◌, Some};
ghost use Rattle.protocol.specs.declared.Refusal.TheVariants.{Rejected};
ghost use Rattle.rose.specs.Problem.{problem_kind, problem_number};

use apdu::problem::ProblemKind;
use protocol::Refusal;

#[derive(Clone, Copy)]
pub(crate) enum Problem {
    // Of an Invoke.
    DuplicateInvocation,
    UnrecognizedOperation,
    MistypedArgument,
    ResourceLimitation,
    UnrecognizedLinkedId,
    LinkedResponseUnexpected,
    UnexpectedLinkedOperation,
    // Of a Result.
    ResultUnrecognizedInvocation,
    ResultResponseUnexpected,
    MistypedResult,
    // Of an Error.
    ErrorUnrecognizedInvocation,
    ErrorResponseUnexpected,
    UnrecognizedError,
    UnexpectedError,
    MistypedParameter,
}

impl Problem {
    fn kind(self) -> ProblemKind
        ensures { result ≡ problem_kind self }
    {
        match self {
            Problem::DuplicateInvocation => ProblemKind::Invoke,
            Problem::UnrecognizedOperation => ProblemKind::Invoke,
            Problem::MistypedArgument => ProblemKind::Invoke,
            Problem::ResourceLimitation => ProblemKind::Invoke,
            Problem::UnrecognizedLinkedId => ProblemKind::Invoke,
            Problem::LinkedResponseUnexpected => ProblemKind::Invoke,
            Problem::UnexpectedLinkedOperation => ProblemKind::Invoke,
            Problem::ResultUnrecognizedInvocation => ProblemKind::Result,
            Problem::ResultResponseUnexpected => ProblemKind::Result,
            Problem::MistypedResult => ProblemKind::Result,
            Problem::ErrorUnrecognizedInvocation => ProblemKind::Error,
            Problem::ErrorResponseUnexpected => ProblemKind::Error,
            Problem::UnrecognizedError => ProblemKind::Error,
            Problem::UnexpectedError => ProblemKind::Error,
            Problem::MistypedParameter => ProblemKind::Error,
        }
    }

    // Its number within the kind, as a Reject carries it.
    fn number(self) -> u8
        ensures { result ≡ problem_number self }
    {
        match self {
            Problem::DuplicateInvocation => 0,
            Problem::UnrecognizedOperation => 1,
            Problem::MistypedArgument => 2,
            Problem::ResourceLimitation => 3,
            Problem::UnrecognizedLinkedId => 5,
            Problem::LinkedResponseUnexpected => 6,
            Problem::UnexpectedLinkedOperation => 7,
            Problem::ResultUnrecognizedInvocation => 0,
            Problem::ResultResponseUnexpected => 1,
            Problem::MistypedResult => 2,
            Problem::ErrorUnrecognizedInvocation => 0,
            Problem::ErrorResponseUnexpected => 1,
            Problem::UnrecognizedError => 2,
            Problem::UnexpectedError => 3,
            Problem::MistypedParameter => 4,
        }
    }

    // The refusal of an APDU with the id.
    pub(crate) fn of(self, id: u32) -> Refusal
        ensures { result ≡ Rejected (Some id) (problem_kind self) (problem_number self) }
    {
        Refusal::Rejected {
            id: Some(id),
            kind: self.kind(),
            problem: self.number(),
        }
    }
}
