// The kinds of problems that a Reject carries, each under an identifier of its own: 'The four APDUs'.
ghost use Rattle.std.specs.Prelude.{◌≡◌, ◌≤◌, ◌<◌, true, false, MatchOption, MatchResult, slice_index};
ghost use Rattle.apdu.specs.Parse.{most_problem, is_problem};
ghost use Rattle.apdu.specs.Problem.{kind_octet};

// What is rejected: whatever was received, an invocation, a result or an error.
#[derive(Clone, Copy, Debug, PartialEq, Eq)]
pub enum ProblemKind {
    General,
    Invoke,
    Result,
    Error,
}

// A problem of a Reject: its kind, and its number within the kind, which stays a number: `is_problem` bounds it by the kind.
#[derive(Clone, Copy, Debug, PartialEq, Eq)]
pub struct Problem {
    pub kind: ProblemKind,
    pub number: u8,
}

// An identifier of no problem.
#[derive(Clone, Copy, Debug, PartialEq, Eq)]
pub struct NoProblem;

impl From<ProblemKind> for u8 {
    ghost from_gives = { λ kind octet. octet ≡ kind_octet kind };

    fn from(kind: ProblemKind) -> u8 {
        match kind {
            ProblemKind::General => 0x80,
            ProblemKind::Invoke => 0x81,
            ProblemKind::Result => 0x82,
            ProblemKind::Error => 0x83,
        }
    }
}

impl TryFrom<u8> for ProblemKind {
    type Error = NoProblem;

    ghost try_from_gives = { λ octet result. MatchResult result (λ kind. kind_octet kind ≡ octet) (λ _. 0x80 ≤ octet → 0x83 < octet) };

    fn try_from(octet: u8) -> Result<ProblemKind, NoProblem> {
        match octet {
            0x80 => Ok(ProblemKind::General),
            0x81 => Ok(ProblemKind::Invoke),
            0x82 => Ok(ProblemKind::Result),
            0x83 => Ok(ProblemKind::Error),
            _ => Err(NoProblem),
        }
    }
}

impl ProblemKind {
    // The highest number of a problem of the kind.
    #[tactic(auto, unfolding(crate::specs::Parse::most_problem))]
    pub fn most(self) -> u8
        ensures { result ≡ most_problem (kind_octet self) }
    {
        match self {
            ProblemKind::General | ProblemKind::Result => 2,
            ProblemKind::Invoke => 7,
            ProblemKind::Error => 4,
        }
    }
}

// The problem that contents of one octet say under an identifier.
#[tactic(auto, using(crate::proofs::ProblemLaws::no_kind, crate::proofs::ProblemLaws::many_octets))]
pub(crate) fn problem_under(identifier: u8, c: &[u8]) -> Option<Problem>
    ensures { MatchOption result (is_problem identifier c.now ≡ false) (λ p. (is_problem identifier c.now ≡ true) × (kind_octet p.kind ≡ identifier) × (p.number ≡ slice_index c.now 0)) }
{
    let Ok(kind) = ProblemKind::try_from(identifier) else {
        return None;
    };
    if c.len() != 1 {
        return None;
    }
    let number = c[0];
    if number > kind.most() {
        return None;
    }
    Some(Problem { kind, number })
}
