// A received Reject: 'The four APDUs'.
ghost use Rattle.std.specs.Prelude.{◌≡◌, List, ℕ, ◌-◌, unwrap_or, None};
ghost use Rattle.records.specs.Limits.{levels};
ghost use Rattle.apdu.specs.declared.Parsed.TheVariants.{Mistyped};
ghost use Rattle.apdu.specs.Parse.{mistyped, reject_with, reject_behind, reject_of};
ghost use Rattle.apdu.specs.Reading.{read_parsed};
ghost use Rattle.apdu.specs.Steps.{read_part, guarded};

use crate::Parsed;
use crate::field::{is_right_field, number_under};
use crate::part::Part;
use crate::problem::{Problem, ProblemKind, problem_under};
use records::{OwnId, PeerId, State};

// A4: an id, or what stands in its place under its identifier, and a problem: 05 00 stands for no id, in a general problem alone.
// `kind` is the octet that came, which may be no kind.
#[tactic(auto, using(crate::proofs::RejectAnswers::reject_is, crate::proofs::RejectAnswers::reject_problem, crate::proofs::RejectAnswers::reject_id), unfolding(crate::specs::Reading::read_parsed, crate::specs::Parse::id_allowed))]
fn reject_with(n: Option<u32>, identifier: u8, kind: u8, c: &[u8]) -> Option<Parsed>
    ensures { (s : List ℕ) → read_parsed s (unwrap_or result (Mistyped None)) ≡ reject_with n identifier kind c.now }
{
    let Problem {
        kind: of,
        number: problem,
    } = problem_under(kind, c)?;
    match of {
        ProblemKind::General => {
            if n.is_none() && identifier != 0x05 {
                return None;
            }
            Some(Parsed::GeneralReject { id: n, problem })
        }
        ProblemKind::Invoke => Some(Parsed::InvokeReject {
            id: OwnId(n?),
            problem,
        }),
        ProblemKind::Result => Some(Parsed::ResultReject {
            id: PeerId(n?),
            problem,
        }),
        ProblemKind::Error => Some(Parsed::ErrorReject {
            id: PeerId(n?),
            problem,
        }),
    }
}

// A4, behind the id or what stands in its place: one problem fills what is left.
#[tactic(auto, using(crate::proofs::RejectAnswers::behind_other, crate::proofs::RejectAnswers::behind_more, crate::proofs::RejectAnswers::behind_one), unfolding(crate::specs::Reading::read_parsed))]
fn reject_behind(part: &Part, n: Option<u32>, identifier: u8) -> Option<Parsed>
    ensures { read_parsed part.now.apdu.now (unwrap_or result (Mistyped None)) ≡ guarded (levels - 1) (mistyped None) (reject_behind n identifier) (read_part part.now) }
{
    let field = part.field()?;
    let behind = Part {
        at: field.stop,
        ..*part
    };
    if behind.octets().len() != 0 {
        return None;
    }
    reject_with(n, identifier, field.id, part.contents(field))
}

// A4; fields that are wrong have no id.
#[tactic(auto, using(crate::proofs::RejectAnswers::reject_other, crate::proofs::RejectAnswers::reject_wrong, crate::proofs::RejectAnswers::reject_first), unfolding(crate::specs::Reading::read_parsed))]
pub(crate) fn reject(part: &Part) -> Option<Parsed>
    ensures { read_parsed part.now.apdu.now (unwrap_or result (Mistyped None)) ≡ guarded (levels - 1) (mistyped None) reject_of (read_part part.now) }
{
    let field = part.field()?;
    let number = number_under(0x02, field.id, part.contents(field));
    if !is_right_field(number, part.whole(field), State::LEVELS - 1) {
        return None;
    }
    let behind = Part {
        at: field.stop,
        ..*part
    };
    reject_behind(&behind, number, field.id)
}
