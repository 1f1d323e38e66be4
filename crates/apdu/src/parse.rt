// What a received APDU says: 'The four APDUs', and step 1 of 'Receiving'.
ghost use Rattle.std.specs.Prelude.{◌≡◌, List, ℕ, ◌-◌, unwrap_or, Some};
ghost use Rattle.base.specs.Octets.{part};
ghost use Rattle.records.specs.Limits.{levels};
ghost use Rattle.ber.specs.Element.{inside_of, makes_element, finding_in};
ghost use Rattle.apdu.specs.declared.Parsed.TheVariants.{Mistyped};
ghost use Rattle.apdu.specs.Field.{fields};
ghost use Rattle.apdu.specs.Parse.{body_value, mistyped, result_with, result_behind, error_behind, behind_id, with_id, by_kind, parse};
ghost use Rattle.apdu.specs.Reading.{read_value, read_body, read_parsed};
ghost use Rattle.apdu.specs.Steps.{read_part, field_at, guarded, read_coded, coded_in, invoke_in, id_in, Reading, judge, settle};

use crate::field::{Coded, Linked, code_and_value, linked_id, number_under};
use crate::part::Part;
use crate::reject::reject;
use crate::{Body, Parsed, Span};
use ber::element::{Finding, finding_in, frame_of};
use records::{OwnId, PeerId, State};

// A1, behind the id.
#[tactic(auto, unfolding(crate::specs::Reading::read_parsed, crate::specs::Steps::behind_linked, crate::specs::Steps::read_coded, crate::specs::Parse::invoke_with))]
fn invoke(part: &Part, id: PeerId) -> Option<Parsed>
    ensures { read_parsed part.now.apdu.now (unwrap_or result (Mistyped (Some id.0))) ≡ invoke_in id.0 (read_part part.now) }
{
    let Linked { linked, next } = linked_id(part)?;
    let behind = Part { at: next, ..*part };
    let Coded { code, value } = code_and_value(&behind, State::LEVELS - 1)?;
    Some(Parsed::Invoke {
        id,
        linked,
        code,
        value,
    })
}

// What 30 holds: a code and exactly one value.
#[tactic(auto, unfolding(crate::specs::Reading::read_parsed, crate::specs::Steps::read_coded, crate::specs::Parse::result_with, crate::specs::Reading::read_value, crate::specs::Reading::read_body))]
fn result_with(id: OwnId, c: Option<Coded>) -> Option<Parsed>
    ensures { (s : List ℕ) → read_parsed s (unwrap_or result (Mistyped (Some id.0))) ≡ result_with id.0 (read_coded s c) }
{
    let Coded { code, value } = c?;
    let value = value?;
    Some(Parsed::Result {
        id,
        body: Some(Body { code, value }),
    })
}

// A2, behind the id: nothing, or 30 alone.
#[tactic(auto, using(crate::proofs::ParseAnswers::result_none, crate::proofs::ParseAnswers::result_frameless, crate::proofs::ParseAnswers::result_other, crate::proofs::ParseAnswers::result_body), unfolding(crate::specs::Reading::read_parsed, crate::specs::Reading::read_body))]
fn result(part: &Part, id: OwnId) -> Option<Parsed>
    ensures { read_parsed part.now.apdu.now (unwrap_or result (Mistyped (Some id.0))) ≡ guarded (levels - 1) (mistyped (Some id.0)) (result_behind id.0) (read_part part.now) }
{
    if part.octets().is_empty() {
        return Some(Parsed::Result { id, body: None });
    }
    let frame = part.frame()?;
    if frame.id != 0x30 {
        return None;
    }
    let body = Part {
        apdu: part.apdu,
        at: frame.start,
        end: frame.stop,
    };
    result_with(id, code_and_value(&body, State::LEVELS - 2))
}

// A3, behind the id.
#[tactic(auto, unfolding(crate::specs::Reading::read_parsed, crate::specs::Steps::read_coded, crate::specs::Parse::error_behind))]
fn error(part: &Part, id: OwnId) -> Option<Parsed>
    ensures { read_parsed part.now.apdu.now (unwrap_or result (Mistyped (Some id.0))) ≡ error_behind id.0 (coded_in (levels - 1) (read_part part.now)) }
{
    let Coded { code, value } = code_and_value(part, State::LEVELS - 1)?;
    Some(Parsed::Error { id, code, value })
}

// A1 to A3, behind what should be their id: where fields are wrong, it goes with the answer.
#[tactic(auto, using(crate::proofs::ParseAnswers::behind_invoke, crate::proofs::ParseAnswers::behind_result, crate::proofs::ParseAnswers::behind_error, crate::proofs::ParseAnswers::behind_no_id), unfolding(crate::specs::Reading::read_parsed))]
fn behind_id(part: &Part, first: u8, n: Option<u32>) -> Parsed
    ensures { read_parsed part.now.apdu.now result ≡ guarded (levels - 1) (mistyped n) (behind_id first n) (read_part part.now) }
{
    let Some(id) = n else {
        return Parsed::Mistyped(n);
    };
    match first {
        0xA1 => invoke(part, PeerId(id)).unwrap_or(Parsed::Mistyped(n)),
        0xA2 => result(part, OwnId(id)).unwrap_or(Parsed::Mistyped(n)),
        _ => error(part, OwnId(id)).unwrap_or(Parsed::Mistyped(n)),
    }
}

#[tactic(auto, using(crate::proofs::ParseAnswers::id_other, crate::proofs::ParseAnswers::id_first), unfolding(crate::specs::Reading::read_parsed))]
fn with_id(part: &Part, first: u8) -> Parsed
    ensures { read_parsed part.now.apdu.now result ≡ guarded (levels - 1) (mistyped (id_in part.now.apdu.now (field_at part.now.apdu.now part.now.at part.now.end))) (with_id first) (read_part part.now) }
{
    let Some(field) = part.field() else {
        return Parsed::Mistyped(None);
    };
    let number = number_under(0x02, field.id, part.contents(field));
    let behind = Part {
        at: field.stop,
        ..*part
    };
    behind_id(&behind, first, number)
}

#[tactic(auto, using(crate::proofs::KindAnswers::kind_low, crate::proofs::KindAnswers::kind_high, crate::proofs::KindAnswers::kind_with, crate::proofs::KindAnswers::kind_reject), unfolding(crate::specs::Reading::read_parsed))]
fn by_kind(contents: &Part, first: u8) -> Parsed
    ensures { Reading contents.now.apdu.now (makes_element (inside_of (levels - 1)) first (part contents.now.apdu.now contents.now.at contents.now.end)) result (by_kind first (fields (levels - 1) (read_part contents.now))) }
{
    match first {
        0xA1..=0xA3 => with_id(contents, first),
        0xA4 => reject(contents).unwrap_or(Parsed::Mistyped(None)),
        _ => Parsed::Unrecognized,
    }
}

// What was read, if the octets are well formed; else where they are at fault.
#[tactic(auto, using(crate::proofs::KindAnswers::judged_by), unfolding(crate::specs::Steps::judge, crate::specs::Reading::read_parsed))]
fn judged(apdu: &[u8], r: Parsed) -> Parsed
    ensures { read_parsed apdu.now result ≡ judge (finding_in levels apdu.now) (read_parsed apdu.now r) }
{
    match finding_in(apdu, State::LEVELS) {
        Finding::One => r,
        Finding::More { at } => Parsed::BadlyStructured { at },
        Finding::Fault { at } => Parsed::BadlyStructured { at },
    }
}

// What was read, of octets that may not be well formed where fields are wrong: only then are they walked once more.
#[tactic(auto, using(crate::proofs::KindAnswers::settled_mistyped, crate::proofs::KindAnswers::settled_unrecognized, crate::proofs::KindAnswers::settled_other))]
fn settled(apdu: &[u8], r: Parsed) -> Parsed
    ensures { read_parsed apdu.now result ≡ settle (finding_in levels apdu.now) (read_parsed apdu.now r) }
{
    match r {
        Parsed::Mistyped(_) | Parsed::Unrecognized => judged(apdu, r),
        _ => r,
    }
}

// What the lent octets say, with places in them. The fields are checked as they are read, so that right octets are looked at once.
#[tactic(auto, using(crate::proofs::KindAnswers::parse_frameless, crate::proofs::KindAnswers::parse_framed), unfolding(crate::specs::Reading::read_parsed))]
pub fn parse(apdu: &[u8]) -> Parsed
    ensures { read_parsed apdu.now result ≡ parse apdu.now }
{
    match frame_of(apdu) {
        None => judged(apdu, Parsed::Unrecognized),
        Some(frame) => {
            let contents = Part {
                apdu,
                at: frame.start,
                end: frame.stop,
            };
            settled(apdu, by_kind(&contents, frame.id))
        },
    }
}

// The value beside a result's code, if there is one.
#[tactic(auto, unfolding(crate::specs::Reading::read_value, crate::specs::Reading::read_body))]
pub fn body_value(body: Option<Body>) -> Option<Span>
    ensures { (x : List ℕ) → read_value x result ≡ body_value (read_body x body) }
{
    body.map(|body| body.value)
}
