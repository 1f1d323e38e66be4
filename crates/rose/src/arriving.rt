// The problems of a received Invoke, Result and Error, in their order (docs/RULES.md, 'Receiving').
ghost use Rattle.std.specs.Prelude.{◌≡◌, List, ℕ, IfOk, MatchOption, Some, None};
ghost use Rattle.optable.specs.Class.{class_number};
ghost use Rattle.optable.specs.Value.{value_right};
ghost use Rattle.apdu.specs.Field.{octets_of};
ghost use Rattle.apdu.specs.Reading.{read_own_link, read_value, read_body};
ghost use Rattle.protocol.specs.Check.{own_records, code_in};
ghost use Rattle.protocol.specs.Receive.{other_code, invoke_checks, result_checks, error_checks};
ghost use Rattle.rose.specs.Arriving.{Arrives};
ghost use Rattle.rose.specs.Usable.{held, table};
ghost use Rattle.rose.specs.Steps.{Checked};

use crate::check::refuse_if;
use crate::class::{is_either, makes_record};
use crate::linking::{is_childless, is_no_child, is_paired, own_parent};
use crate::problem::Problem;
use crate::reply::is_inside_right;
use crate::usable::Usable;
use apdu::parse::body_value;
use apdu::{Body, Span};
use codes::Code;
use optable::{Class, Rule, service_of, value_right};
use protocol::Refusal;
use records::{OwnId, PeerId};

// What a received Invoke asks for.
#[derive(Clone, Copy)]
pub(crate) struct Arriving {
    pub code: Code,
    pub class: Class,
}

// A code of a form that the table's may have.
fn code_of(field: Option<Code>) -> Option<Code>
    ensures { MatchOption result (field ≡ None) (λ c. field ≡ Some c) }
{
    match field {
        Some(code) => Some(code),
        None => None,
    }
}

#[tactic(auto, using(crate::proofs::ArrivingLaws::right_absent, crate::proofs::ArrivingLaws::right_empty, crate::proofs::ArrivingLaws::right_octets))]
fn is_right(rule: Rule, x: &[u8], value: Option<Span>) -> bool
    ensures { result ≡ value_right rule (octets_of (read_value x.now value)) }
{
    match value {
        None => value_right(rule, &[]),
        Some(span) => {
            let v = span.of(x);
            if v.is_empty() {
                return false;
            }
            value_right(rule, v)
        }
    }
}

#[tactic(auto, unfolding(protocol::specs::Receive::invoke_checks, protocol::specs::Reading::read_refusal, optable::specs::Lookup::operation_of))]
pub(crate) fn check_invoke(
    usable: &Usable,
    x: &[u8],
    id: PeerId,
    linked: Option<OwnId>,
    field: Option<Code>,
    value: Option<Span>,
) -> Result<Arriving, Refusal>
    ensures checked { Checked (invoke_checks (table usable.now) (held usable.now) id.0 (read_own_link linked) field (read_value x.now value)) result }
    ensures arriving { IfOk result (Arrives (table usable.now) field) }
{
    let table = usable.table;
    refuse_if(
        usable.state.has_peer(id),
        Problem::DuplicateInvocation.of(id.0),
    )?;
    let parent = own_parent(usable, linked, Problem::UnrecognizedLinkedId.of(id.0))?;
    refuse_if(
        is_childless(&table, parent),
        Problem::LinkedResponseUnexpected.of(id.0),
    )?;
    let code = code_of(field).ok_or(Problem::UnrecognizedOperation.of(id.0))?;
    let place = table.operation_place(code);
    let operation = table
        .operation_at(place)
        .ok_or(Problem::UnrecognizedOperation.of(id.0))?;
    let service = service_of(code);
    refuse_if(
        !is_right(operation.argument, x, value) || !is_inside_right(service, x, value),
        Problem::MistypedArgument.of(id.0),
    )?;
    refuse_if(
        is_no_child(&table, parent, place),
        Problem::UnexpectedLinkedOperation.of(id.0),
    )?;
    refuse_if(
        !service.answers_itself() && makes_record(operation.class) && usable.state.peer.is_full(),
        Problem::ResourceLimitation.of(id.0),
    )?;
    Ok(Arriving {
        code,
        class: operation.class,
    })
}

// Whether a code is present and is not the record's.
#[tactic(auto, unfolding(apdu::specs::Reading::read_body))]
fn is_other(body: Option<Body>, code: Code) -> bool
    ensures { (x : List ℕ) → result ≡ other_code (read_body x body) code }
{
    match body {
        None => false,
        Some(
            Body {
                code: field,
                value: _,
            },
        ) => match field {
            Some(given) => !given.same(code),
            None => true,
        },
    }
}

// The operation of the invocation.
#[tactic(auto, unfolding(protocol::specs::Receive::result_checks, protocol::specs::Reading::read_refusal))]
pub(crate) fn check_result(
    usable: &Usable,
    x: &[u8],
    id: OwnId,
    body: Option<Body>,
) -> Result<Code, Refusal>
    ensures checked { Checked (result_checks (table usable.now) (held usable.now) id.0 (read_body x.now body)) result }
    ensures code { IfOk result (λ c. c ≡ code_in (own_records (held usable.now)) id.0) }
{
    let live = usable
        .own(id)
        .ok_or(Problem::ResultUnrecognizedInvocation.of(id.0))?;
    refuse_if(
        is_either(live.operation.class, Class::ErrorOnly, Class::Unanswered),
        Problem::ResultResponseUnexpected.of(id.0),
    )?;
    refuse_if(
        is_other(body, live.code),
        Problem::ResultUnrecognizedInvocation.of(id.0),
    )?;
    refuse_if(
        !is_right(live.operation.result, x, body_value(body)),
        Problem::MistypedResult.of(id.0),
    )?;
    Ok(live.code)
}

// The same.
#[tactic(auto, unfolding(protocol::specs::Receive::error_checks, protocol::specs::Reading::read_refusal, optable::specs::Lookup::error_of))]
pub(crate) fn check_error(
    usable: &Usable,
    x: &[u8],
    id: OwnId,
    field: Option<Code>,
    value: Option<Span>,
) -> Result<Code, Refusal>
    ensures checked { Checked (error_checks (table usable.now) (held usable.now) id.0 field (read_value x.now value)) result }
    ensures code { IfOk result (λ c. c ≡ code_in (own_records (held usable.now)) id.0) }
{
    let table = usable.table;
    let live = usable
        .own(id)
        .ok_or(Problem::ErrorUnrecognizedInvocation.of(id.0))?;
    refuse_if(
        is_either(live.operation.class, Class::ResultOnly, Class::Unanswered),
        Problem::ErrorResponseUnexpected.of(id.0),
    )?;
    let code = code_of(field).ok_or(Problem::UnrecognizedError.of(id.0))?;
    let place = table.error_place(code);
    let parameter = table
        .error_at(place)
        .ok_or(Problem::UnrecognizedError.of(id.0))?;
    refuse_if(
        !is_paired(&table, live, place),
        Problem::UnexpectedError.of(id.0),
    )?;
    refuse_if(
        !is_right(parameter, x, value),
        Problem::MistypedParameter.of(id.0),
    )?;
    Ok(live.code)
}
