// What becomes of a received APDU that is not refused (docs/RULES.md, 'Receiving').
ghost use Rattle.std.specs.Prelude.{◌≡◌, ◌<◌, ◌==◌, length, slice_index, ℕ, Ok};
ghost use Rattle.apdu.specs.Parse.{parse, invoke, result as resulting, error};
ghost use Rattle.apdu.specs.Reading.{read_own_link, read_value, read_body, read_parsed};
ghost use Rattle.optable.specs.Service.{service_of};
ghost use Rattle.optable.specs.Class.{class_number};
ghost use Rattle.protocol.specs.Check.{class_in};
ghost use Rattle.protocol.specs.Receive.{fault, field_code, invoke_done, receive_apdu};
ghost use Rattle.protocol.specs.Reading.{read_refusal};
ghost use Rattle.rose.specs.Arrival.{told};
ghost use Rattle.rose.specs.Usable.{held, table};

use crate::arriving::{Arriving, check_error, check_invoke, check_result};
use crate::change::{Change, arriving_record};
use crate::reply::{Reply, acknowledged, asked, probed};
use crate::usable::Usable;
use apdu::problem::ProblemKind;
use apdu::{Body, Parsed, Span};
use codes::Code;
use optable::{Service, service_of};
use protocol::{Indication, Refusal};
use records::{OwnId, PeerId};

#[derive(Clone, Copy)]
pub(crate) enum Arrival {
    Indicated(Indication, Change),
    // Nobody is told of it.
    Answered(Reply, Change),
}

fn starts_reject(x: &[u8]) -> bool
    ensures { result ≡ (slice_index x.now 0 == 0xA4) }
{
    !x.is_empty() && x[0] == 0xA4
}

// A general problem, by its number as `fault` has it, or 17 if the first octet is A4.
#[tactic(auto, unfolding(protocol::specs::Receive::fault, protocol::specs::Reading::read_refusal))]
fn general(x: &[u8], problem: u8, id: Option<u32>) -> Refusal
    ensures { read_refusal result ≡ fault x.now problem id }
{
    if starts_reject(x) {
        return Refusal::UnacceptableReject;
    }
    Refusal::Rejected {
        id,
        kind: ProblemKind::General,
        problem,
    }
}

// An Invoke that passed its checks: a probe and an acknowledge are answered, any other is indicated.
#[tactic(auto, unfolding(protocol::specs::Receive::invoke_done, protocol::specs::Reading::read_indication))]
fn accept_invoke(
    usable: &Usable,
    x: &[u8],
    id: PeerId,
    linked: Option<OwnId>,
    arriving: Arriving,
    value: Option<Span>,
) -> Arrival
    requires { class_number arriving.class ≡ class_in (table usable.now) arriving.code }
    ensures { told x.now (held usable.now) (Ok result) ≡ invoke_done (table usable.now) (held usable.now) id.0 (read_own_link linked) arriving.code (read_value x.now value) (service_of arriving.code) }
{
    let service = service_of(arriving.code);
    match service {
        Service::Probe => {
            let asked = asked(service, x, value);
            Arrival::Answered(probed(usable, id, asked), Change::Unchanged)
        }
        Service::Acknowledge => {
            let asked = asked(service, x, value);
            Arrival::Answered(
                acknowledged(usable, id, asked),
                Change::Drops(PeerId(asked)),
            )
        }
        Service::Ordinary => Arrival::Indicated(
            Indication::Invoke {
                id,
                linked,
                code: arriving.code,
                argument: value,
            },
            arriving_record(arriving.class, id, arriving.code),
        ),
    }
}

// The fields come one by one out of Parsed here and below: a struct of them would be taken apart by the next call.
#[tactic(auto, using(crate::proofs::ArrivalLaws::refuses, crate::proofs::ArrivalLaws::accepts), unfolding(protocol::specs::Receive::receive_apdu))]
fn arrive_invoke(
    usable: &Usable,
    x: &[u8],
    id: PeerId,
    linked: Option<OwnId>,
    field: Option<Code>,
    value: Option<Span>,
) -> Result<Arrival, Refusal>
    ensures { told x.now (held usable.now) result ≡ receive_apdu (table usable.now) (held usable.now) x.now (invoke id.0 (read_own_link linked) field (read_value x.now value)) }
{
    let arriving = check_invoke(usable, x, id, linked, field, value)?;
    Ok(accept_invoke(usable, x, id, linked, arriving, value))
}

#[tactic(auto, using(crate::proofs::ArrivalLaws::refuses, crate::proofs::ArrivalLaws::accepts), unfolding(protocol::specs::Receive::receive_apdu, protocol::specs::Reading::read_indication))]
fn arrive_result(
    usable: &Usable,
    x: &[u8],
    id: OwnId,
    body: Option<Body>,
) -> Result<Arrival, Refusal>
    ensures { told x.now (held usable.now) result ≡ receive_apdu (table usable.now) (held usable.now) x.now (resulting id.0 (read_body x.now body)) }
{
    let operation = check_result(usable, x, id, body)?;
    Ok(Arrival::Indicated(
        Indication::Result {
            id,
            body,
            operation,
        },
        Change::Retires(id),
    ))
}

// Beside `arrive_result`, since other fields are checked and indicated.
#[tactic(auto, using(crate::proofs::ArrivalLaws::refuses, crate::proofs::ArrivalLaws::accepts), unfolding(protocol::specs::Receive::receive_apdu, protocol::specs::Reading::read_indication))]
fn arrive_error(
    usable: &Usable,
    x: &[u8],
    id: OwnId,
    field: Option<Code>,
    value: Option<Span>,
) -> Result<Arrival, Refusal>
    ensures { told x.now (held usable.now) result ≡ receive_apdu (table usable.now) (held usable.now) x.now (error id.0 field (read_value x.now value)) }
{
    let operation = check_error(usable, x, id, field, value)?;
    Ok(Arrival::Indicated(
        Indication::Error {
            id,
            code: field_code(field),
            parameter: value,
            operation,
        },
        Change::Retires(id),
    ))
}

// Local 0 for none, as `field_code` has it.
fn field_code(field: Option<Code>) -> Code
    ensures { result ≡ field_code field }
{
    match field {
        Some(code) => code,
        None => Code::Local(0),
    }
}

// A received APDU as it was parsed. Of the Rejects only one of an Invoke retires a record.
#[tactic(auto, unfolding(protocol::specs::Receive::receive_apdu, protocol::specs::Reading::read_indication, apdu::specs::Reading::read_parsed))]
pub(crate) fn arrive(usable: &Usable, x: &[u8], parsed: Parsed) -> Result<Arrival, Refusal>
    ensures { told x.now (held usable.now) result ≡ receive_apdu (table usable.now) (held usable.now) x.now (read_parsed x.now parsed) }
{
    match parsed {
        Parsed::BadlyStructured { at: _ } => Err(general(x, 2, None)),
        Parsed::Unrecognized => Err(general(x, 0, None)),
        Parsed::Mistyped(id) => Err(general(x, 1, id)),
        Parsed::Invoke {
            id,
            linked,
            code,
            value,
        } => arrive_invoke(usable, x, id, linked, code, value),
        Parsed::Result { id, body } => arrive_result(usable, x, id, body),
        Parsed::Error { id, code, value } => arrive_error(usable, x, id, code, value),
        Parsed::InvokeReject { id, problem } => Ok(Arrival::Indicated(
            Indication::InvokeRejected { id, problem },
            Change::Retires(id),
        )),
        Parsed::ResultReject { id, problem } => Ok(Arrival::Indicated(
            Indication::ResultRejected { id, problem },
            Change::Unchanged,
        )),
        Parsed::ErrorReject { id, problem } => Ok(Arrival::Indicated(
            Indication::ErrorRejected { id, problem },
            Change::Unchanged,
        )),
        Parsed::GeneralReject { id, problem } => Ok(Arrival::Indicated(
            Indication::GeneralReject { id, problem },
            Change::Unchanged,
        )),
    }
}
