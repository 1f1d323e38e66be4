// The checks of the requests behind those that come first in every call, in their order (docs/RULES.md, 'Requests'), and what is then to be done.
ghost use Rattle.std.specs.Prelude.{◌≡◌, ◌-◌, not, ◌&&◌, nat_le, length, IfOk};
ghost use Rattle.records.specs.Limits.{octets, levels};
ghost use Rattle.codes.specs.declared.Code.{Code};
ghost use Rattle.optable.specs.declared.Part.TheVariants.{Operations};
ghost use Rattle.optable.specs.Lookup.{find};
ghost use Rattle.optable.specs.Class.{class_number};
ghost use Rattle.apdu.specs.Reading.{read_peer_link};
ghost use Rattle.protocol.specs.Call.{invoke, result as resulting, error, reject};
ghost use Rattle.protocol.specs.Check.{peer_records, code_in, class_in};
ghost use Rattle.protocol.specs.Service.{keeps_answers};
ghost use Rattle.protocol.specs.Perform.{later_checks, is_user_problem};
ghost use Rattle.protocol.specs.Reading.{forgetting};
ghost use Rattle.rose.specs.Usable.{held, table};
ghost use Rattle.rose.specs.Steps.{Checked};
ghost use Rattle.rose.specs.Answering.{Answers};

use crate::check::refuse_if;
use crate::class::{is_either, makes_record};
use crate::given::Given;
use crate::linking::{is_no_child, is_paired, peer_parent};
use crate::usable::{Live, Usable};
use apdu::encode::{error_size, invoke_size, reject_size, result_size};
use codes::Code;
use optable::{Class, service_of, value_right};
use protocol::{Invocation, Refusal};
use records::{OwnId, PeerId, State};

// An operation that is asked of the peer.
#[derive(Clone, Copy)]
pub(crate) struct Invoke<'a> {
    pub id: OwnId,
    pub code: Code,
    pub linked: Option<PeerId>,
    pub value: Given<'a>,
}

// An error that an invocation of the peer's is answered with.
#[derive(Clone, Copy)]
pub(crate) struct Erring<'a> {
    pub id: PeerId,
    pub code: Code,
    pub value: Given<'a>,
}

// An invocation that is answered: its operation, and whether the answer is kept.
#[derive(Clone, Copy)]
pub(crate) struct Answering {
    pub code: Code,
    pub keeps: bool,
}

// Whether an APDU of so many octets is past the limits, with this value.
fn is_large(value: &Given, size: usize) -> bool
    ensures { result ≡ not (nat_le size octets && value.now.fits) }
{
    State::OCTETS < size || !value.fits
}

// The class of the operation, which says whether a record is made.
#[tactic(auto, unfolding(protocol::specs::Perform::later_checks, protocol::specs::Check::within_limits, protocol::specs::Reading::read_refusal, optable::specs::Lookup::operation_of))]
pub(crate) fn check_invoke(usable: &Usable, request: &Invoke, room: usize) -> Result<Class, Refusal>
    requires { request.now.value.most ≡ levels - 1 }
    ensures checked { Checked (later_checks (table usable.now) (held usable.now) (invoke request.now.id.0 request.now.code (read_peer_link request.now.linked) request.now.value.octets.now room)) result }
    ensures class { IfOk result (λ c. class_number c ≡ class_in (table usable.now) request.now.code) }
{
    let state = usable.state;
    let value = &request.value;
    let place = usable.table.operation_place(request.code);
    let operation = usable
        .table
        .operation_at(place)
        .ok_or(Refusal::UnknownOperation)?;
    refuse_if(state.has_own(request.id), Refusal::IdInUse)?;
    refuse_if(state.is_resting(request.id), Refusal::IdResting)?;
    refuse_if(
        !service_of(request.code).answers_itself() && usable.is_busy(),
        Refusal::SynchronousLive,
    )?;
    let parent = peer_parent(usable, request.linked, Refusal::UnknownLinkedId)?;
    refuse_if(
        is_no_child(&usable.table, parent, place),
        Refusal::NotAChild,
    )?;
    refuse_if(value.finding.is_fault(), Refusal::MalformedValue)?;
    refuse_if(value.finding.is_more(), Refusal::TrailingOctets)?;
    refuse_if(
        !value_right(operation.argument, value.octets),
        Refusal::MistypedValue,
    )?;
    refuse_if(
        makes_record(operation.class) && state.own.is_full(),
        Refusal::RecordsFull,
    )?;
    let size = invoke_size(request.id, request.linked, request.code, value.octets);
    refuse_if(is_large(value, size), Refusal::LargeApdu)?;
    refuse_if(room < size, Refusal::ShortOutput)?;
    Ok(operation.class)
}

// The operation of the invocation and whether the answer to it is kept.
#[tactic(auto, unfolding(protocol::specs::Perform::later_checks, protocol::specs::Check::within_limits, protocol::specs::Reading::read_refusal))]
pub(crate) fn check_result(
    usable: &Usable,
    id: PeerId,
    value: &Given,
    room: usize,
) -> Result<Answering, Refusal>
    requires { value.now.most ≡ levels - 2 }
    ensures checked { Checked (later_checks (table usable.now) (held usable.now) (resulting id.0 value.now.octets.now room)) result }
    ensures done { IfOk result (Answers (table usable.now) (code_in (peer_records (held usable.now)) id.0)) }
{
    let live = usable.peer(id).ok_or(Refusal::NoRecord)?;
    let operation = live.operation;
    refuse_if(
        is_either(operation.class, Class::ErrorOnly, Class::Unanswered),
        Refusal::WrongClass,
    )?;
    refuse_if(value.finding.is_fault(), Refusal::MalformedValue)?;
    refuse_if(value.finding.is_more(), Refusal::TrailingOctets)?;
    refuse_if(
        !value_right(operation.result, value.octets),
        Refusal::MistypedValue,
    )?;
    let size = result_size(id, live.code, value.octets);
    refuse_if(is_large(value, size), Refusal::LargeApdu)?;
    refuse_if(room < size, Refusal::ShortOutput)?;
    Ok(answer_to(usable, live))
}

// The same.
#[tactic(auto, unfolding(protocol::specs::Perform::later_checks, protocol::specs::Check::within_limits, protocol::specs::Reading::read_refusal, optable::specs::Lookup::error_of))]
pub(crate) fn check_error(
    usable: &Usable,
    request: &Erring,
    room: usize,
) -> Result<Answering, Refusal>
    requires { request.now.value.most ≡ levels - 1 }
    ensures checked { Checked (later_checks (table usable.now) (held usable.now) (error request.now.id.0 request.now.code request.now.value.octets.now room)) result }
    ensures done { IfOk result (Answers (table usable.now) (code_in (peer_records (held usable.now)) request.now.id.0)) }
{
    let value = &request.value;
    let live = usable.peer(request.id).ok_or(Refusal::NoRecord)?;
    refuse_if(
        is_either(live.operation.class, Class::ResultOnly, Class::Unanswered),
        Refusal::WrongClass,
    )?;
    let place = usable.table.error_place(request.code);
    let parameter = usable.table.error_at(place).ok_or(Refusal::UnlistedError)?;
    refuse_if(
        !is_paired(&usable.table, live, place),
        Refusal::UnlistedError,
    )?;
    refuse_if(value.finding.is_fault(), Refusal::MalformedValue)?;
    refuse_if(value.finding.is_more(), Refusal::TrailingOctets)?;
    refuse_if(
        !value_right(parameter, value.octets),
        Refusal::MistypedValue,
    )?;
    let size = error_size(request.id, request.code, value.octets);
    refuse_if(is_large(value, size), Refusal::LargeApdu)?;
    refuse_if(room < size, Refusal::ShortOutput)?;
    Ok(answer_to(usable, live))
}

// What answering an invocation that is live does.
#[tactic(auto, unfolding(protocol::specs::Service::keeps_answers, optable::specs::Lookup::idempotent_of))]
fn answer_to(usable: &Usable, live: Live) -> Answering
    ensures { (c : Code) → live.code ≡ c → live.place ≡ find (table usable.now) Operations c → Answers (table usable.now) c result }
{
    Answering {
        code: live.code,
        keeps: !usable.table.is_idempotent_at(live.place)
            && !service_of(live.code).answers_itself(),
    }
}

// Any octet may come here and below, as `reject` takes it.
fn is_user_problem(problem: u8) -> bool
    ensures { result ≡ is_user_problem problem }
{
    problem == 2 || problem == 3 || problem == 4
}

#[tactic(auto, unfolding(protocol::specs::Perform::later_checks, protocol::specs::Reading::read_refusal))]
pub(crate) fn check_reject(
    usable: &Usable,
    id: PeerId,
    problem: u8,
    room: usize,
) -> Result<(), Refusal>
    ensures { Checked (later_checks (table usable.now) (held usable.now) (reject id.0 problem room)) result }
{
    refuse_if(!is_user_problem(problem), Refusal::WrongProblem)?;
    refuse_if(!usable.state.has_peer(id), Refusal::NoRecord)?;
    refuse_if(room < reject_size(Some(id.0)), Refusal::ShortOutput)
}

// Retires an own record, or a peer record whose class is neither 1 nor 2.
#[tactic(auto, unfolding(protocol::specs::Perform::later_checks, protocol::specs::Reading::read_refusal))]
pub(crate) fn check_forget(usable: &Usable, invocation: Invocation) -> Result<(), Refusal>
    ensures { Checked (later_checks (table usable.now) (held usable.now) (forgetting invocation)) result }
{
    match invocation {
        Invocation::Own(id) => refuse_if(!usable.state.has_own(id), Refusal::NoRecord),
        Invocation::Peer(id) => {
            let live = usable.peer(id).ok_or(Refusal::NoRecord)?;
            refuse_if(
                is_either(
                    live.operation.class,
                    Class::Synchronous,
                    Class::Asynchronous,
                ),
                Refusal::WrongClass,
            )
        }
    }
}
