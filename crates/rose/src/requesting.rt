// The four requests and forget (docs/RULES.md, 'Requests'). Each call stands by itself, and takes what 'The six calls' of README has, one by one, with
// the state by value.
ghost use Rattle.std.specs.Prelude.{◌≡◌, ◌-◌, [], length};
ghost use Rattle.records.specs.Limits.{levels};
ghost use Rattle.apdu.specs.Reading.{read_peer_link};
ghost use Rattle.protocol.specs.Call.{invoke, result as resulting, error, reject};
ghost use Rattle.protocol.specs.Perform.{perform};
ghost use Rattle.protocol.specs.Reading.{forgetting, RequestPromise};
ghost use Rattle.rose.specs.Answers.{Requests};

use crate::answer::Answer;
use crate::change::{add_own, answered, retire};
use crate::given::Given;
use crate::request::{
    Erring, Invoke, check_error, check_forget, check_invoke, check_reject, check_result,
};
use crate::usable::Usable;
use apdu::encode::{write_error, write_invoke, write_reject, write_result};
use base::octets::between;
use codes::Code;
use protocol::{Invocation, Refusal, Requested};
use records::{OwnId, PeerId, State};

// The call in place: how many octets are written.
fn send_invoke(
    state: &mut State,
    store: &[u8],
    table: &[u8],
    request: &Invoke,
    out: &mut [u8],
) -> Result<usize, Refusal>
    requires { request.now.value.most ≡ levels - 1 }
    ensures { Requests table.now (record { state = state.old; store = store.now }) (invoke request.now.id.0 request.now.code (read_peer_link request.now.linked) request.now.value.octets.now (length out.old)) request.now.value.octets.now (record { state = state.new; store = store.now }) out.old out.new result }
{
    let usable = Usable::new(state, store, table)?;
    let class = check_invoke(&usable, request, out.len())?;
    let written = write_invoke(
        out,
        request.id,
        request.linked,
        request.code,
        request.value.octets,
    );
    add_own(state, class, request.id, request.code);
    Ok(written)
}

// Requests an operation of the peer; an empty value is none.
pub fn invoke(
    mut state: State,
    store: &[u8],
    table: &[u8],
    id: OwnId,
    code: Code,
    linked: Option<PeerId>,
    value: &[u8],
    out: &mut [u8],
) -> Requested
    ensures { RequestPromise (perform table.now (record { state = state; store = store.now }) (invoke id.0 code (read_peer_link linked) value.now (length out.old))) (record { state = state; store = store.now }) store.now value.now out.old out.new result }
{
    let value = Given::new(value, State::LEVELS - 1);
    let request = Invoke {
        id,
        code,
        linked,
        value,
    };
    let sent = send_invoke(&mut state, store, table, &request, out);
    let answer = Answer::of(sent, value.place());
    Requested {
        state,
        place: answer.place,
        outcome: answer.outcome,
        written: answer.written,
    }
}

// The same.
fn send_result(
    state: &mut State,
    store: &mut [u8],
    table: &[u8],
    id: PeerId,
    value: &Given,
    out: &mut [u8],
) -> Result<usize, Refusal>
    requires { value.now.most ≡ levels - 2 }
    ensures { Requests table.now (record { state = state.old; store = store.old }) (resulting id.0 value.now.octets.now (length out.old)) value.now.octets.now (record { state = state.new; store = store.new }) out.old out.new result }
{
    let usable = Usable::new(state, store, table)?;
    let answering = check_result(&usable, id, value, out.len())?;
    let written = write_result(out, id, answering.code, value.octets);
    answered(state, store, answering.keeps, id, between(out, 0, written));
    Ok(written)
}

// Answers an invocation of the peer's with a result; an empty value is none.
pub fn result(
    mut state: State,
    store: &mut [u8],
    table: &[u8],
    id: PeerId,
    value: &[u8],
    out: &mut [u8],
) -> Requested
    ensures { RequestPromise (perform table.now (record { state = state; store = store.old }) (resulting id.0 value.now (length out.old))) (record { state = state; store = store.old }) store.new value.now out.old out.new result }
{
    let value = Given::new(value, State::LEVELS - 2);
    let sent = send_result(&mut state, store, table, id, &value, out);
    let answer = Answer::of(sent, value.place());
    Requested {
        state,
        place: answer.place,
        outcome: answer.outcome,
        written: answer.written,
    }
}

// The same.
fn send_error(
    state: &mut State,
    store: &mut [u8],
    table: &[u8],
    request: &Erring,
    out: &mut [u8],
) -> Result<usize, Refusal>
    requires { request.now.value.most ≡ levels - 1 }
    ensures { Requests table.now (record { state = state.old; store = store.old }) (error request.now.id.0 request.now.code request.now.value.octets.now (length out.old)) request.now.value.octets.now (record { state = state.new; store = store.new }) out.old out.new result }
{
    let usable = Usable::new(state, store, table)?;
    let answering = check_error(&usable, request, out.len())?;
    let written = write_error(out, request.id, request.code, request.value.octets);
    answered(
        state,
        store,
        answering.keeps,
        request.id,
        between(out, 0, written),
    );
    Ok(written)
}

// Answers an invocation of the peer's with an error; an empty value is none.
pub fn error(
    mut state: State,
    store: &mut [u8],
    table: &[u8],
    id: PeerId,
    code: Code,
    value: &[u8],
    out: &mut [u8],
) -> Requested
    ensures { RequestPromise (perform table.now (record { state = state; store = store.old }) (error id.0 code value.now (length out.old))) (record { state = state; store = store.old }) store.new value.now out.old out.new result }
{
    let value = Given::new(value, State::LEVELS - 1);
    let request = Erring { id, code, value };
    let sent = send_error(&mut state, store, table, &request, out);
    let answer = Answer::of(sent, value.place());
    Requested {
        state,
        place: answer.place,
        outcome: answer.outcome,
        written: answer.written,
    }
}

// The same.
fn send_reject(
    state: &mut State,
    store: &[u8],
    table: &[u8],
    id: PeerId,
    problem: u8,
    out: &mut [u8],
) -> Result<usize, Refusal>
    ensures { Requests table.now (record { state = state.old; store = store.now }) (reject id.0 problem (length out.old)) [] (record { state = state.new; store = store.now }) out.old out.new result }
{
    let usable = Usable::new(state, store, table)?;
    check_reject(&usable, id, problem, out.len())?;
    let written = write_reject(out, Some(id.0), 0x81, problem);
    state.peer.take_out(id.0);
    Ok(written)
}

// Rejects an invocation of the peer's with invoke problem 2, 3 or 4.
#[tactic(auto, using(crate::proofs::GivenLaws::no_octets))]
pub fn reject(
    mut state: State,
    store: &[u8],
    table: &[u8],
    id: PeerId,
    problem: u8,
    out: &mut [u8],
) -> Requested
    ensures { RequestPromise (perform table.now (record { state = state; store = store.now }) (reject id.0 problem (length out.old))) (record { state = state; store = store.now }) store.now [] out.old out.new result }
{
    let sent = send_reject(&mut state, store, table, id, problem, out);
    let answer = Answer::of(sent, 0);
    Requested {
        state,
        place: answer.place,
        outcome: answer.outcome,
        written: answer.written,
    }
}

// The call in place: nothing is written.
fn forget_record(
    state: &mut State,
    store: &[u8],
    table: &[u8],
    invocation: Invocation,
) -> Result<usize, Refusal>
    ensures { Requests table.now (record { state = state.old; store = store.now }) (forgetting invocation) [] (record { state = state.new; store = store.now }) [] [] result }
{
    let usable = Usable::new(state, store, table)?;
    check_forget(&usable, invocation)?;
    retire(state, invocation);
    Ok(0)
}

// Retires an own record, whose id then rests, or a peer record whose class is neither 1 nor 2, with nothing sent.
#[tactic(auto, using(crate::proofs::GivenLaws::no_octets))]
pub fn forget(mut state: State, store: &[u8], table: &[u8], invocation: Invocation) -> Requested
    ensures { RequestPromise (perform table.now (record { state = state; store = store.now }) (forgetting invocation)) (record { state = state; store = store.now }) store.now [] [] [] result }
{
    let sent = forget_record(&mut state, store, table, invocation);
    let answer = Answer::of(sent, 0);
    Requested {
        state,
        place: answer.place,
        outcome: answer.outcome,
        written: answer.written,
    }
}
