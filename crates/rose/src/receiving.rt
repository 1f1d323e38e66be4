// The call receive (docs/RULES.md, 'Receiving').
ghost use Rattle.std.specs.Prelude.{◌≡◌, ◌≤◌, ℕ, List, length};
ghost use Rattle.records.specs.Limits.{octets};
ghost use Rattle.apdu.specs.Parse.{parse};
ghost use Rattle.apdu.specs.Reading.{read_parsed};
ghost use Rattle.protocol.specs.Call.{receive, reject_written};
ghost use Rattle.protocol.specs.Check.{answer};
ghost use Rattle.protocol.specs.Perform.{later_checks, done, perform};
ghost use Rattle.protocol.specs.Reading.{read_refusal, ReceivePromise};
ghost use Rattle.rose.specs.Answers.{Takes};
ghost use Rattle.rose.specs.Arrival.{told};
ghost use Rattle.rose.specs.Faults.{fault_in};
ghost use Rattle.rose.specs.Usable.{held, table};
ghost use Rattle.rose.specs.Steps.{AllWritten};

use crate::answer::place_named;
use crate::arrival::{Arrival, arrive};
use crate::check::refuse_if;
use crate::reply::write_reply;
use crate::usable::Usable;
use apdu::Parsed;
use apdu::encode::write_reject;
use apdu::parse::parse;
use protocol::{Indication, Received, Refusal};
use records::State;

// An APDU as it is parsed; one that is too long for any is not looked at.
fn read(x: &[u8]) -> Parsed
    ensures { length x.now ≤ octets → read_parsed x.now result ≡ parse x.now }
{
    if x.len() > State::OCTETS {
        return Parsed::BadlyStructured { at: 0 };
    }
    parse(x)
}

// Where octets are at fault that are no APDU; else 0, as `fault_in` has it.
#[tactic(auto, unfolding(apdu::specs::Reading::read_parsed))]
fn fault_in(parsed: Parsed) -> usize
    ensures { (x : List ℕ) → result ≡ fault_in (read_parsed x parsed) }
{
    match parsed {
        Parsed::BadlyStructured { at } => at,
        _ => 0,
    }
}

// 3 and 2, then the problems of what was received.
#[tactic(auto, unfolding(protocol::specs::Perform::later_checks, protocol::specs::Perform::done, protocol::specs::Reading::read_refusal))]
fn check_receive(usable: &Usable, x: &[u8], parsed: Parsed, room: usize) -> Result<Arrival, Refusal>
    requires { length x.now ≤ octets → read_parsed x.now parsed ≡ parse x.now }
    ensures { told x.now (held usable.now) result ≡ answer (later_checks (table usable.now) (held usable.now) (receive x.now room)) (done (table usable.now) (held usable.now) (receive x.now room)) }
{
    refuse_if(x.len() > State::OCTETS, Refusal::LongInput)?;
    refuse_if(room < usable.table.room_needed(), Refusal::ShortOutput)?;
    arrive(usable, x, parsed)
}

// Writes the Reject that an APDU is refused with, if it is.
fn write_refusal(out: &mut [u8], why: Refusal) -> usize
    ensures { AllWritten (reject_written (read_refusal why)) out.old out.new result }
{
    match why {
        Refusal::Rejected { id, kind, problem } => write_reject(out, id, kind.into(), problem),
        _ => 0,
    }
}

// What receive answers beside the state, as Received has it.
#[derive(Clone, Copy)]
struct Told {
    place: usize,
    reception: Result<Option<Indication>, Refusal>,
    written: usize,
}

// The call in place, of an APDU as it was parsed.
fn take(
    state: &mut State,
    store: &mut [u8],
    table: &[u8],
    x: &[u8],
    parsed: Parsed,
    out: &mut [u8],
) -> Result<Told, Refusal>
    requires { length x.now ≤ octets → read_parsed x.now parsed ≡ parse x.now }
    ensures { Takes table.now (record { state = state.old; store = store.old }) x.now (record { state = state.new; store = store.new }) out.old out.new result }
{
    let usable = Usable::new(state, store, table)?;
    let arrival = check_receive(&usable, x, parsed, out.len())?;
    match arrival {
        Arrival::Indicated(indication, change) => {
            change.make(state, store);
            Ok(Told {
                place: 0,
                reception: Ok(Some(indication)),
                written: 0,
            })
        }
        Arrival::Answered(reply, change) => {
            let written = write_reply(out, store, reply);
            change.make(state, store);
            Ok(Told {
                place: 0,
                reception: Ok(None),
                written,
            })
        }
    }
}

// Takes a received APDU: it is indicated, or answered, or refused; an answer, or the Reject of a refused one, stands at the front of the output.
pub fn receive(
    mut state: State,
    store: &mut [u8],
    table: &[u8],
    apdu: &[u8],
    out: &mut [u8],
) -> Received
    ensures { ReceivePromise (perform table.now (record { state = state; store = store.old }) (receive apdu.now (length out.old))) (record { state = state; store = store.old }) store.new apdu.now out.old out.new result }
{
    let parsed = read(apdu);
    let told = match take(&mut state, store, table, apdu, parsed, out) {
        Err(why) => Told {
            place: place_named(why, fault_in(parsed)),
            reception: Err(why),
            written: write_refusal(out, why),
        },
        Ok(told) => told,
    };
    Received {
        state,
        place: told.place,
        reception: told.reception,
        written: told.written,
    }
}
