// What receive answers itself (docs/RULES.md, 'Probe and acknowledge').
ghost use Rattle.std.specs.Prelude.{◌≡◌, true, false, MatchOption};
ghost use Rattle.base.specs.Octets.{part};
ghost use Rattle.records.specs.Kept.{is_kept, kept_apdu};
ghost use Rattle.records.specs.Held.{kept_answers};
ghost use Rattle.apdu.specs.Field.{octets_of};
ghost use Rattle.apdu.specs.Reading.{read_value};
ghost use Rattle.apdu.specs.Encode.{WrittenWhole};
ghost use Rattle.protocol.specs.Check.{is_linked, linked_to};
ghost use Rattle.protocol.specs.Service.{about_in, about, inside_right, reply, probed, acknowledged};
ghost use Rattle.rose.specs.Usable.{held};
ghost use Rattle.rose.specs.Replies.{replied};
ghost use Rattle.rose.specs.Steps.{AllWritten};

use crate::usable::Usable;
use apdu::Span;
use apdu::encode::write_result;
use apdu::inside::{id_in, inside};
use ber::output::put_octets;
use codes::Code;
use optable::Service;
use records::{PeerId, State};

const PROBE: Code = Code::Local(0xFFFF_FFFE);

const ACKNOWLEDGE: Code = Code::Local(0xFFFF_FFFD);

// What is written for an Invoke that nobody is told of.
#[derive(Clone, Copy)]
pub(crate) enum Reply {
    // The result of the Invoke with the id: ENUMERATED with the number.
    Result { id: PeerId, code: Code, number: u8 },
    // The result of a probe, finished, and behind it the answer that is kept there in the store.
    Fetched { id: PeerId, answer: Span },
}

#[tactic(auto, unfolding(protocol::specs::Service::about_in))]
fn about_in(service: Service, v: &[u8]) -> Option<u32>
    ensures { result ≡ about_in service v.now }
{
    match service {
        Service::Probe => id_in(inside(0xA0, inside(0x30, v))),
        Service::Acknowledge => id_in(v),
        Service::Ordinary => None,
    }
}

// The id that the argument is about. Service, octets and value stay parameters: a struct of them would be made for one call.
#[tactic(auto, unfolding(protocol::specs::Service::about, apdu::specs::Reading::read_value))]
fn about(service: Service, x: &[u8], value: Option<Span>) -> Option<u32>
    ensures { result ≡ about service (octets_of (read_value x.now value)) }
{
    match value {
        None => None,
        Some(span) => about_in(service, span.of(x)),
    }
}

// The id that the argument is about, 0 where there is none, as `linked_to` has it.
pub(crate) fn asked(service: Service, x: &[u8], value: Option<Span>) -> u32
    ensures { result ≡ linked_to (about service (octets_of (read_value x.now value))) }
{
    match about(service, x, value) {
        Some(id) => id,
        None => 0,
    }
}

fn is_number(n: Option<u32>) -> bool
    ensures { result ≡ is_linked n }
{
    match n {
        Some(_) => true,
        None => false,
    }
}

// Whether the argument of a probe or an acknowledge is about an id; of others nothing is asked.
#[tactic(auto, using(crate::proofs::ReplyLaws::inside_asked, crate::proofs::ReplyLaws::inside_free))]
pub(crate) fn is_inside_right(service: Service, x: &[u8], value: Option<Span>) -> bool
    ensures { result ≡ inside_right service (octets_of (read_value x.now value)) }
{
    !service.answers_itself() || is_number(about(service, x, value))
}

// Where the answer to the id is kept in the store.
#[tactic(auto, using(crate::proofs::ReplyLaws::place_inside, crate::proofs::ReplyLaws::not_kept))]
fn kept_answer(usable: &Usable, id: PeerId) -> Option<Span>
    ensures { MatchOption result (is_kept id.0 (kept_answers (held usable.now)) ≡ false) (λ p. (is_kept id.0 (kept_answers (held usable.now)) ≡ true) × (part usable.now.store.now p.at p.end ≡ kept_apdu id.0 (kept_answers (held usable.now)))) }
{
    let place = usable.state.answer_place(id)?;
    let kept = usable.state.kept.as_slice()[place];
    let at = place * State::ANSWER_OCTETS;
    Some(Span {
        at,
        end: at + kept.length as usize,
    })
}

// The answer to probe `id` about `asked`: running, finished with the kept answer, or unknown.
#[tactic(auto, unfolding(protocol::specs::Service::probed))]
pub(crate) fn probed(usable: &Usable, id: PeerId, asked: u32) -> Reply
    ensures { replied usable.now.store.now result ≡ probed (held usable.now) id.0 asked }
{
    if usable.state.has_peer(PeerId(asked)) {
        return Reply::Result {
            id,
            code: PROBE,
            number: 0,
        };
    }
    match kept_answer(usable, PeerId(asked)) {
        Some(answer) => Reply::Fetched { id, answer },
        None => Reply::Result {
            id,
            code: PROBE,
            number: 2,
        },
    }
}

// The answer to acknowledge `id` about `asked`: 0 where an answer is kept, which is then dropped, else 1.
#[tactic(auto, unfolding(protocol::specs::Service::acknowledged))]
pub(crate) fn acknowledged(usable: &Usable, id: PeerId, asked: u32) -> Reply
    ensures { replied usable.now.store.now result ≡ acknowledged (held usable.now) id.0 asked }
{
    match kept_answer(usable, PeerId(asked)) {
        Some(_) => Reply::Result {
            id,
            code: ACKNOWLEDGE,
            number: 0,
        },
        None => Reply::Result {
            id,
            code: ACKNOWLEDGE,
            number: 1,
        },
    }
}

// Writes a result with an ENUMERATED, whose number is as `reply` has it.
fn write_enumerated(out: &mut [u8], id: PeerId, code: Code, number: u8) -> usize
    ensures { WrittenWhole out.old (reply id.0 code number) out.new result }
{
    let value = [0x0A, 0x01, number];
    write_result(out, id, code, &value)
}

pub(crate) fn write_reply(out: &mut [u8], store: &[u8], reply: Reply) -> usize
    ensures { AllWritten (replied store.now reply) out.old out.new result }
{
    match reply {
        Reply::Result { id, code, number } => write_enumerated(out, id, code, number),
        Reply::Fetched { id, answer } => {
            let n = write_enumerated(out, id, PROBE, 1);
            put_octets(out, n, answer.of(store))
        }
    }
}
