// What a call answers.
ghost use Rattle.std.specs.Prelude.{◌≡◌, cond};
ghost use Rattle.protocol.specs.Call.{names_place};
ghost use Rattle.protocol.specs.Reading.{read_refusal};
ghost use Rattle.records.specs.declared.State.{State};
ghost use Rattle.rose.specs.Answers.{requested};

use apdu::problem::ProblemKind;
use protocol::Refusal;

// The place, if the refusal names one; else 0, as the calls answer it.
#[tactic(auto, unfolding(protocol::specs::Reading::read_refusal))]
pub(crate) fn place_named(why: Refusal, place: usize) -> usize
    ensures { result ≡ cond (names_place (read_refusal why)) place 0 }
{
    match why {
        Refusal::MalformedValue => place,
        Refusal::TrailingOctets => place,
        Refusal::UnacceptableReject => place,
        Refusal::Rejected {
            id: _,
            kind,
            problem,
        } => if kind == ProblemKind::General && problem == 2 {
            place
        } else {
            0
        },
        _ => 0,
    }
}

// What a request answers beside the state, as Requested has it.
#[derive(Clone, Copy)]
pub(crate) struct Answer {
    pub place: usize,
    pub outcome: Result<(), Refusal>,
    pub written: usize,
}

impl Answer {
    // To a call that wrote so many octets, or was refused, the value being at fault at a place, if it is.
    pub(crate) fn of(written: Result<usize, Refusal>, place: usize) -> Self
        ensures { (s : State) → record { state = s; place = result.place; outcome = result.outcome; written = result.written } ≡ requested s place written }
    {
        match written {
            Ok(written) => Answer {
                place: 0,
                outcome: Ok(()),
                written,
            },
            Err(why) => Answer {
                place: place_named(why, place),
                outcome: Err(why),
                written: 0,
            },
        }
    }
}
