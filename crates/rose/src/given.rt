// A value that a request gives, and what it is.
ghost use Rattle.std.specs.Prelude.{◌≡◌, ◌≤◌};
ghost use Rattle.base.specs.Lists.{non_empty};
ghost use Rattle.records.specs.Limits.{levels};
ghost use Rattle.ber.specs.Element.{place};
ghost use Rattle.protocol.specs.Check.{value_well, value_finding};

use ber::element::{Finding, finding_in, well_formed};
use records::State;

// Empty for none. It is looked at again at the full levels only where it is not well-formed within those that it may have where it stands.
#[derive(Clone, Copy)]
pub(crate) struct Given<'a> {
    pub octets: &'a [u8],
    // A Result's value has a level less than another's: so each check asks for its own.
    pub most: usize,
    // It is one well-formed element of at most so many levels, or none.
    pub fits: bool,
    // What it is at the full levels.
    pub finding: Finding,
    ghost fitting: { fits ≡ value_well most (non_empty octets.now) },
    ghost found: { finding ≡ value_finding levels (non_empty octets.now) },
}

#[tactic(auto, using(crate::proofs::GivenLaws::well_none, crate::proofs::GivenLaws::well_some))]
fn is_well(value: &[u8], most: usize) -> bool
    ensures { result ≡ value_well most (non_empty value.now) }
{
    value.is_empty() || well_formed(value, most)
}

#[tactic(auto, using(crate::proofs::GivenLaws::fitting_is_one, crate::proofs::GivenLaws::wrong_is_some))]
fn finding_of(value: &[u8], most: usize, fits: bool) -> Finding
    requires within { most ≤ levels }
    requires fits { fits ≡ value_well most (non_empty value.now) }
    ensures { result ≡ value_finding levels (non_empty value.now) }
{
    if fits {
        Finding::One
    } else {
        finding_in(value, State::LEVELS)
    }
}

impl<'a> Given<'a> {
    pub(crate) fn new(octets: &'a [u8], most: usize) -> Self
        requires { most ≤ levels }
        ensures octets { result.octets.now ≡ octets.now }
        ensures most { result.most ≡ most }
    {
        let fits = is_well(octets, most);
        let finding = finding_of(octets, most, fits);
        Given {
            octets,
            most,
            fits,
            finding,
        }
    }

    // Where it is at fault, 0 where it is not, as `place` has it.
    #[tactic(auto, using(crate::proofs::GivenLaws::value_place))]
    pub(crate) fn place(&self) -> usize
        ensures { result ≡ place levels self.now.octets.now }
    {
        self.finding.place()
    }
}
