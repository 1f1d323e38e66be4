// Names: their octets, their form and their equality.
ghost use Rattle.std.specs.Prelude.{◌≡◌, ◌≤◌, length};
ghost use Rattle.codes.specs.Code.{name_octets, name_contents, name_of, same_name, name_form, name_right};

use crate::{Name, NameFault};
use base::octets::octets;
use ber::rule::content_rule;

impl Name {
    // The name with these contents; over 16 octets are no name's.
    #[tactic(auto, using(std::proofs::lemmas::List::take_all), unfolding(crate::specs::Code::name_of, base::specs::Octets::zero_filled))]
    pub fn of(contents: &[u8]) -> Self
        ensures { result ≡ name_of contents.now }
    {
        if contents.len() > 16 {
            return Name {
                length: 0,
                octets: [0; 16],
            };
        }
        Name {
            length: contents.len() as u8,
            octets: octets(contents, 0),
        }
    }

    // The contents, at most all 16 octets.
    #[tactic(auto, unfolding(crate::specs::Code::name_contents))]
    pub fn contents(&self) -> &[u8]
        ensures value { result.now ≡ name_contents self.now }
        ensures most { length result.now ≤ 16 }
    {
        &self.octets[..(self.length as usize).min(16)]
    }

    // All 16 octets, those behind the contents too.
    pub fn octets(self) -> [u8; 16]
        ensures { result ≡ name_octets self }
    {
        self.octets
    }

    #[tactic(auto, unfolding(crate::specs::Code::same_name))]
    pub fn same(self, other: Name) -> bool
        ensures { result ≡ same_name self other }
    {
        self == other
    }

    // What is wrong with it first, if anything.
    #[tactic(auto, unfolding(crate::specs::Code::name_form, crate::specs::Code::same_name))]
    pub fn form(self) -> Result<(), NameFault>
        ensures { result ≡ name_form self }
    {
        if self.length < 1 || self.length > 16 {
            return Err(NameFault::Length);
        }
        if !content_rule(0x06, self.contents()) {
            return Err(NameFault::Contents);
        }
        if self != Name::of(self.contents()) {
            return Err(NameFault::Padding);
        }
        Ok(())
    }

    #[tactic(auto, unfolding(crate::specs::Code::name_right))]
    pub fn is_right(self) -> bool
        ensures { result ≡ name_right self }
    {
        self.form().is_ok()
    }
}
