// A lent table that is known to be valid, and what it says of codes and of the places where they stand. A call looks each code up once, and asks on by the place.
ghost use Rattle.std.specs.Prelude.{◌≡◌, true, is_ok, Err, IfOk, IfErr};
ghost use Rattle.optable.specs.Validity.{valid, pairs};
ghost use Rattle.optable.specs.Fault.{first_fault};
ghost use Rattle.optable.specs.Read.{second_part};
ghost use Rattle.optable.specs.Lookup.{find, joined, operation_in, operation_of, idempotent_in, idempotent_of, error_in, error_of, paired, paired_in, child_of, child_in, has_child, has_child_in, room_needed};

use crate::lookup::{has_child_in, is_joined};
use crate::places::{error_in, error_place, idempotent_in, operation_in, operation_place};
use crate::validity::checked;
use crate::{Fault, Operation, Part, Rule};
use codes::{Code, Place};

#[derive(Clone, Copy)]
pub struct Table<'a> {
    octets: &'a [u8],
    ghost valid: { valid octets.now ≡ true },
}

impl<'a> Table<'a> {
    // The table of these octets, or the first rule that they break.
    #[tactic(auto, using(crate::proofs::FaultLaws::faulty_is_not, crate::proofs::FaultLaws::unfaulty_is))]
    pub fn new(octets: &'a [u8]) -> Result<Self, Fault>
        ensures is_valid { is_ok result ≡ valid octets.now }
        ensures same { IfOk result (λ t. t.octets.now ≡ octets.now) }
        ensures fault { IfErr result (λ fault. first_fault octets.now ≡ Err fault) }
    {
        checked(octets)?;
        Ok(Table { octets })
    }

    // Where the operation of a code stands.
    #[tactic(auto, using(crate::proofs::TableLaws::valid_ordered))]
    pub fn operation_place(&self, code: Code) -> Place
        ensures { result ≡ find self.now.octets.now Part.Operations code }
    {
        operation_place(self.octets, code)
    }

    // Where the error of a code stands.
    #[tactic(auto, using(crate::proofs::TableLaws::valid_ordered))]
    pub fn error_place(&self, code: Code) -> Place
        ensures { result ≡ find self.now.octets.now Part.Errors code }
    {
        error_place(self.octets, code)
    }

    // The operation at a place.
    pub fn operation_at(&self, place: Place) -> Option<Operation>
        ensures { result ≡ operation_in self.now.octets.now place }
    {
        operation_in(self.octets, place)
    }

    // Whether the operation at a place is idempotent.
    pub fn is_idempotent_at(&self, place: Place) -> bool
        ensures { result ≡ idempotent_in self.now.octets.now place }
    {
        idempotent_in(self.octets, place)
    }

    // The rule of the parameter of the error at a place.
    pub fn error_at(&self, place: Place) -> Option<Rule>
        ensures { result ≡ error_in self.now.octets.now place }
    {
        error_in(self.octets, place)
    }

    // Whether the error at one place is paired with the operation at another.
    pub fn is_paired_at(&self, operation: Place, error: Place) -> bool
        ensures { result ≡ paired_in self.now.octets.now operation error }
    {
        is_joined(self.octets, Part::ErrorPairs, operation, error)
    }

    // Whether the operation at one place is a listed child of that at another.
    pub fn is_child_at(&self, parent: Place, child: Place) -> bool
        ensures { result ≡ child_in self.now.octets.now parent child }
    {
        is_joined(self.octets, Part::ChildPairs, parent, child)
    }

    // Whether the operation at a place has a child.
    pub fn has_child_at(&self, parent: Place) -> bool
        ensures { result ≡ has_child_in self.now.octets.now parent }
    {
        has_child_in(self.octets, parent)
    }

    #[tactic(auto, unfolding(crate::specs::Lookup::operation_of))]
    pub fn operation(&self, code: Code) -> Option<Operation>
        ensures { result ≡ operation_of self.now.octets.now code }
    {
        self.operation_at(self.operation_place(code))
    }

    // The rule of an error's parameter.
    #[tactic(auto, unfolding(crate::specs::Lookup::error_of))]
    pub fn error(&self, code: Code) -> Option<Rule>
        ensures { result ≡ error_of self.now.octets.now code }
    {
        self.error_at(self.error_place(code))
    }

    #[tactic(auto, unfolding(crate::specs::Lookup::idempotent_of))]
    pub fn is_idempotent(&self, code: Code) -> bool
        ensures { result ≡ idempotent_of self.now.octets.now code }
    {
        self.is_idempotent_at(self.operation_place(code))
    }

    pub fn is_paired(&self, operation: Code, error: Code) -> bool
        ensures { result ≡ paired self.now.octets.now operation error }
    {
        self.is_joined(Part::ErrorPairs, operation, error)
    }

    pub fn is_child(&self, parent: Code, child: Code) -> bool
        ensures { result ≡ child_of self.now.octets.now parent child }
    {
        self.is_joined(Part::ChildPairs, parent, child)
    }

    #[tactic(auto, using(crate::proofs::PlaceLaws::parent_found))]
    pub fn has_child(&self, parent: Code) -> bool
        ensures { result ≡ has_child self.now.octets.now parent }
    {
        self.has_child_at(self.operation_place(parent))
    }

    // Where the second of a pair stands.
    fn second_place(&self, part: Part, code: Code) -> Place
        ensures { result ≡ find self.now.octets.now (second_part part) code }
    {
        match part {
            Part::ErrorPairs => self.error_place(code),
            _ => self.operation_place(code),
        }
    }

    // Whether some pair of a part is of two codes.
    #[tactic(auto, using(crate::proofs::PlaceLaws::joined_found))]
    pub(crate) fn is_joined(&self, part: Part, operation: Code, other: Code) -> bool
        requires { pairs part ≡ true }
        ensures { result ≡ joined self.now.octets.now part operation other }
    {
        let first = self.operation_place(operation);
        is_joined(self.octets, part, first, self.second_place(part, other))
    }

    // How many octets of output receive needs.
    pub fn room_needed(&self) -> usize
        ensures { result ≡ room_needed self.now.octets.now }
    {
        crate::room_needed(self.octets)
    }
}
