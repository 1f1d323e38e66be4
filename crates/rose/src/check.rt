// A call is a list of checks, in the order of its definition: the first that fails refuses.
ghost use Rattle.std.specs.Prelude.{◌≡◌};
ghost use Rattle.rose.specs.Steps.{refused_if};

use protocol::Refusal;

pub(crate) fn refuse_if(fails: bool, why: Refusal) -> Result<(), Refusal>
    ensures { result ≡ refused_if fails why }
{
    if fails { Err(why) } else { Ok(()) }
}
