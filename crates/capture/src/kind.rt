// What an entry is, by its octet in the index.
ghost use Rattle.std.specs.Prelude.{◌≡◌};
ghost use Rattle.std.specs.Result.{result_ok};
ghost use Rattle.capture.specs.Entry.{kind_of};

#[derive(Clone, Copy, Debug, PartialEq, Eq)]
pub enum Kind {
    Received,
    Sent,
    Forget,
}

// An octet of no kind.
#[derive(Clone, Copy, Debug, PartialEq, Eq)]
pub struct NoKind;

impl TryFrom<u8> for Kind {
    type Error = NoKind;

    ghost try_from_gives = { λ octet result. result_ok result ≡ kind_of octet };

    fn try_from(octet: u8) -> Result<Kind, NoKind> {
        match octet {
            0 => Ok(Kind::Received),
            1 => Ok(Kind::Sent),
            2 => Ok(Kind::Forget),
            _ => Err(NoKind),
        }
    }
}
