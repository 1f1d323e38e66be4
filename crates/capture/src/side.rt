// The side of a forget, by its first octet.
ghost use Rattle.std.specs.Prelude.{◌≡◌};
ghost use Rattle.capture.specs.Entry.{side_by};

#[derive(Clone, Copy, Debug, PartialEq, Eq)]
pub enum Side {
    Own,
    Peer,
    // An octet that is no side, which `side_of` answers as it is, since it cannot fail.
    Other(u8),
}

impl From<u8> for Side {
    ghost from_gives = { λ octet side. side ≡ side_by octet };

    fn from(octet: u8) -> Side {
        match octet {
            0 => Side::Own,
            1 => Side::Peer,
            _ => Side::Other(octet),
        }
    }
}
