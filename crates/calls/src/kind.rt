//! The kinds of entries that spell calls.
ghost use Rattle.std.specs.Prelude.{◌≡◌};
ghost use Rattle.calls.specs.Kinds.{Decodes, width_of};

use reading::fault::EntryFault;

// Each kind by the first byte of its entry.
#[derive(Clone, Copy, Debug, PartialEq, Eq)]
pub enum Kind {
    Size = 1,
    Rule = 2,
    Arrow = 3,
    Final = 4,
}

impl TryFrom<u8> for Kind {
    type Error = EntryFault;

    ghost try_from_gives = { Decodes };

    fn try_from(byte: u8) -> Result<Self, EntryFault> {
        match byte {
            1 => Ok(Kind::Size),
            2 => Ok(Kind::Rule),
            3 => Ok(Kind::Arrow),
            4 => Ok(Kind::Final),
            _ => Err(EntryFault::Unknown),
        }
    }
}

impl Kind {
    // How many bytes an entry of the kind has, its kind among them. The weight of a rule has entries of its own.
    pub fn width(self) -> usize
        ensures { result ≡ width_of self }
    {
        match self {
            Kind::Size => 5,
            Kind::Rule => 7,
            Kind::Arrow => 4,
            Kind::Final => 2,
        }
    }
}
