//! Why a run refuses its input.
ghost use Rattle.std.specs.Prelude.{◌≡◌};
ghost use Rattle.program.specs.declared.refusal.Refusal.TheVariants.{Load};

use faults::LoadFault;
use std::error::Error;
use std::fmt;

#[derive(Clone, Copy, Debug, PartialEq, Eq)]
pub enum Refusal {
    // The input has more bytes than a run takes.
    TooLong,
    Load(LoadFault),
}

impl fmt::Display for Refusal {
    fn fmt<W: fmt::Write>(&self, f: &mut fmt::Formatter<W>) -> fmt::Result {
        match self {
            Refusal::TooLong => write!(f, "input too long"),
            Refusal::Load(fault) => write!(f, "{fault}"),
        }
    }
}

impl Error for Refusal {}

impl From<LoadFault> for Refusal {
    ghost from_gives = { λ fault r. r ≡ Load fault };

    fn from(value: LoadFault) -> Refusal {
        Refusal::Load(value)
    }
}
