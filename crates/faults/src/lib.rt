//! Why a load or a store is refused.
#![tactic(auto)]

ghost use Rattle.std.specs.Prelude.{◌≡◌};
ghost use Rattle.faults.specs.declared.Lower.TheVariants.{Entry, Sheet};
ghost use Rattle.faults.specs.Faults.{layer_of, lower_number, store_number};

use reading::fault::EntryFault;
use sheets::fault::SheetFault;
use std::error::Error;
use std::fmt;

// Which entry is at fault: its number, counted from 1, and the place where it begins, counted from 0.
#[derive(Clone, Copy, Debug, Drop, PartialEq, Eq)]
pub struct Spot {
    pub entry: usize,
    pub place: usize,
}

// What refuses: the reading of an entry, or the call that the entry spells.
#[derive(Clone, Copy, Debug, Drop, PartialEq, Eq)]
pub enum Lower {
    Entry(EntryFault),
    Sheet(SheetFault),
}

// What a fault is about.
#[derive(Clone, Copy, Debug, Drop, PartialEq, Eq)]
pub enum Layer {
    Entry,
    Sheet,
}

// Where and why a load is refused.
#[derive(Clone, Copy, Debug, Drop, PartialEq, Eq)]
pub struct LoadFault {
    pub spot: Spot,
    pub lower: Lower,
}

impl From<EntryFault> for Lower {
    ghost from_gives = { λ fault lower. lower ≡ Entry fault };

    fn from(value: EntryFault) -> Lower {
        Lower::Entry(value)
    }
}

impl From<SheetFault> for Lower {
    ghost from_gives = { λ fault lower. lower ≡ Sheet fault };

    fn from(value: SheetFault) -> Lower {
        Lower::Sheet(value)
    }
}

impl<F: Into<Lower>> From<(Spot, F)> for LoadFault {
    ghost from_gives = { λ e r. (r.spot ≡ e.0) × F.Into.converts e.1 r.lower };

    fn from(value: (Spot, F)) -> LoadFault {
        let (spot, fault) = value;
        LoadFault {
            spot,
            lower: fault.into(),
        }
    }
}

impl LoadFault {
    pub fn layer(self) -> Layer
        ensures { result ≡ layer_of self.lower }
    {
        match self.lower {
            Lower::Entry(_) => Layer::Entry,
            Lower::Sheet(_) => Layer::Sheet,
        }
    }

    pub fn number(self) -> u8
        ensures { result ≡ lower_number self.lower }
    {
        match self.lower {
            Lower::Entry(fault) => fault.number(),
            Lower::Sheet(fault) => fault.number(),
        }
    }
}

impl fmt::Display for Layer {
    fn fmt<W: fmt::Write>(&self, f: &mut fmt::Formatter<W>) -> fmt::Result {
        f.write_str(match self {
            Layer::Entry => "entry",
            Layer::Sheet => "sheet",
        })
    }
}

impl fmt::Display for LoadFault {
    fn fmt<W: fmt::Write>(&self, f: &mut fmt::Formatter<W>) -> fmt::Result {
        write!(
            f,
            "entry {} byte {} layer {} refused {}",
            self.spot.entry,
            self.spot.place,
            self.layer(),
            self.number()
        )
    }
}

impl Error for LoadFault {}

// Why a store is refused, each case by its number.
#[derive(Clone, Copy, Debug, Drop, PartialEq, Eq)]
pub enum StoreFault {
    ShortStrip = 13,
    NoRoom = 26,
}

impl StoreFault {
    pub fn number(self) -> u8
        ensures { result ≡ store_number self }
    {
        self as u8
    }
}

impl fmt::Display for StoreFault {
    fn fmt<W: fmt::Write>(&self, f: &mut fmt::Formatter<W>) -> fmt::Result {
        f.write_str(match self {
            StoreFault::ShortStrip => "the strip has fewer cells than there are rules",
            StoreFault::NoRoom => "the buffer is too short",
        })
    }
}

impl Error for StoreFault {}
