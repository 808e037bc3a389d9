//! Why an addition is refused.
ghost use Rattle.std.specs.Prelude.{◌≡◌};
ghost use Rattle.sheets.specs.Faults.{fault_number};

use std::error::Error;
use std::fmt;

// Each refusal by its number. What it asks for stands in its words, below.
#[derive(Clone, Copy, Debug, Drop, PartialEq, Eq)]
pub enum SheetFault {
    Sized = 1,
    Controls = 2,
    Symbols = 3,
    States = 4,
    RightSide = 5,
    NoControl = 6,
    NoSymbol = 7,
    NoRuleRoom = 8,
    NoState = 9,
    IntoControl = 10,
    NotNew = 11,
    NoArrowRoom = 12,
}

impl SheetFault {
    pub fn number(self) -> u8
        ensures { result ≡ fault_number self }
    {
        self as u8
    }
}

impl fmt::Display for SheetFault {
    fn fmt<W: fmt::Write>(&self, f: &mut fmt::Formatter<W>) -> fmt::Result {
        f.write_str(match self {
            SheetFault::Sized => "the counts are set already",
            SheetFault::Controls => "there must be 1 to 8 controls",
            SheetFault::Symbols => "there must be 1 to 256 symbols",
            SheetFault::States => "there must be no fewer states than controls, and at most 32",
            SheetFault::RightSide => "a right side has at most two symbols, the unused ones 0",
            SheetFault::NoControl => "no such control",
            SheetFault::NoSymbol => "no such symbol",
            SheetFault::NoRuleRoom => "no place for one more rule, or no strip cell for its weight",
            SheetFault::NoState => "no such state",
            SheetFault::IntoControl => "an arrow must not lead to a control",
            SheetFault::NotNew => "the arrow, or the mark, is there already",
            SheetFault::NoArrowRoom => "no place for one more arrow",
        })
    }
}

impl Error for SheetFault {}
