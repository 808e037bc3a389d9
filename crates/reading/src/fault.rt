//! What can be wrong with an entry.
ghost use Rattle.std.specs.Prelude.{◌≡◌};
ghost use Rattle.reading.specs.Faults.{fault_number};

use std::error::Error;
use std::fmt;

// Each fault by its number. What is wrong stands in its words, below.
#[derive(Clone, Copy, Debug, Drop, PartialEq, Eq)]
pub enum EntryFault {
    Unknown = 22,
    Cut = 23,
    Due = 24,
    NoValue = 25,
}

impl EntryFault {
    pub fn number(self) -> u8
        ensures { result ≡ fault_number self }
    {
        self as u8
    }
}

impl fmt::Display for EntryFault {
    fn fmt<W: fmt::Write>(&self, f: &mut fmt::Formatter<W>) -> fmt::Result {
        f.write_str(match self {
            EntryFault::Unknown => "no kind of entry that is known here",
            EntryFault::Cut => "the body of the entry is cut short",
            EntryFault::Due => "the kind of entry that is due is not there",
            EntryFault::NoValue => "the body is no value of the kind",
        })
    }
}

impl Error for EntryFault {}
