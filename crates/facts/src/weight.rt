//! The stored record of a value of facts.
ghost use Rattle.std.specs.Prelude.{◌≡◌, true, false, Decides, MatchOption};
ghost use Rattle.effects.specs.Facts.{facts};
ghost use Rattle.facts.specs.Stored.{nothing, sets, stored, is_known, value_of, combined, extended, Proper};

use effects::known::Known;
use weights::weight::Weight;

// None, or the facts that are made and those that are unmade. A record with a fact in both means none.
// Not an `Option<Known>`: the specification of stored weights fixes this plain record.
#[derive(Clone, Copy, Debug, PartialEq, Eq)]
pub struct Facts {
    pub none: bool,
    pub made: u16,
    pub unmade: u16,
}

const NOTHING: Facts = Facts {
    none: true,
    made: 0,
    unmade: 0,
};

const KEEPING: Facts = Facts {
    none: false,
    made: 0,
    unmade: 0,
};

// The record that stores the value.
impl From<Known> for Facts {
    ghost from_gives = { λ known result. result ≡ sets known.made known.unmade };

    fn from(known: Known) -> Facts {
        Facts {
            none: false,
            made: known.made(),
            unmade: known.unmade(),
        }
    }
}

impl Facts {
    // The known value, unless the record means none.
    pub(crate) fn known(self) -> Option<Known>
        ensures { MatchOption result (is_known self ≡ false) (λ k. (is_known self ≡ true) × (k.made ≡ self.made) × (k.unmade ≡ self.unmade)) }
    {
        if self.none {
            None
        } else {
            Known::of(self.made, self.unmade)
        }
    }

    // The record as its value is stored.
    fn settled(self) -> Facts
        ensures { result ≡ stored self }
    {
        self.known().map_or(NOTHING, Facts::from)
    }
}

impl Weight for Facts {
    ghost algebra = { facts };

    ghost meaning = { value_of };

    fn zero() -> Facts
        ensures means { value_of result ≡ facts.zero }
        ensures value { result ≡ nothing }
    {
        NOTHING
    }

    fn one() -> Facts
        ensures means { value_of result ≡ facts.one }
        ensures value { result ≡ sets 0 0 }
    {
        KEEPING
    }

    fn combine(self, other: Facts) -> Facts
        ensures means { value_of result ≡ facts.combine (value_of self) (value_of other) }
        ensures value { result ≡ combined self other }
        ensures proper { Proper result }
    {
        match (self.known(), other.known()) {
            (Some(first), Some(second)) => first.combine(second).into(),
            (Some(first), None) => first.into(),
            (None, _) => other.settled(),
        }
    }

    fn extend(self, other: Facts) -> Facts
        ensures means { value_of result ≡ facts.extend (value_of self) (value_of other) }
        ensures value { result ≡ extended self other }
        ensures proper { Proper result }
    {
        match (self.known(), other.known()) {
            (Some(first), Some(second)) => first.extend(second).into(),
            _ => NOTHING,
        }
    }

    fn same(self, other: Facts) -> bool
        ensures means { Decides result (value_of self ≡ value_of other) }
        ensures value { Decides result (stored self ≡ stored other) }
    {
        self.settled() == other.settled()
    }
}
