//! Values of facts that keep the rule: no fact is both made and unmade.
ghost use Rattle.std.specs.Prelude.{◌≡◌, true, false, MatchOption, bit_and};
ghost use Rattle.effects.specs.Facts.{Fact, disjoint, effects, either, later};
ghost use Rattle.effects.specs.Sets.{union, intersection, difference};

// A set of facts that are made, and one of facts that are unmade.
// Not a model, which would hide `apart`: each contract that hands on a value would have to say it again.
#[derive(Clone, Copy, Debug, PartialEq, Eq)]
pub struct Known {
    made: u16,
    unmade: u16,
    ghost apart: { bit_and made unmade ≡ 0 },
}

impl Known {
    // The value with these sets, or `None` where a fact is in both: there is no more to tell of it than that.
    pub fn of(made: u16, unmade: u16) -> Option<Known>
        ensures { MatchOption result (disjoint made unmade ≡ false) (λ k. (disjoint made unmade ≡ true) × (k.made ≡ made) × (k.unmade ≡ unmade)) }
    {
        if made & unmade == 0 {
            Some(Known { made, unmade })
        } else {
            None
        }
    }

    pub fn made(self) -> u16
        ensures { result ≡ self.made }
    {
        self.made
    }

    pub fn unmade(self) -> u16
        ensures { result ≡ self.unmade }
    {
        self.unmade
    }

    // What either run does: it makes what one of them makes, and unmakes only what both unmake.
    pub fn combine(self, other: Known) -> Known
        ensures made { result.made ≡ union self.made other.made }
        ensures unmade { result.unmade ≡ intersection self.unmade other.unmade }
        ensures each { (k : Fact) → effects result.made result.unmade k ≡ either (effects self.made self.unmade k) (effects other.made other.unmade k) }
    {
        Known {
            made: self.made | other.made,
            unmade: self.unmade & other.unmade,
        }
    }

    // What one run after the other does: the second has the last word on each fact that it does not keep.
    pub fn extend(self, other: Known) -> Known
        ensures made { result.made ≡ union other.made (difference self.made other.unmade) }
        ensures unmade { result.unmade ≡ union other.unmade (difference self.unmade other.made) }
        ensures each { (k : Fact) → effects result.made result.unmade k ≡ later (effects self.made self.unmade k) (effects other.made other.unmade k) }
    {
        Known {
            made: other.made | (self.made & !other.unmade),
            unmade: other.unmade | (self.unmade & !other.made),
        }
    }
}
