//! The length of the shortest run, up to a longest length that stands for no run at all.
ghost use Rattle.std.specs.Prelude.{◌≡◌, min, Decides};
ghost use Rattle.lengths.specs.Lengths.{lengths, capped, longest, summed};

use weights::weight::Weight;

// No run is longer, and a run of this length is as good as none.
const LONGEST: u16 = u16::MAX;

#[derive(Clone, Copy, Debug, PartialEq, Eq)]
pub struct Length(pub u16);

#[tactic(auto, using(crate::specs::Lengths::capped_is, crate::proofs::Stored::capped_same))]
impl Weight for Length {
    ghost algebra = { lengths };

    ghost meaning = { λ x. capped x.0 };

    fn zero() -> Length
        ensures means { capped result.0 ≡ lengths.zero }
        ensures value { result.0 ≡ longest }
    {
        Length(LONGEST)
    }

    fn one() -> Length
        ensures means { capped result.0 ≡ lengths.one }
        ensures value { result.0 ≡ 0 }
    {
        Length(0)
    }

    fn combine(self, other: Length) -> Length
        ensures means { capped result.0 ≡ lengths.combine (capped self.0) (capped other.0) }
        ensures value { result.0 ≡ min self.0 other.0 }
    {
        Length(self.0.min(other.0))
    }

    fn extend(self, other: Length) -> Length
        ensures means { capped result.0 ≡ lengths.extend (capped self.0) (capped other.0) }
        ensures value { result.0 ≡ summed self.0 other.0 }
    {
        Length(self.0.saturating_add(other.0))
    }

    fn same(self, other: Length) -> bool
        ensures means { Decides result (capped self.0 ≡ capped other.0) }
        ensures value { Decides result (self.0 ≡ other.0) }
    {
        self == other
    }
}
