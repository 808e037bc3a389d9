//! A kind of weight of a builder's own, made through the public interface of `weights` alone: the widest bottleneck.
//!
//! A kind needs three things.
//! 1. Its algebra: a `Semiring` with all its laws, here `widths` of specs/Widths.antt.
//! 2. A `Copy` type that is stored, here `Width`, and what each stored value means in that algebra.
//! 3. An `impl` of `Weight` whose functions answer with the algebra's values.
//!
//! A one-valued algebra keeps every clause of the interface, so each function here has a clause of its own as
//! well, which says in numbers what it answers. Clauses of its own stand in place of the interface's where it is
//! called on `Width` itself, so the interface's clause is repeated here as `means`.
#![tactic(auto)]

ghost use Rattle.std.specs.Prelude.{◌≡◌, min, max, Decides};
ghost use Rattle.bottleneck.specs.Widths.{widths, width, widest};

use weights::weight::Weight;

const WIDEST: u16 = u16::MAX;

// How wide a load passes a run: as wide as its narrowest rule. Nothing passes at width 0, which is no run at all.
#[derive(Clone, Copy, Debug, PartialEq, Eq)]
pub struct Width(pub u16);

#[tactic(auto, using(crate::specs::Widths::width_is, crate::proofs::Stored::width_same))]
impl Weight for Width {
    ghost algebra = { widths };

    ghost meaning = { λ x. width x.0 };

    fn zero() -> Width
        ensures means { width result.0 ≡ widths.zero }
        ensures value { result.0 ≡ 0 }
    {
        Width(0)
    }

    // A run that applies no rule narrows nothing.
    fn one() -> Width
        ensures means { width result.0 ≡ widths.one }
        ensures value { result.0 ≡ widest }
    {
        Width(WIDEST)
    }

    // Of two runs the load takes the wider.
    fn combine(self, other: Width) -> Width
        ensures means { width result.0 ≡ widths.combine (width self.0) (width other.0) }
        ensures value { result.0 ≡ max self.0 other.0 }
    {
        Width(self.0.max(other.0))
    }

    // Through both the load has to pass the narrower.
    fn extend(self, other: Width) -> Width
        ensures means { width result.0 ≡ widths.extend (width self.0) (width other.0) }
        ensures value { result.0 ≡ min self.0 other.0 }
    {
        Width(self.0.min(other.0))
    }

    fn same(self, other: Width) -> bool
        ensures means { Decides result (width self.0 ≡ width other.0) }
        ensures value { Decides result (self.0 ≡ other.0) }
    {
        self == other
    }
}
