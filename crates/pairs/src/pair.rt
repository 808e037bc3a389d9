//! Two weights side by side, worked part by part.
ghost use Rattle.std.specs.Prelude.{◌≡◌, true, Decides};
ghost use Rattle.pairs.specs.Pairs.{pair, both};

use weights::weight::Weight;

// No `PartialEq`: pairs that are stored otherwise may mean one value, and `same` says so.
#[derive(Debug, Clone, Copy)]
pub struct Pair<A, B> {
    pub first: A,
    pub second: B,
}

// Each function has the interface's clause, `means`, and says what each part holds.
impl<A: Weight, B: Weight> Weight for Pair<A, B> {
    ghost algebra = { pair A.algebra B.algebra };

    ghost meaning = { λ x. both (A.meaning x.first) (B.meaning x.second) };

    fn zero() -> Self
        ensures means { ⟦<Self as Weight>⟧.meaning result ≡ ⟦<Self as Weight>⟧.algebra.zero }
        ensures first { A.meaning result.first ≡ A.algebra.zero }
        ensures second { B.meaning result.second ≡ B.algebra.zero }
    {
        Pair {
            first: A::zero(),
            second: B::zero(),
        }
    }

    fn one() -> Self
        ensures means { ⟦<Self as Weight>⟧.meaning result ≡ ⟦<Self as Weight>⟧.algebra.one }
        ensures first { A.meaning result.first ≡ A.algebra.one }
        ensures second { B.meaning result.second ≡ B.algebra.one }
    {
        Pair {
            first: A::one(),
            second: B::one(),
        }
    }

    fn combine(self, other: Self) -> Self
        ensures means { ⟦<Self as Weight>⟧.meaning result ≡ ⟦<Self as Weight>⟧.algebra.combine (⟦<Self as Weight>⟧.meaning self) (⟦<Self as Weight>⟧.meaning other) }
        ensures first { A.meaning result.first ≡ A.algebra.combine (A.meaning self.first) (A.meaning other.first) }
        ensures second { B.meaning result.second ≡ B.algebra.combine (B.meaning self.second) (B.meaning other.second) }
    {
        Pair {
            first: self.first.combine(other.first),
            second: self.second.combine(other.second),
        }
    }

    fn extend(self, other: Self) -> Self
        ensures means { ⟦<Self as Weight>⟧.meaning result ≡ ⟦<Self as Weight>⟧.algebra.extend (⟦<Self as Weight>⟧.meaning self) (⟦<Self as Weight>⟧.meaning other) }
        ensures first { A.meaning result.first ≡ A.algebra.extend (A.meaning self.first) (A.meaning other.first) }
        ensures second { B.meaning result.second ≡ B.algebra.extend (B.meaning self.second) (B.meaning other.second) }
    {
        Pair {
            first: self.first.extend(other.first),
            second: self.second.extend(other.second),
        }
    }

    fn same(self, other: Self) -> bool
        ensures means { Decides result (⟦<Self as Weight>⟧.meaning self ≡ ⟦<Self as Weight>⟧.meaning other) }
        ensures parts { Decides result ((A.meaning self.first ≡ A.meaning other.first) × (B.meaning self.second ≡ B.meaning other.second)) }
    {
        self.first.same(other.first) && self.second.same(other.second)
    }
}
