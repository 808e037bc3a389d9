//! The interface of a kind of weight.
ghost use Rattle.std.specs.Prelude.{◌≡◌, Decides};
ghost use Rattle.weights.specs.Semiring.{Semiring, Absorbs};

// A kind of weight. Its algebra is a semiring with all its laws; each stored weight means one value of it,
// and every function answers with that algebra's value. None of them refuses.
pub trait Weight: Copy {
    ghost algebra: { Semiring };

    ghost meaning: { Self → algebra.Value };

    // The weight of no run at all.
    fn zero() -> Self
        ensures { meaning result ≡ algebra.zero };

    // The weight of the run that applies no rule.
    fn one() -> Self
        ensures { meaning result ≡ algebra.one };

    // The weight of either.
    fn combine(self, other: Self) -> Self
        ensures { meaning result ≡ algebra.combine (meaning self) (meaning other) };

    // The weight of one after the other.
    fn extend(self, other: Self) -> Self
        ensures { meaning result ≡ algebra.extend (meaning self) (meaning other) };

    // Whether both mean one value. This is not `==`, since what is stored may differ.
    fn same(self, other: Self) -> bool
        ensures { Decides result (meaning self ≡ meaning other) };

    // Whether combining the other into this one changes nothing.
    fn absorbs(self, other: Self) -> bool
        ensures { Decides result (Absorbs algebra (meaning self) (meaning other)) }
    {
        self.combine(other).same(self)
    }
}
