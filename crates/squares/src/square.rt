//! Squares of weights, with rows and columns 0 and 1.
ghost use Rattle.std.specs.Prelude.{◌≡◌, true, Decides};
ghost use Rattle.squares.specs.Squares.{square, quad, dot};

use weights::weight::Weight;

// The part at row i and column j is `wij`. Parts by name, and not by index: contracts speak of each part.
// No `PartialEq`: squares that are stored otherwise may mean one value, and `same` says so.
#[derive(Debug, Clone, Copy)]
pub struct Square<W> {
    pub w00: W,
    pub w01: W,
    pub w10: W,
    pub w11: W,
}

// One part of a product: a row of the left square at a column of the right one.
fn row_at<W: Weight>(row: (W, W), column: (W, W)) -> W
    ensures { W.meaning result ≡ dot W.algebra (W.meaning row.0) (W.meaning row.1) (W.meaning column.0) (W.meaning column.1) }
{
    row.0.extend(column.0).combine(row.1.extend(column.1))
}

// Each function has the interface's clause, `means`, and says what each part holds.
impl<W: Weight> Weight for Square<W> {
    ghost algebra = { square W.algebra };

    ghost meaning = { λ x. quad (W.meaning x.w00) (W.meaning x.w01) (W.meaning x.w10) (W.meaning x.w11) };

    fn zero() -> Self
        ensures means { ⟦<Self as Weight>⟧.meaning result ≡ ⟦<Self as Weight>⟧.algebra.zero }
        ensures w00 { W.meaning result.w00 ≡ W.algebra.zero }
        ensures w01 { W.meaning result.w01 ≡ W.algebra.zero }
        ensures w10 { W.meaning result.w10 ≡ W.algebra.zero }
        ensures w11 { W.meaning result.w11 ≡ W.algebra.zero }
    {
        Square {
            w00: W::zero(),
            w01: W::zero(),
            w10: W::zero(),
            w11: W::zero(),
        }
    }

    fn one() -> Self
        ensures means { ⟦<Self as Weight>⟧.meaning result ≡ ⟦<Self as Weight>⟧.algebra.one }
        ensures w00 { W.meaning result.w00 ≡ W.algebra.one }
        ensures w01 { W.meaning result.w01 ≡ W.algebra.zero }
        ensures w10 { W.meaning result.w10 ≡ W.algebra.zero }
        ensures w11 { W.meaning result.w11 ≡ W.algebra.one }
    {
        Square {
            w00: W::one(),
            w01: W::zero(),
            w10: W::zero(),
            w11: W::one(),
        }
    }

    fn combine(self, other: Self) -> Self
        ensures means { ⟦<Self as Weight>⟧.meaning result ≡ ⟦<Self as Weight>⟧.algebra.combine (⟦<Self as Weight>⟧.meaning self) (⟦<Self as Weight>⟧.meaning other) }
        ensures w00 { W.meaning result.w00 ≡ W.algebra.combine (W.meaning self.w00) (W.meaning other.w00) }
        ensures w01 { W.meaning result.w01 ≡ W.algebra.combine (W.meaning self.w01) (W.meaning other.w01) }
        ensures w10 { W.meaning result.w10 ≡ W.algebra.combine (W.meaning self.w10) (W.meaning other.w10) }
        ensures w11 { W.meaning result.w11 ≡ W.algebra.combine (W.meaning self.w11) (W.meaning other.w11) }
    {
        Square {
            w00: self.w00.combine(other.w00),
            w01: self.w01.combine(other.w01),
            w10: self.w10.combine(other.w10),
            w11: self.w11.combine(other.w11),
        }
    }

    fn extend(self, other: Self) -> Self
        ensures means { ⟦<Self as Weight>⟧.meaning result ≡ ⟦<Self as Weight>⟧.algebra.extend (⟦<Self as Weight>⟧.meaning self) (⟦<Self as Weight>⟧.meaning other) }
        ensures w00 { W.meaning result.w00 ≡ dot W.algebra (W.meaning self.w00) (W.meaning self.w01) (W.meaning other.w00) (W.meaning other.w10) }
        ensures w01 { W.meaning result.w01 ≡ dot W.algebra (W.meaning self.w00) (W.meaning self.w01) (W.meaning other.w01) (W.meaning other.w11) }
        ensures w10 { W.meaning result.w10 ≡ dot W.algebra (W.meaning self.w10) (W.meaning self.w11) (W.meaning other.w00) (W.meaning other.w10) }
        ensures w11 { W.meaning result.w11 ≡ dot W.algebra (W.meaning self.w10) (W.meaning self.w11) (W.meaning other.w01) (W.meaning other.w11) }
    {
        let (upper, lower) = ((self.w00, self.w01), (self.w10, self.w11));
        let (left, right) = ((other.w00, other.w10), (other.w01, other.w11));
        Square {
            w00: row_at(upper, left),
            w01: row_at(upper, right),
            w10: row_at(lower, left),
            w11: row_at(lower, right),
        }
    }

    fn same(self, other: Self) -> bool
        ensures means { Decides result (⟦<Self as Weight>⟧.meaning self ≡ ⟦<Self as Weight>⟧.meaning other) }
        ensures parts { Decides result ((W.meaning self.w00 ≡ W.meaning other.w00) × (W.meaning self.w01 ≡ W.meaning other.w01) × (W.meaning self.w10 ≡ W.meaning other.w10) × (W.meaning self.w11 ≡ W.meaning other.w11)) }
    {
        self.w00.same(other.w00)
            && self.w01.same(other.w01)
            && self.w10.same(other.w10)
            && self.w11.same(other.w11)
    }
}
