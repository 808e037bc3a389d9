//! Worked cases of the shipped kinds: exact stored values, drawn from the kinds' contracts alone.
//!
//! The interface of weights leaves room for a kind with one value and constant answers. No such kind could
//! stand in for the ones that are called here.
#![tactic(auto)]

ghost use Rattle.std.specs.Prelude.{true, ◌≡◌, min};
ghost use Rattle.effects.specs.Facts.{facts};
ghost use Rattle.facts.specs.Stored.{sets, value_of};
ghost use Rattle.worked.specs.Cases.{shortest_way, WorkedCases};

use facts::weight::Facts;
use lengths::weight::Length;
use pairs::pair::Pair;
use relations::weight::Relation;
use squares::square::Square;
use weights::weight::Weight;

// From flag 0 to 1, and then from 1 to 3: from 0 to 3.
pub fn one_way() -> Relation
    ensures { result.0 ≡ 0x08 }
{
    Relation(0x02).extend(Relation(0x0800))
}

// The other way round the two do not meet.
pub fn no_way() -> Relation
    ensures { result.0 ≡ 0 }
{
    Relation(0x0800).extend(Relation(0x02))
}

// One step more than the longest run has is no run.
pub fn longest() -> Length
    ensures { result.0 ≡ 65535 }
{
    Length(65_534).extend(Length(1))
}

// Of two runs the shorter counts.
pub fn shorter(m: Length, n: Length) -> Length
    ensures { result.0 ≡ min m.0 n.0 }
{
    m.combine(n)
}

// Makes fact 0 and unmakes fact 1.
const FIRST: Facts = Facts {
    none: false,
    made: 1,
    unmade: 2,
};

// Makes fact 1 and unmakes fact 0.
const SECOND: Facts = Facts {
    none: false,
    made: 2,
    unmade: 1,
};

// Makes both facts.
const BOTH: Facts = Facts {
    none: false,
    made: 3,
    unmade: 0,
};

// The second has the last word on both facts.
pub fn after() -> Facts
    ensures { result ≡ sets 2 1 }
{
    FIRST.extend(SECOND)
}

// One or the other makes each fact, and no fact is unmade by both.
pub fn either() -> Facts
    ensures { result ≡ sets 3 0 }
{
    FIRST.combine(SECOND)
}

// A pair is combined part by part.
pub fn side_by_side(a: Pair<Length, Facts>, b: Pair<Length, Facts>) -> Pair<Length, Facts>
    ensures first { result.first.0 ≡ min a.first.0 b.first.0 }
    ensures second { value_of result.second ≡ facts.combine (value_of a.second) (value_of b.second) }
{
    a.combine(b)
}

// From row i to column j by the shorter of the ways through 0 and through 1.
pub fn two_steps(a: Square<Length>, b: Square<Length>) -> Square<Length>
    ensures w00 { result.w00.0 ≡ shortest_way a.w00.0 b.w00.0 a.w01.0 b.w10.0 }
    ensures w01 { result.w01.0 ≡ shortest_way a.w00.0 b.w01.0 a.w01.0 b.w11.0 }
    ensures w10 { result.w10.0 ≡ shortest_way a.w10.0 b.w00.0 a.w11.0 b.w10.0 }
    ensures w11 { result.w11.0 ≡ shortest_way a.w10.0 b.w01.0 a.w11.0 b.w11.0 }
{
    a.extend(b)
}

// A pile of layers keeps the laws: what a weight already holds adds nothing to it.
pub fn holds_itself(weight: Pair<Square<Length>, Relation>) -> bool
    ensures { result ≡ true }
{
    weight.absorbs(weight)
}

// The cases hold of the algebras, and the stored answers are theirs.
#[tactic(auto, using(crate::proofs::Cases::worked))]
pub fn worked_cases() -> bool
    ensures answer { result ≡ true }
    ensures cases { WorkedCases }
{
    one_way() == Relation(0x08)
        && no_way() == Relation(0)
        && longest() == Length(65_535)
        && after() == SECOND
        && either() == BOTH
}
