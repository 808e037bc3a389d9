//! Relations over eight flags as weights.
ghost use Rattle.std.specs.Prelude.{◌≡◌, ◌-◌, ◌^◌, ◌<◌, true, false, ◌&&◌, ◌||◌, Decides, ◌==◌, count_ones};
ghost use Rattle.bits.specs.Upto.{place};
ghost use Rattle.relations.specs.Relations.{Flag, pairs, relations, IsUnionOfPicked};

use weights::weight::Weight;

// Bit 8 * i + j says that the pair (i, j) is in the relation, so byte i is row i.
#[derive(Clone, Copy, Debug, PartialEq, Eq)]
pub struct Relation(pub u64);

impl Relation {
    // How many of the 64 pairs are not in it.
    pub fn rank(self) -> u32
        ensures number { result ≡ 64 - count_ones self.0 }
        ensures falling { result ≡ relations.rank (pairs self.0) }
    {
        self.0.count_zeros()
    }
}

// The rows that `picks` names, united.
fn united(picks: u8, rows: [u8; 8]) -> u8
    ensures { IsUnionOfPicked picks rows result }
{
    // A loop: a chain was tried, and its closures do not know that `j` is below 8.
    let mut all = 0;
    for (j, row) in rows.iter().enumerate() {
        if (picks >> j) & 1 == 1 {
            all |= row;
        }
    }
    all
}

impl Weight for Relation {
    ghost algebra = { relations };

    ghost meaning = { λ x. pairs x.0 };

    fn zero() -> Relation
        ensures means { pairs result.0 ≡ relations.zero }
        ensures none { (i j : Flag) → pairs result.0 i j ≡ false }
    {
        Relation(0)
    }

    fn one() -> Relation
        ensures means { pairs result.0 ≡ relations.one }
        ensures own { (i j : Flag) → pairs result.0 i j ≡ (place 8 i == place 8 j) }
    {
        Relation(0x8040_2010_0804_0201)
    }

    fn combine(self, other: Relation) -> Relation
        ensures means { pairs result.0 ≡ relations.combine (pairs self.0) (pairs other.0) }
        ensures either { (i j : Flag) → pairs result.0 i j ≡ (pairs self.0 i j || pairs other.0 i j) }
    {
        Relation(self.0 | other.0)
    }

    fn extend(self, other: Relation) -> Relation
        ensures means { pairs result.0 ≡ relations.extend (pairs self.0) (pairs other.0) }
        ensures way { (i k : Flag) → Decides (pairs result.0 i k) ((j : Flag) × ((pairs self.0 i j ≡ true) × (pairs other.0 j k ≡ true))) }
    {
        let rows = other.0.to_le_bytes();
        let mut composed = self.0.to_le_bytes();
        // In place, and not by `map`, which goes by way of an array of options and takes twice the time.
        for row in &mut composed {
            *row = united(*row, rows);
        }
        Relation(u64::from_le_bytes(composed))
    }

    fn same(self, other: Relation) -> bool
        ensures means { Decides result (pairs self.0 ≡ pairs other.0) }
        ensures pairwise { Decides result ((i j : Flag) → pairs self.0 i j ≡ pairs other.0 i j) }
        ensures number { Decides result (self.0 ≡ other.0) }
    {
        self == other
    }
}
