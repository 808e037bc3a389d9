//! A pair's entries: those of the first, then those of the second.
ghost use Rattle.std.specs.Prelude.{◌+◌, ◌++◌};
ghost use Rattle.codec.specs.Coded.{look_pair};
ghost use Rattle.codec.specs.Codes.{code};
ghost use Rattle.codec.specs.Pairs.{pair_code};

use crate::coded::Coded;
use pairs::pair::Pair;
use reading::fault::EntryFault;
use reading::reader::Reader;

impl<A: Coded, B: Coded> Coded for Pair<A, B> {
    ghost bytes = { λ x. A.Coded.bytes x.first ++ B.Coded.bytes x.second };

    ghost width = { A.Coded.width + B.Coded.width };

    ghost look = { look_pair A.Coded.look B.Coded.look };

    ghost wide = { (pair_code (code A.Coded.look A.Weight.meaning A.Coded.bytes A.Coded.width A.Coded.wide A.Coded.back)
        (code B.Coded.look B.Weight.meaning B.Coded.bytes B.Coded.width B.Coded.wide B.Coded.back)).wide };

    ghost back = { (pair_code (code A.Coded.look A.Weight.meaning A.Coded.bytes A.Coded.width A.Coded.wide A.Coded.back)
        (code B.Coded.look B.Weight.meaning B.Coded.bytes B.Coded.width B.Coded.wide B.Coded.back)).back };

    fn read(from: &mut Reader<'_>) -> Result<Pair<A, B>, EntryFault> {
        let first = A::read(from)?;
        let second = B::read(from)?;
        Ok(Pair { first, second })
    }

    fn fits(room: usize) -> Option<usize> {
        B::fits(A::fits(room)?)
    }

    // There is room for both before the first is written.
    fn write(self, out: &mut [u8]) -> Option<usize> {
        Self::fits(out.len())?;
        let first = self.first.write(out)?;
        let second = self.second.write(&mut out[first..])?;
        Some(first + second)
    }
}
