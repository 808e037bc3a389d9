//! A square's entries: those of its parts, row by row.
ghost use Rattle.std.specs.Prelude.{◌+◌, ◌++◌};
ghost use Rattle.codec.specs.Coded.{look_square};
ghost use Rattle.codec.specs.Codes.{code};
ghost use Rattle.codec.specs.Pairs.{square_code};

use crate::coded::Coded;
use reading::fault::EntryFault;
use reading::reader::Reader;
use squares::square::Square;

impl<W: Coded> Coded for Square<W> {
    ghost bytes = { λ x. W.Coded.bytes x.w00 ++ (W.Coded.bytes x.w01 ++ (W.Coded.bytes x.w10 ++ W.Coded.bytes x.w11)) };

    ghost width = { W.Coded.width + (W.Coded.width + (W.Coded.width + W.Coded.width)) };

    ghost look = { look_square W.Coded.look };

    ghost wide = { (square_code (code W.Coded.look W.Weight.meaning W.Coded.bytes W.Coded.width W.Coded.wide W.Coded.back)).wide };

    ghost back = { (square_code (code W.Coded.look W.Weight.meaning W.Coded.bytes W.Coded.width W.Coded.wide W.Coded.back)).back };

    fn read(from: &mut Reader<'_>) -> Result<Square<W>, EntryFault> {
        let w00 = W::read(from)?;
        let w01 = W::read(from)?;
        let w10 = W::read(from)?;
        let w11 = W::read(from)?;
        Ok(Square { w00, w01, w10, w11 })
    }

    fn fits(room: usize) -> Option<usize> {
        W::fits(W::fits(W::fits(W::fits(room)?)?)?)
    }

    // There is room for all before the first is written.
    fn write(self, out: &mut [u8]) -> Option<usize> {
        Self::fits(out.len())?;
        let mut n = self.w00.write(out)?;
        n += self.w01.write(&mut out[n..])?;
        n += self.w10.write(&mut out[n..])?;
        n += self.w11.write(&mut out[n..])?;
        Some(n)
    }
}
