//! A length's entry: kind 17, and the length in two bytes.
ghost use Rattle.std.specs.Prelude.{min, ◌∷◌};
ghost use Rattle.std.specs.Int.{bytes_high_first};
ghost use Rattle.lengths.specs.Entries.{look_length};
ghost use Rattle.lengths.specs.Lengths.{longest};
ghost use Rattle.lengths.specs.EntriesLemmas.{length_code};

use crate::weight::Length;
use codec::coded::Coded;
use codec::entry;
use reading::fault::EntryFault;
use reading::reader::Reader;

// A constant and no case of an enum: kinds of weight are open, and builders bring their own.
const KIND: u8 = 17;

// The bytes of an entry.
const WIDTH: usize = 3;

impl Coded for Length {
    ghost bytes = { λ x. 17 ∷ bytes_high_first 2 (min x.0 longest) };

    ghost width = { 3 };

    ghost look = { look_length };

    ghost wide = { length_code.wide };

    ghost back = { length_code.back };

    fn read(from: &mut Reader<'_>) -> Result<Length, EntryFault> {
        let body = entry::body(from, KIND)?;
        from.pass(WIDTH);
        Ok(Length(u16::from_be_bytes(body)))
    }

    // One line for each kind of one entry: why it is no default stands at the trait.
    fn fits(room: usize) -> Option<usize> {
        room.checked_sub(WIDTH)
    }

    fn write(self, out: &mut [u8]) -> Option<usize> {
        entry::write(out, KIND, &self.0.to_be_bytes())
    }
}
