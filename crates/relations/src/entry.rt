//! A relation's entry: kind 16, and its 64 bits in eight bytes.
ghost use Rattle.std.specs.Prelude.{◌∷◌};
ghost use Rattle.std.specs.Int.{bytes_high_first};
ghost use Rattle.relations.specs.Entries.{look_relation};
ghost use Rattle.relations.specs.EntriesLemmas.{relation_code};

use crate::weight::Relation;
use codec::coded::Coded;
use codec::entry;
use reading::fault::EntryFault;
use reading::reader::Reader;

// A constant and no case of an enum: kinds of weight are open, and builders bring their own.
const KIND: u8 = 16;

// The bytes of an entry.
const WIDTH: usize = 9;

impl Coded for Relation {
    ghost bytes = { λ x. 16 ∷ bytes_high_first 8 x.0 };

    ghost width = { 9 };

    ghost look = { look_relation };

    ghost wide = { relation_code.wide };

    ghost back = { relation_code.back };

    fn read(from: &mut Reader<'_>) -> Result<Relation, EntryFault> {
        let body = entry::body(from, KIND)?;
        from.pass(WIDTH);
        Ok(Relation(u64::from_be_bytes(body)))
    }

    // One line for each kind of one entry: why it is no default stands at the trait.
    fn fits(room: usize) -> Option<usize> {
        room.checked_sub(WIDTH)
    }

    fn write(self, out: &mut [u8]) -> Option<usize> {
        entry::write(out, KIND, &self.0.to_be_bytes())
    }
}
