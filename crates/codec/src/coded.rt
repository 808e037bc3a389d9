//! The interface of weights that are read and written as entries.
ghost use Rattle.std.specs.Prelude.{◌≡◌, ℕ, ◌+◌, ◌<◌, List, ◌++◌, length, IfOk, MatchOption};
ghost use Rattle.codec.specs.Coded.{Read, ReadsAs, ReadsBack, ReadsBackAt, RoomLeft};
ghost use Rattle.codec.specs.Look.{Look};
ghost use Rattle.reading.specs.Places.{WroteAt};
ghost use Rattle.reading.specs.Splice.{Wrote};

use reading::fault::EntryFault;
use reading::reader::Reader;
use weights::weight::Weight;

// A kind of weight with entries. The width of a weight's entries together is the same for all of the kind.
pub trait Coded: Weight {
    // The bytes of a weight's entries.
    ghost bytes: { Self → List ℕ };

    ghost width: { ℕ };

    // What the front of a list of bytes reads as.
    ghost look: { List ℕ → Look Self };

    // The weight that is next. A fault leaves the reader before the entry that is at fault, and a weight that
    // was read writes as its very bytes.
    fn read(from: &mut Reader<'_>) -> Result<Self, EntryFault>
        ensures reads { Read look from.old from.new result }
        ensures spelled { IfOk result (λ w. from.old.left ≡ bytes w ++ from.new.left) };

    // What is left of a room after a weight's entries, if they fit in it. A kind of one entry takes its own width off; no
    // constant of the trait could stand here, since a pile of layers may be wider than any number of the machine.
    fn fits(room: usize) -> Option<usize>
        ensures { RoomLeft width room result };

    // Writes the entries to the front of the buffer, and says how many bytes they are. It writes nothing if they
    // have no room.
    fn write(self, out: &mut [u8]) -> Option<usize>
        ensures wrote { Wrote width (bytes self) out.old out.new result }
        ensures back { ReadsBack look Self.Weight.meaning (Self.Weight.meaning self) out.new result };

    // Writes the entries over the bytes from a place on, and says where they end. It writes nothing if they have no room
    // there, also where the place is past the end.
    fn write_at(self, out: &mut [u8], at: usize) -> Option<usize>
        ensures wrote { WroteAt at width (bytes self) out.old out.new result }
        ensures back { ReadsBackAt look Self.Weight.meaning (Self.Weight.meaning self) at out.new result }
    {
        if out.len() < at {
            return None;
        }
        let n = self.write(&mut out[at..])?;
        Some(at + n)
    }

    ghost wide: { (x : Self) → length (bytes x) ≡ width };

    // A written weight reads as its value.
    ghost back: { (x : Self) (rest : List ℕ) → ReadsAs look Self.Weight.meaning (Self.Weight.meaning x) (bytes x ++ rest) rest };
}
