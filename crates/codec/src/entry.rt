//! One entry: a byte of kind, then a body whose length the kind fixes.
ghost use Rattle.std.specs.Prelude.{◌≡◌, ◌+◌, ◌∷◌, length};
ghost use Rattle.reading.specs.Splice.{Wrote};
ghost use Rattle.codec.specs.Look.{due};

use reading::fault::EntryFault;
use reading::put::put;
use reading::reader::Reader;

// Each kind makes its value of the body, and passes the entry, by itself: a maker that was handed in as a closure would
// be known by its `post` alone, and the looks that contracts name are functions.
//
// The body of the next entry, which has to be of the kind. The reader stays before the entry, so that it stands
// there too if the body turns out to be no value.
pub fn body<const N: usize>(from: &Reader<'_>, kind: u8) -> Result<[u8; N], EntryFault>
    ensures { result ≡ (due kind N from.now.left).answer }
{
    let entry = from.rest();
    match entry {
        [k, rest @ ..] if *k == kind => {
            // Asked of the whole entry, as the reader asks when it goes past: so a reading tests its length once.
            if entry.len() <= N {
                return Err(EntryFault::Cut);
            }
            rest.first_chunk().copied().ok_or(EntryFault::Cut)
        }
        _ => Err(EntryFault::Due),
    }
}

// Writes an entry to the front of the buffer, and says how many bytes it is. It writes nothing if the entry has no
// room.
pub fn write(out: &mut [u8], kind: u8, body: &[u8]) -> Option<usize>
    ensures { Wrote (length body.now + 1) (kind ∷ body.now) out.old out.new result }
{
    let (first, rest) = out.split_first_mut()?;
    let n = put(rest, body)?;
    *first = kind;
    Some(n + 1)
}
