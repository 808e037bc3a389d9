//! Bytes into a lent buffer.
ghost use Rattle.std.specs.Prelude.{length};
ghost use Rattle.reading.specs.Places.{WroteAt};
ghost use Rattle.reading.specs.Splice.{Wrote};

// Writes the bytes to the front of the buffer, and says how many they are. It writes nothing if they have no room.
pub fn put(out: &mut [u8], bytes: &[u8]) -> Option<usize>
    ensures { Wrote (length bytes.now) bytes.now out.old out.new result }
{
    if out.len() < bytes.len() {
        return None;
    }
    out[..bytes.len()].copy_from_slice(bytes);
    Some(bytes.len())
}

// Writes the bytes over those from a place on, and says where they end. It writes nothing if they have no room there,
// also where the place is past the end.
pub fn put_at(out: &mut [u8], at: usize, bytes: &[u8]) -> Option<usize>
    ensures { WroteAt at (length bytes.now) bytes.now out.old out.new result }
{
    if out.len() < at {
        return None;
    }
    let n = put(&mut out[at..], bytes)?;
    Some(at + n)
}
