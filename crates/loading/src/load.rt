//! Loading a draft from bytes.
ghost use Rattle.std.specs.Prelude.{◌≡◌, not, length, Ok, MatchResult};
ghost use Rattle.sheets.specs.Sheet.{blank};
ghost use Rattle.sheets.specs.Questions.{at};
ghost use Rattle.sheets.specs.Calls.{InOrder};
ghost use Rattle.loading.specs.Load.{ends, spot_of, loading, calls_in, Called, Failed};
ghost use Rattle.calls.specs.Spell.{stored};

use calls::make::make;
use calls::read::read_call;
use codec::coded::Coded;
use drafts::draft::Draft;
use faults::{LoadFault, Spot};
use reading::reader::Reader;

// The kind of the first entry that is a question about the sheet: a load ends before it. It spells no call, so it is no
// case of their kinds.
const QUESTION: u8 = 5;

// Whether there is an entry to load: a load ends with the bytes, or before a question.
fn more(from: &Reader<'_>) -> bool
    ensures { result ≡ not (ends from.now.left) }
{
    match from.rest() {
        [] | [QUESTION, ..] => false,
        _ => true,
    }
}

// Which entry is next.
fn next_spot(from: &Reader<'_>) -> Spot
    ensures { result ≡ spot_of from.now }
{
    Spot {
        entry: from.number(),
        place: from.place(),
    }
}

// Reads the next call and makes it. A fault in reading is named by the entry that the reader stands at then, and
// a refusal by the entry of the call.
fn load_call<W: Coded>(
    draft: &mut Draft,
    strip: &mut [W],
    from: &mut Reader<'_>,
) -> Result<(), LoadFault>
    ensures { MatchResult result (λ _. Called W.Coded.look W.Coded.bytes from.old from.new (at draft.old strip.old) (at draft.new strip.new)) (Failed W.Coded.look from.old (at draft.old strip.old) (at draft.new strip.new)) }
{
    let start = next_spot(from);
    let read = read_call::<W>(from);
    let stop = next_spot(from);
    let call = read.map_err(|fault| (stop, fault))?;
    make(draft, strip, call).map_err(|fault| (start, fault))?;
    Ok(())
}

// Makes the calls that the bytes spell, and says how many bytes that took. A refused load keeps what the entries
// before the refusal added. Bytes in stored order that load whole into a new draft are stored again byte for byte.
// The strip comes beside the draft, since it is lent.
pub fn load<W: Coded>(draft: &mut Draft, strip: &mut [W], bytes: &[u8]) -> Result<usize, LoadFault>
    ensures state { at draft.new strip.new ≡ (loading W.Coded.look bytes.now (at draft.old strip.old)).state }
    ensures answer { result ≡ (loading W.Coded.look bytes.now (at draft.old strip.old)).answer }
    ensures again { draft.old ≡ blank → result ≡ Ok (length bytes.now) → InOrder (calls_in W.Coded.look bytes.now) → stored W.Coded.bytes draft.new strip.new ≡ bytes.now }
{
    let mut reader = Reader::new(bytes);
    while more(&reader) {
        load_call(draft, strip, &mut reader)?;
    }
    Ok(reader.place())
}
