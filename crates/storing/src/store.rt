//! Storing a draft as bytes.
ghost use Rattle.std.specs.Prelude.{◌≡◌, ◌+◌, ◌<◌, ◌≤◌, List, length, take, IfOk, MatchOption};
ghost use Rattle.reading.specs.Splice.{Written};
ghost use Rattle.codec.specs.Coded.{RoomLeft};
ghost use Rattle.sheets.specs.Sheet.{blank};
ghost use Rattle.sheets.specs.Questions.{at};
ghost use Rattle.sheets.specs.Calls.{laid};
ghost use Rattle.calls.specs.Spell.{spell, spells};
ghost use Rattle.loading.specs.Load.{loading};
ghost use Rattle.storing.specs.Left.{calls_left};
ghost use Rattle.storing.specs.Store.{storing, LoadsAs};

use crate::calls_of::Calls;
use calls::kind::Kind;
use codec::coded::Coded;
use codec::entry;
use drafts::draft::Draft;
use faults::StoreFault;
use sheets::call::Call;

// What is left of a room after a call's entries, if they fit in it. A match, here and where a call is written: each
// case has its own width and bytes, and a rule has its weight behind them.
fn call_fits<W: Coded>(call: Call<W>, room: usize) -> Option<usize>
    ensures { RoomLeft (length (spell W.Coded.bytes call)) room result }
{
    match call {
        Call::Size(_) => room.checked_sub(Kind::Size.width()),
        Call::Rule(_, _) => W::fits(room.checked_sub(Kind::Rule.width())?),
        Call::Arrow(_) => room.checked_sub(Kind::Arrow.width()),
        Call::Final(_) => room.checked_sub(Kind::Final.width()),
    }
}

// What is left of a room after the entries of all calls, if they fit in it.
fn all_fit<W: Coded>(calls: Calls<'_, W>, room: usize) -> Option<usize>
    ensures { RoomLeft (length (spells W.Coded.bytes (calls_left calls.entry))) room result }
{
    let mut rest = room;
    for call in calls {
        rest = call_fits(call, rest)?;
    }
    Some(rest)
}

// Writes the entries of a call, which have room, to the front of the buffer, and says how many bytes they are. An
// option, though it is never `None`: what writes an entry answers an option, and `?` hands it on.
fn write_call<W: Coded>(call: Call<W>, out: &mut [u8]) -> Option<usize>
    requires { length (spell W.Coded.bytes call) ≤ length out.old }
    ensures { MatchOption result ⊥ (Written (length (spell W.Coded.bytes call)) (spell W.Coded.bytes call) out.old out.new) }
{
    match call {
        Call::Size(counts) => {
            let [high, low] = counts.symbols.to_be_bytes();
            let body = [counts.controls, high, low, counts.states];
            entry::write(out, Kind::Size as u8, &body)
        }
        Call::Rule(form, weight) => {
            let body = [
                form.from,
                form.symbol,
                form.to,
                form.length,
                form.first,
                form.second,
            ];
            let head = entry::write(out, Kind::Rule as u8, &body)?;
            let tail = weight.write(&mut out[head..])?;
            Some(head + tail)
        }
        Call::Arrow(arrow) => {
            let body = [arrow.from, arrow.symbol, arrow.to];
            entry::write(out, Kind::Arrow as u8, &body)
        }
        Call::Final(state) => entry::write(out, Kind::Final as u8, &[state]),
    }
}

// Writes the entries of all calls, which have room, to the front of the buffer, and says how many bytes they are.
fn write_all<W: Coded>(calls: Calls<'_, W>, out: &mut [u8]) -> Option<usize>
    requires { length (spells W.Coded.bytes (calls_left calls)) ≤ length out.old }
    ensures { let bytes = spells W.Coded.bytes (calls_left calls.entry) in MatchOption result ⊥ (Written (length bytes) bytes out.old out.new) }
{
    let mut at = 0;
    for call in calls {
        at += write_call(call, &mut out[at..])?;
    }
    Some(at)
}

// Writes the entries of the calls that make the draft's sheet to the front of the buffer, and says how many bytes
// they are. A refused store writes nothing, so it asks for all the room before it writes. What was stored loads as
// itself into a new draft whose strip has a cell for each rule. The strip comes beside the draft, since it is lent.
pub fn store<W: Coded>(draft: &Draft, strip: &[W], out: &mut [u8]) -> Result<usize, StoreFault>
    ensures answer { result ≡ (storing W.Coded.bytes draft.now strip.now out.old).answer }
    ensures buffer { out.new ≡ (storing W.Coded.bytes draft.now strip.now out.old).buffer }
    ensures back { IfOk result (λ n. (t : List W) → length draft.now.rules ≤ length t → LoadsAs W.Weight.meaning n (loading W.Coded.look (take n out.new) (at blank t)) (at draft.now (laid (take (length draft.now.rules) strip.now) t))) }
{
    let calls = Calls::of(draft, strip).ok_or(StoreFault::ShortStrip)?;
    all_fit(calls, out.len()).ok_or(StoreFault::NoRoom)?;
    write_all(calls, out).ok_or(StoreFault::NoRoom)
}
