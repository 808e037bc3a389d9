//! The call that the next entries spell.
ghost use Rattle.std.specs.Prelude.{◌≡◌, ◌++◌, IfOk};
ghost use Rattle.codec.specs.Coded.{Read};
ghost use Rattle.calls.specs.Spell.{look_call, spell};

use crate::kind::Kind;
use codec::coded::Coded;
use reading::fault::EntryFault;
use reading::reader::Reader;
use sheets::call::{Arrow, Call, Counts, RuleForm};

// Slice patterns take kind and body apart, as the rule for entries is here; they name each byte of the body once.
//
// A fault leaves the reader before the entry that is at fault, which can be one of the weight's. A call that
// was read spells as its very bytes.
pub fn read_call<W: Coded>(from: &mut Reader<'_>) -> Result<Call<W>, EntryFault>
    ensures reads { Read (look_call W.Coded.look) from.old from.new result }
    ensures spelled { IfOk result (λ c. from.old.left ≡ spell W.Coded.bytes c ++ from.new.left) }
{
    let [kind, body @ ..] = from.rest() else {
        return Err(EntryFault::Unknown);
    };
    let kind = Kind::try_from(*kind)?;
    match (kind, body) {
        (Kind::Size, [controls, hi, lo, states, ..]) => {
            let counts = Counts {
                controls: *controls,
                symbols: u16::from_be_bytes([*hi, *lo]),
                states: *states,
            };
            from.pass(kind.width());
            Ok(Call::Size(counts))
        }
        (Kind::Rule, [p, g, q, length, first, second, ..]) => {
            let form = RuleForm {
                from: *p,
                symbol: *g,
                to: *q,
                length: *length,
                first: *first,
                second: *second,
            };
            from.pass(kind.width());
            let weight = W::read(from)?;
            Ok(Call::Rule(form, weight))
        }
        (Kind::Arrow, [p, g, q, ..]) => {
            let arrow = Arrow {
                from: *p,
                symbol: *g,
                to: *q,
            };
            from.pass(kind.width());
            Ok(Call::Arrow(arrow))
        }
        (Kind::Final, [state, ..]) => {
            from.pass(kind.width());
            Ok(Call::Final(*state))
        }
        _ => Err(EntryFault::Cut),
    }
}
