//! The entry of facts: kind 18, a byte that is 1 for none and 0 else, then the facts that are made and those
//! that are unmade, two bytes each.
ghost use Rattle.std.specs.Prelude.{◌≡◌, ◌∷◌};
ghost use Rattle.facts.specs.Entries.{body, to_facts, look_facts};
ghost use Rattle.facts.specs.EntriesLemmas.{facts_code};

use crate::weight::Facts;
use codec::coded::Coded;
use codec::entry;
use effects::known::Known;
use reading::fault::EntryFault;
use reading::reader::Reader;
use weights::weight::Weight;

// A constant and no case of an enum: kinds of weight are open, and builders bring their own.
const KIND: u8 = 18;

// The bytes of an entry.
const WIDTH: usize = 6;

impl Facts {
    // Methods, and not `TryFrom` and `From`, which would make the bytes of a body a part of what the type offers.
    //
    // The value that a body's bytes spell: none has both sets empty, and no other value has a fact in both.
    fn from_body(bytes: [u8; 5]) -> Option<Facts>
        ensures { result ≡ to_facts bytes }
    {
        match bytes {
            [1, 0, 0, 0, 0] => Some(Facts::zero()),
            [0, a, b, c, d] => {
                let made = u16::from_be_bytes([a, b]);
                let unmade = u16::from_be_bytes([c, d]);
                Known::of(made, unmade).map(Facts::from)
            }
            _ => None,
        }
    }

    // The bytes of the body. A record that breaks the rule has those of the value that it means, none.
    fn to_body(self) -> [u8; 5]
        ensures { result ≡ body self }
    {
        let Some(known) = self.known() else {
            return [1, 0, 0, 0, 0];
        };
        let [made_high, made_low] = known.made().to_be_bytes();
        let [unmade_high, unmade_low] = known.unmade().to_be_bytes();
        [0, made_high, made_low, unmade_high, unmade_low]
    }
}

impl Coded for Facts {
    ghost bytes = { λ x. 18 ∷ body x };

    ghost width = { 6 };

    ghost look = { look_facts };

    ghost wide = { facts_code.wide };

    ghost back = { facts_code.back };

    fn read(from: &mut Reader<'_>) -> Result<Facts, EntryFault> {
        let facts = Facts::from_body(entry::body(from, KIND)?).ok_or(EntryFault::NoValue)?;
        from.pass(WIDTH);
        Ok(facts)
    }

    // One line for each kind of one entry: why it is no default stands at the trait.
    fn fits(room: usize) -> Option<usize> {
        room.checked_sub(WIDTH)
    }

    fn write(self, out: &mut [u8]) -> Option<usize> {
        entry::write(out, KIND, &self.to_body())
    }
}
