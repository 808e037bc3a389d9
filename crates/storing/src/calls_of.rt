//! The calls that make a draft's sheet again, in the order in which they are stored.
ghost use Rattle.std.specs.Prelude.{◌≡◌, ◌+◌, ◌≤◌, length};

use drafts::draft::Draft;
use sheets::call::{Arrow, Call, Counts, Rule};

// The states that are marked as final, rising: those of the flags that are left.
#[derive(Clone, Copy)]
struct Finals<'a> {
    // The state of the first flag.
    state: usize,
    flags: &'a [bool],
    ghost few: { state + length flags.now ≤ 256 },
}

impl Iterator for Finals<'_> {
    ghost use Rattle.std.specs.Iterator.{YieldsFirst, item_count};
    ghost use Rattle.storing.specs.Left.{finals_left};

    type Item = u8;

    ghost next_gives = { YieldsFirst finals_left };

    ghost remaining = { item_count finals_left };

    fn next(&mut self) -> Option<u8> {
        let ahead = self.flags.iter().position(|flag| *flag)?;
        let state = self.state + ahead;
        self.state = state + 1;
        self.flags = &self.flags[ahead + 1..];
        Some(state as u8)
    }
}

// The calls that are left: the size if it is set, the rules with their weights, the arrows, the finals. They are
// `Copy`, since a store goes over them twice. A struct of its own, and not a chain of the library's iterators, which is no
// plainer: with its closures it has no type that a function could name, so it would stand twice, and the contract of `Zip`
// does not say what is left once it has ended.
#[derive(Clone, Copy)]
pub(crate) struct Calls<'a, W> {
    size: Option<Counts>,
    rules: &'a [Rule],
    strip: &'a [W],
    arrows: &'a [Arrow],
    finals: Finals<'a>,
}

impl<'a, W: Copy> Calls<'a, W> {
    ghost use Rattle.std.specs.Prelude.{◌≡◌, ◌≤◌, ◌↔◌, length, IsSome, IfSome};
    ghost use Rattle.std.specs.Iterator.{YieldsFirst};
    ghost use Rattle.sheets.specs.Calls.{calls_of};
    ghost use Rattle.sheets.specs.Sheet.{Fits};
    ghost use Rattle.storing.specs.Left.{calls_left};

    // All calls that make the draft's sheet, if the strip has a cell for each rule.
    pub(crate) fn of(draft: &'a Draft, strip: &'a [W]) -> Option<Self>
        ensures enough { IsSome result ↔ (length draft.now.rules ≤ length strip.now) }
        ensures fits { Fits draft.now }
        ensures all { IfSome result (λ calls. calls_left calls ≡ calls_of draft.now strip.now) }
    {
        let rules = draft.rules();
        if strip.len() < rules.len() {
            return None;
        }
        Some(Calls {
            size: draft.sized(),
            rules,
            strip,
            arrows: draft.arrows(),
            finals: Finals {
                state: 0,
                flags: draft.finals(),
            },
        })
    }

    // The next call behind the size.
    fn addition(&mut self) -> Option<Call<W>>
        requires { self.old.size ≡ None }
        ensures { YieldsFirst calls_left self.old result self.new }
    {
        if let Some((rule, rules)) = self.rules.split_first()
            && let Some((weight, strip)) = self.strip.split_first()
        {
            self.rules = rules;
            self.strip = strip;
            return Some(Call::Rule((*rule).into(), *weight));
        }
        if let Some((arrow, arrows)) = self.arrows.split_first() {
            self.arrows = arrows;
            return Some(Call::Arrow(*arrow));
        }
        let state = self.finals.next()?;
        Some(Call::Final(state))
    }
}

impl<W: Copy> Iterator for Calls<'_, W> {
    ghost use Rattle.std.specs.Iterator.{YieldsFirst, item_count};
    ghost use Rattle.storing.specs.Left.{calls_left};

    type Item = Call<W>;

    ghost next_gives = { YieldsFirst calls_left };

    ghost remaining = { item_count calls_left };

    fn next(&mut self) -> Option<Call<W>> {
        match self.size.take() {
            Some(counts) => Some(Call::Size(counts)),
            None => self.addition(),
        }
    }
}
