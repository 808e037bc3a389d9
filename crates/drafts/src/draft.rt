//! A draft: a sheet that is being written. Whatever it holds has passed its questions.
ghost use Rattle.std.specs.Prelude.{◌≡◌, length, IfOk};
ghost use Rattle.sheets.specs.Sheet.{Fits, blank, controls, symbols, states};
ghost use Rattle.sheets.specs.Questions.{Took, size_step, rule_step, arrow_step, final_step, at};

use sheets::call::{Arrow, Counts, Rule, RuleForm};
use sheets::fault::SheetFault;
use std::alloc::{AllocError, Global};
use std::marker::Model;

const MOST_CONTROLS: u8 = 8;

const MOST_SYMBOLS: u16 = 256;

const MOST_STATES: u8 = 32;

const MOST_RULES: usize = 512;

const MOST_ARROWS: usize = 128;

#[derive(Drop)]
pub struct Draft {
    counts: Option<Counts>,
    rules: Vec<Rule>,
    arrows: Vec<Arrow>,
    // A flag for each state number that there can be: whether it is marked as final. In place, and not a set on the
    // heap: only making a draft may want memory.
    finals: [bool; MOST_STATES as usize],
}

// Clauses see the sheet that is written.
impl Model for Draft {
    ghost use Rattle.sheets.specs.Sheet.{Sheet};

    ghost Value = { Sheet };

    ghost use Rattle.drafts.specs.Draft.{sheet_of, IsDraft};

    ghost view = { sheet_of };

    ghost invariant = { IsDraft };
}

impl Draft {
    // A new draft, with room for all that may be added: no later call wants memory.
    pub fn new(heap: Global) -> Result<Draft, AllocError>
        ensures { IfOk result (λ t. t ≡ blank) }
    {
        Ok(Draft {
            counts: None,
            rules: Vec::with_capacity(heap, MOST_RULES)?,
            arrows: Vec::with_capacity(heap, MOST_ARROWS)?,
            finals: [false; MOST_STATES as usize],
        })
    }

    // The counts, once they are set.
    pub fn sized(&self) -> Option<Counts>
        ensures counts { result ≡ self.now.counts }
        ensures fits { Fits self.now }
    {
        self.counts
    }

    // The counts; those that are not set are 0.
    pub fn counts(&self) -> Counts
        ensures controls { result.controls ≡ controls self.now.counts }
        ensures symbols { result.symbols ≡ symbols self.now.counts }
        ensures states { result.states ≡ states self.now.counts }
        ensures fits { Fits self.now }
    {
        self.counts.unwrap_or_default()
    }

    // The rules in the order of their numbers.
    pub fn rules(&self) -> &[Rule]
        ensures rules { result.now ≡ self.now.rules }
        ensures fits { Fits self.now }
    {
        &self.rules
    }

    // The arrows in the order in which they came.
    pub fn arrows(&self) -> &[Arrow]
        ensures arrows { result.now ≡ self.now.arrows }
        ensures fits { Fits self.now }
    {
        &self.arrows
    }

    // A flag for each state number that there can be: whether it is marked as final.
    pub fn finals(&self) -> &[bool]
        ensures finals { result.now ≡ self.now.finals }
        ensures fits { Fits self.now }
    {
        &self.finals
    }

    pub fn size(&mut self, counts: Counts) -> Result<(), SheetFault>
        ensures took { Took (size_step self.old counts) tt self.old self.new result }
        ensures fits { Fits self.new }
    {
        if self.counts.is_some() {
            return Err(SheetFault::Sized);
        }
        if !(1..=MOST_CONTROLS).contains(&counts.controls) {
            return Err(SheetFault::Controls);
        }
        if !(1..=MOST_SYMBOLS).contains(&counts.symbols) {
            return Err(SheetFault::Symbols);
        }
        if !(counts.controls..=MOST_STATES).contains(&counts.states) {
            return Err(SheetFault::States);
        }
        self.counts = Some(counts);
        Ok(())
    }

    // One rule more; its number is the answer, and its weight goes to the strip's cell of that number. Weights do not
    // lie beside their rules: the strip is lent memory, and how long it is is one of the questions.
    pub fn rule<W: Copy>(
        &mut self,
        strip: &mut [W],
        form: RuleForm,
        weight: W,
    ) -> Result<u16, SheetFault>
        ensures took { Took (rule_step (at self.old strip.old) form weight) (length self.old.rules) (at self.old strip.old) (at self.new strip.new) result }
        ensures fits { Fits self.new }
    {
        let counts = self.counts();
        let rule = Rule::try_from(form)?;
        if rule.from >= counts.controls || rule.to >= counts.controls {
            return Err(SheetFault::NoControl);
        }
        if !rule.symbols_below(counts.symbols) {
            return Err(SheetFault::NoSymbol);
        }
        let number = self.rules.len();
        if number >= MOST_RULES || number >= strip.len() {
            return Err(SheetFault::NoRuleRoom);
        }
        strip[number] = weight;
        self.rules.push_reserved(rule);
        Ok(number as u16)
    }

    pub fn arrow(&mut self, arrow: Arrow) -> Result<(), SheetFault>
        ensures took { Took (arrow_step self.old arrow) tt self.old self.new result }
        ensures fits { Fits self.new }
    {
        let counts = self.counts();
        if arrow.from >= counts.states || arrow.to >= counts.states {
            return Err(SheetFault::NoState);
        }
        if u16::from(arrow.symbol) >= counts.symbols {
            return Err(SheetFault::NoSymbol);
        }
        if arrow.to < counts.controls {
            return Err(SheetFault::IntoControl);
        }
        if arrow.is_among(&self.arrows) {
            return Err(SheetFault::NotNew);
        }
        if self.arrows.len() >= MOST_ARROWS {
            return Err(SheetFault::NoArrowRoom);
        }
        self.arrows.push_reserved(arrow);
        Ok(())
    }

    // Marks a state as final.
    pub fn mark_final(&mut self, state: u8) -> Result<(), SheetFault>
        ensures took { Took (final_step self.old state) tt self.old self.new result }
        ensures fits { Fits self.new }
    {
        let counts = self.counts();
        if state >= counts.states {
            return Err(SheetFault::NoState);
        }
        let place = usize::from(state);
        if self.finals[place] {
            return Err(SheetFault::NotNew);
        }
        self.finals[place] = true;
        Ok(())
    }
}
