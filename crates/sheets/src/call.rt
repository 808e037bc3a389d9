//! The parts of a sheet, and the calls that add them.
ghost use Rattle.std.specs.Prelude.{◌≡◌, ◌&&◌, ltb, nat_lt, ok_or, option_map};
ghost use Rattle.std.specs.List.{list_all};
ghost use Rattle.sheets.specs.declared.fault.SheetFault.TheVariants.{RightSide};
ghost use Rattle.sheets.specs.Sheet.{has, right_of, symbols_of};
ghost use Rattle.sheets.specs.Questions.{rule_from};
ghost use Rattle.sheets.specs.Calls.{form_of};

use crate::fault::SheetFault;
use std::fmt;

// How many controls, stack symbols and automaton states there are; the lowest state numbers are the controls.
#[derive(Clone, Copy, Debug, Default, PartialEq, Eq)]
pub struct Counts {
    pub controls: u8,
    pub symbols: u16,
    pub states: u8,
}

// What a rule leaves on the stack in the place of the top symbol, top first.
#[derive(Clone, Copy, Debug, PartialEq, Eq)]
pub enum Right {
    Pop,
    Swap(u8),
    Push(u8, u8),
}

// A rule of the pushdown system: in control `from` with `symbol` on top, go to control `to`
// and put `right` in the symbol's place. Its weight lies in the strip, in the cell of its number.
#[derive(Clone, Copy, Debug, PartialEq, Eq)]
pub struct Rule {
    pub from: u8,
    pub symbol: u8,
    pub to: u8,
    pub right: Right,
}

// A rule as it is handed in: the right side as a length and two symbols, of which the unused are zero.
// No enum, since the stated record has these bytes, and whether they spell a rule is one of the questions.
#[derive(Clone, Copy, Debug, PartialEq, Eq)]
pub struct RuleForm {
    pub from: u8,
    pub symbol: u8,
    pub to: u8,
    pub length: u8,
    pub first: u8,
    pub second: u8,
}

// An arrow of the automaton of target stacks.
#[derive(Clone, Copy, Debug, PartialEq, Eq)]
pub struct Arrow {
    pub from: u8,
    pub symbol: u8,
    pub to: u8,
}

// A call that adds to a draft.
#[derive(Clone, Copy, Debug, PartialEq, Eq)]
pub enum Call<W> {
    Size(Counts),
    Rule(RuleForm, W),
    Arrow(Arrow),
    Final(u8),
}

// The right side that a form spells.
impl TryFrom<RuleForm> for Right {
    type Error = SheetFault;

    ghost try_from_gives = { λ form r. r ≡ ok_or (right_of form.length form.first form.second) RightSide };

    fn try_from(form: RuleForm) -> Result<Right, SheetFault> {
        match (form.length, form.first, form.second) {
            (0, 0, 0) => Ok(Right::Pop),
            (1, a, 0) => Ok(Right::Swap(a)),
            (2, a, b) => Ok(Right::Push(a, b)),
            _ => Err(SheetFault::RightSide),
        }
    }
}

// The rule that a form spells.
impl TryFrom<RuleForm> for Rule {
    type Error = SheetFault;

    ghost try_from_gives = { λ form r. r ≡ ok_or (option_map (rule_from form) (right_of form.length form.first form.second)) RightSide };

    fn try_from(form: RuleForm) -> Result<Rule, SheetFault> {
        Ok(Rule {
            from: form.from,
            symbol: form.symbol,
            to: form.to,
            right: Right::try_from(form)?,
        })
    }
}

// The form that spells a rule.
impl From<Rule> for RuleForm {
    ghost from_gives = { λ rule form. form ≡ form_of rule };

    fn from(rule: Rule) -> RuleForm {
        let (length, first, second) = match rule.right {
            Right::Pop => (0, 0, 0),
            Right::Swap(a) => (1, a, 0),
            Right::Push(a, b) => (2, a, b),
        };
        RuleForm {
            from: rule.from,
            symbol: rule.symbol,
            to: rule.to,
            length,
            first,
            second,
        }
    }
}

impl RuleForm {
    // The right side that the form spells; `try_from` also says why there is none.
    pub fn right(self) -> Option<Right>
        ensures { result ≡ right_of self.length self.first self.second }
    {
        Right::try_from(self).ok()
    }

    // Whether the symbols of the form, with this right side, are all among the first so many.
    pub fn symbols_below(self, right: Right, count: u16) -> bool
        ensures { result ≡ (nat_lt self.symbol count && list_all (λ a. ltb a count) (symbols_of right)) }
    {
        let rule = Rule {
            from: self.from,
            symbol: self.symbol,
            to: self.to,
            right,
        };
        rule.symbols_below(count)
    }
}

impl Rule {
    // Whether the symbols of the rule are all among the first so many.
    pub fn symbols_below(self, count: u16) -> bool
        ensures { result ≡ (nat_lt self.symbol count && list_all (λ a. ltb a count) (symbols_of self.right)) }
    {
        let below = |a: u8| u16::from(a) < count;
        below(self.symbol)
            && match self.right {
                Right::Pop => true,
                Right::Swap(a) => below(a),
                Right::Push(a, b) => below(a) && below(b),
            }
    }
}

impl Arrow {
    // Whether the arrow is among those.
    pub fn is_among(self, arrows: &[Arrow]) -> bool
        ensures { result ≡ has arrows.now self }
    {
        arrows.contains(&self)
    }
}

impl fmt::Display for Counts {
    fn fmt<W: fmt::Write>(&self, f: &mut fmt::Formatter<W>) -> fmt::Result {
        write!(
            f,
            "controls {} symbols {} states {}",
            self.controls, self.symbols, self.states
        )
    }
}

impl fmt::Display for Right {
    fn fmt<W: fmt::Write>(&self, f: &mut fmt::Formatter<W>) -> fmt::Result {
        match self {
            Right::Pop => write!(f, "right"),
            Right::Swap(a) => write!(f, "right {a}"),
            Right::Push(a, b) => write!(f, "right {a} {b}"),
        }
    }
}

impl fmt::Display for Rule {
    fn fmt<W: fmt::Write>(&self, f: &mut fmt::Formatter<W>) -> fmt::Result {
        write!(
            f,
            "from {} symbol {} to {} {}",
            self.from, self.symbol, self.to, self.right
        )
    }
}

impl fmt::Display for Arrow {
    fn fmt<W: fmt::Write>(&self, f: &mut fmt::Formatter<W>) -> fmt::Result {
        write!(
            f,
            "from {} symbol {} to {}",
            self.from, self.symbol, self.to
        )
    }
}
