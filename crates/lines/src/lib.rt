//! The lines of what a run answers, each with its end.
#![tactic(auto)]

use lengths::weight::Length;
use program::loaded::Loaded;
use program::refusal::Refusal;
use std::fmt;

fn sheet<W: fmt::Write>(loaded: &Loaded<Length>, f: &mut fmt::Formatter<W>) -> fmt::Result {
    match loaded.draft.sized() {
        Some(counts) => writeln!(f, "{counts}")?,
        None => writeln!(f, "no size")?,
    }
    for (number, (rule, weight)) in loaded.draft.rules().iter().zip(&loaded.strip).enumerate() {
        writeln!(f, "rule {number} {rule} weight {}", weight.0)?;
    }
    for arrow in loaded.draft.arrows() {
        writeln!(f, "arrow {arrow}")?;
    }
    // Flags into states once more: storing has an iterator for it, which is private there and asks for a proof.
    for (state, marked) in loaded.draft.finals().iter().enumerate() {
        if *marked {
            writeln!(f, "final {state}")?;
        }
    }
    Ok(())
}

// What a run answers, as text.
#[derive(Drop)]
pub struct Lines<'a>(pub &'a Result<Loaded<Length>, Refusal>);

impl fmt::Display for Lines<'_> {
    fn fmt<W: fmt::Write>(&self, f: &mut fmt::Formatter<W>) -> fmt::Result {
        match self.0 {
            Ok(loaded) => sheet(loaded, f),
            Err(refusal) => writeln!(f, "{refusal}"),
        }
    }
}
