//! From an input to its sheet, or to why it is refused.
ghost use Rattle.std.specs.Prelude.{◌≡◌, replicate, IfOk};
ghost use Rattle.sheets.specs.Questions.{at};
ghost use Rattle.program.specs.Outcome.{load_outcome, outcome, outcome_of};

use crate::loaded::Loaded;
use crate::refusal::Refusal;
use codec::coded::Coded;
use drafts::draft::Draft;
use loading::load::load;
use std::alloc::{AllocError, Global};

// The bytes that a run takes at most.
pub const LONGEST_INPUT: usize = 16_384;

const STRIP_CELLS: usize = 512;

// A strip with that weight in every cell.
fn strip_of<W: Copy>(heap: Global, cell: W) -> Result<Vec<W>, AllocError>
    ensures { IfOk result (λ v. v.items ≡ replicate 512 cell) }
{
    let mut strip = Vec::new(heap);
    strip.resize(STRIP_CELLS, cell)?;
    Ok(strip)
}

// Loads the sheet at the front of the input into that draft, over that strip.
fn load_into<W: Coded>(
    mut draft: Draft,
    mut strip: Vec<W>,
    input: &[u8],
) -> Result<Loaded<W>, Refusal>
    ensures { outcome_of result ≡ load_outcome W.Coded.look (at draft strip.items) input.now }
{
    load(&mut draft, strip.as_mut_slice(), input)?;
    Ok(Loaded { draft, strip })
}

// Loads the sheet at the front of the input into a new draft. The outer error is want of memory.
pub fn run<W: Coded>(heap: Global, input: &[u8]) -> Result<Result<Loaded<W>, Refusal>, AllocError>
    ensures { IfOk result (λ x. (cell : W) × (W.Weight.meaning cell ≡ W.Weight.algebra.zero) × (outcome_of x ≡ outcome W.Coded.look cell input.now)) }
{
    let cell = W::zero();
    if input.len() > LONGEST_INPUT {
        return Ok(Err(Refusal::TooLong));
    }
    Ok(load_into(Draft::new(heap)?, strip_of(heap, cell)?, input))
}
