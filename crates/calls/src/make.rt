//! A call from its value.
ghost use Rattle.sheets.specs.Questions.{Took, step, at};

use drafts::draft::Draft;
use sheets::call::Call;
use sheets::fault::SheetFault;

// Makes a call on a draft. A match and no table of functions: the call is a value that was read, and each case has
// arguments of its own. The strip comes beside the draft, here and in every call above, since it is lent anew to each.
pub fn make<W: Copy>(draft: &mut Draft, strip: &mut [W], call: Call<W>) -> Result<(), SheetFault>
    ensures { Took (step call (at draft.old strip.old)) tt (at draft.old strip.old) (at draft.new strip.new) result }
{
    match call {
        Call::Size(counts) => draft.size(counts),
        Call::Rule(form, weight) => draft.rule(strip, form, weight).map(|_| ()),
        Call::Arrow(arrow) => draft.arrow(arrow),
        Call::Final(state) => draft.mark_final(state),
    }
}
