// Openings that bring a scratch, each of one size and in a frame of its own, so that a tape takes only as much of the stack as it needs.
ghost use Rattle.std.specs.Prelude.{◌+◌, ◌≤◌, length};
ghost use Rattle.tape_model.specs.Tape.{empty_tape_length};
ghost use Rattle.tape_opening.specs.Clauses.{OpensTape};

use super::opening::Sealed;
use calls::Refusal;
use tape_model::Totals;

#[inline(never)]
fn open_with<const SIZE: usize>(sealed: &Sealed<'_>, out: &mut [u8]) -> Result<Totals, Refusal>
    requires { (SIZE ≤ 65000) × (length sealed.now.tape.now ≤ SIZE + empty_tape_length) × (length sealed.now.tape.now ≤ length out.old + empty_tape_length) }
    ensures { OpensTape sealed.now.key.now sealed.now.tape.now out.old result out.new }
{
    let mut scratch = [0; SIZE];
    sealed.open_by(&mut scratch, out)
}

// Opens with the smallest scratch that holds the text. LLVM takes a function that has one caller into that caller, and with all three arrays in
// one frame every tape would have the stack of the longest. So `open_with` is marked.
#[tactic(auto, using(crate::proofs::Sizes::text_limit))]
pub(crate) fn open_long(sealed: &Sealed<'_>, out: &mut [u8]) -> Result<Totals, Refusal>
    requires { length sealed.now.tape.now ≤ length out.old + empty_tape_length }
    ensures { OpensTape sealed.now.key.now sealed.now.tape.now out.old result out.new }
{
    if sealed.text_length() <= 2048 {
        return open_with::<2048>(sealed, out);
    }
    if sealed.text_length() <= 8192 {
        return open_with::<8192>(sealed, out);
    }
    open_with::<65000>(sealed, out)
}
