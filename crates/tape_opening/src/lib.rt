// Opening a tape, into an output or into a buffer of the caller's.
#![tactic(auto)]

mod opening;
mod sized;

ghost use Rattle.tape_opening.specs.Clauses.{OpensTape, OpensScratch};

use calls::Refusal;
use opening::Sealed;
use sized::open_long;
use tape_model::Totals;

// Opens a tape: writes the plain bytes of its tickets, once the tag is known to match and every ticket has unpacked, and answers their
// number and total net. The text is decrypted into a scratch on the stack, which is cleared where the tape is sent back; of fixed size, since the project
// allows no heap.
pub fn open_tape(key: &[u8], tape: &[u8], out: &mut [u8]) -> Result<Totals, Refusal>
    ensures { OpensTape key.now tape.now out.old result out.new }
{
    let sealed = Sealed::of(key, tape)?;
    if out.len() < sealed.text_length() {
        return Err(Refusal::OutputTooShort);
    }
    if sealed.text_length() <= 512 {
        let mut scratch = [0; 512];
        return sealed.open_by(&mut scratch, out);
    }
    open_long(&sealed, out)
}

// Opens a tape into a buffer of the caller's that nobody else reads: the text stands there before the tag is known, and the buffer is all
// zeros after 7 and 8. The other numbers change nothing.
pub fn open_scratch(key: &[u8], tape: &[u8], scratch: &mut [u8]) -> Result<Totals, Refusal>
    ensures { OpensScratch key.now tape.now scratch.old result scratch.new }
{
    let sealed = Sealed::of(key, tape)?;
    if scratch.len() < sealed.text_length() {
        return Err(Refusal::OutputTooShort);
    }
    sealed.open_text(scratch)
}
