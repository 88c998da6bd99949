// The parts of opening a tape: key and tape judged by their lengths and the head, the text decrypted into a scratch, and its tickets read before a
// byte is written.
ghost use Rattle.std.specs.Prelude.{◌≡◌, ◌+◌, ◌≤◌, length, MatchResult};
ghost use Rattle.calls.specs.Refusals.{refusal_number};
ghost use Rattle.tape_model.specs.Tape.{empty_tape_length, is_tape_length};
ghost use Rattle.tape_opening.specs.Clauses.{OpensTape, OpensScratch, open_scratch, sealed_refusal};

use acorn_model::KEY_LENGTH;
use calls::Refusal;
use message::decrypt_into;
use tape_model::{EMPTY_TAPE_LENGTH, HEAD_LENGTH, Totals};
use ticket::{is_tickets_length, nonce_of, unpack_head};
use zeroize::zeroize;

// Whether so many bytes are those of a tape.
fn is_tape_length(n: usize) -> bool
    ensures { result ≡ is_tape_length n }
{
    if n < EMPTY_TAPE_LENGTH {
        return false;
    }
    is_tickets_length(n - EMPTY_TAPE_LENGTH)
}

// A key and a tape whose lengths and head send nothing back. (Room for the text is asked by each function of its own buffers, since an opening has two.)
#[derive(Clone, Copy)]
pub(crate) struct Sealed<'a> {
    pub(crate) key: &'a [u8],
    pub(crate) tape: &'a [u8],
    ghost passed: { sealed_refusal key.now tape.now ≡ 0 },
}

impl<'a> Sealed<'a> {
    // 2 for a wrong length, 3 for a head out of range.
    pub(crate) fn of(key: &'a [u8], tape: &'a [u8]) -> Result<Sealed<'a>, Refusal>
        ensures { MatchResult result (λ sealed. (sealed.key.now ≡ key.now) × (sealed.tape.now ≡ tape.now)) (λ refusal. sealed_refusal key.now tape.now ≡ refusal_number refusal) }
    {
        if key.len() != KEY_LENGTH {
            return Err(Refusal::WrongLength);
        }
        if !is_tape_length(tape.len()) {
            return Err(Refusal::WrongLength);
        }
        unpack_head(&tape[..HEAD_LENGTH])?;
        Ok(Sealed { key, tape })
    }

    // How many bytes the tape's text has.
    pub(crate) fn text_length(&self) -> usize
        ensures { result + empty_tape_length ≡ length self.now.tape.now }
    {
        self.tape.len() - EMPTY_TAPE_LENGTH
    }

    // The opening into a scratch that has room for the text: the tag is known, and the tickets are read, only when the text stands there.
    pub(crate) fn open_text(&self, scratch: &mut [u8]) -> Result<Totals, Refusal>
        requires { length self.now.tape.now ≤ length scratch.old + empty_tape_length }
        ensures { OpensScratch self.now.key.now self.now.tape.now scratch.old result scratch.new }
    {
        let head = &self.tape[..HEAD_LENGTH];
        let nonce = nonce_of(head);
        if !decrypt_into(self.key, &nonce, head, &self.tape[HEAD_LENGTH..], scratch) {
            return Err(Refusal::WrongTag);
        }
        let n = self.text_length();
        let Ok(totals) = ticket::totals(&scratch[..n]) else {
            zeroize(scratch);
            return Err(Refusal::TicketUnreadable);
        };
        Ok(totals)
    }

    // The same with an output: the text is copied there from the scratch once nothing sends the tape back. The scratch is left as by `open_text`.
    pub(crate) fn open_by(&self, scratch: &mut [u8], out: &mut [u8]) -> Result<Totals, Refusal>
        requires { (length self.now.tape.now ≤ length scratch.old + empty_tape_length) × (length self.now.tape.now ≤ length out.old + empty_tape_length) }
        ensures opens_tape { OpensTape self.now.key.now self.now.tape.now out.old result out.new }
        ensures scratch_after { scratch.new ≡ (open_scratch self.now.key.now self.now.tape.now scratch.old).out }
    {
        let opened = self.open_text(scratch)?;
        let n = self.text_length();
        out[..n].copy_from_slice(&scratch[..n]);
        Ok(opened)
    }
}
