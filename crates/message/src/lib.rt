// Whole messages: sealing writes ciphertext and then tag; opening takes them and writes the text, once the tag is known to match, or decrypts it
// into a buffer of the caller's. The tag has 16 bytes, or as many from 8 to 16 as the call is given.
#![tactic(auto)]

ghost use Rattle.std.specs.Prelude.{◌≡◌, ◌-◌, ◌≤◌, ◌<◌, length, take, replicate};
ghost use Rattle.calls.specs.Calls.{◌if◌else◌, unless_refused, written_over, same_bytes};
ghost use Rattle.calls.specs.Refusals.{number_in};
ghost use Rattle.acorn_model.specs.Stretches.{full_tag_length, through, text_end, tag_bytes, after_data};
ghost use Rattle.acorn_model.specs.Machine.{key_length, nonce_length, key_and_nonce_right};
ghost use Rattle.acorn_model.specs.Message.{seal_refusal, tag_refusal, open_refusal};
ghost use Rattle.acorn_kernel.specs.Together.{state_of};
ghost use Rattle.message.specs.Clauses.{Seals, OpensTo, DecryptsInto, rest_matches, rest_opened};

use acorn::{
    State, absorb_data, decrypt, end_data, end_text, is_tag_bytes, seal_text, start,
    tag_length_right, write_tag_bytes,
};
use acorn_model::{BYTE_LIMIT, KEY_LENGTH, NONCE_LENGTH, TAG_LENGTH};
use calls::Refusal;
use zeroize::zeroize;

// What sealing and opening both take: the key, the nonce and the data.
#[derive(Clone, Copy)]
struct Inputs<'a> {
    key: &'a [u8],
    nonce: &'a [u8],
    data: &'a [u8],
}

impl Inputs<'_> {
    fn sizes_right(&self) -> bool
        ensures { result ≡ key_and_nonce_right self.now.key.now self.now.nonce.now }
    {
        (self.key.len() == KEY_LENGTH) & (self.nonce.len() == NONCE_LENGTH)
    }

    // What sends a sealing back.
    #[tactic(auto, unfolding(acorn_model::specs::Message::seal_refusal))]
    fn check_sealing(&self, text: &[u8], tag_length: usize, out: &[u8]) -> Result<(), Refusal>
        ensures { number_in result ≡ seal_refusal tag_length self.now.key.now self.now.nonce.now self.now.«data».now text.now out.now }
    {
        if !tag_length_right(tag_length) {
            return Err(Refusal::TagLength);
        }
        if !self.sizes_right() {
            return Err(Refusal::WrongLength);
        }
        if BYTE_LIMIT < self.data.len() || BYTE_LIMIT < text.len() {
            return Err(Refusal::OverLimit);
        }
        if out.len() < text.len() + tag_length {
            return Err(Refusal::OutputTooShort);
        }
        Ok(())
    }

    // What sends an opening back before a step is run. Where nothing does, the tag decides.
    #[tactic(auto, unfolding(acorn_model::specs::Message::open_refusal, calls::specs::Calls::unless_refused))]
    fn check_opening(&self, sealed: &[u8], tag_length: usize, out: &[u8]) -> Result<(), Refusal>
        ensures { open_refusal tag_length self.now.key.now self.now.nonce.now self.now.«data».now sealed.now out.now ≡ unless_refused (number_in result) (tag_refusal tag_length self.now.key.now self.now.nonce.now self.now.«data».now sealed.now) (number_in result) }
    {
        if !tag_length_right(tag_length) {
            return Err(Refusal::TagLength);
        }
        if !self.sizes_right() || sealed.len() < tag_length {
            return Err(Refusal::WrongLength);
        }
        let n = sealed.len() - tag_length;
        if BYTE_LIMIT < self.data.len() || BYTE_LIMIT < n {
            return Err(Refusal::OverLimit);
        }
        if out.len() < n {
            return Err(Refusal::OutputTooShort);
        }
        Ok(())
    }

    // The state in which the text begins.
    fn after_data(&self) -> State
        requires { (length self.now.key.now ≡ key_length) × (length self.now.nonce.now ≡ nonce_length) }
        ensures { state_of result ≡ after_data self.now.key.now self.now.nonce.now self.now.«data».now }
    {
        end_data(absorb_data(start(self.key, self.nonce), self.data))
    }
}

// Writes the ciphertext of the text, and then the tag, of so many bytes; answers how many were written. `TagLength`: a tag not of 8 to 16 bytes;
// `WrongLength`: key or nonce not of 16 bytes; `OverLimit`: data or text over 65,536 bytes; `OutputTooShort`: an output without room for the text and the
// tag. (Inlined, as a call of it from `seal` takes 176 bytes more of the stack.)
#[inline(always)]
pub fn seal_tag(
    key: &[u8],
    nonce: &[u8],
    data: &[u8],
    text: &[u8],
    tag_length: usize,
    out: &mut [u8],
) -> Result<usize, Refusal>
    ensures { Seals tag_length key.now nonce.now «data».now text.now out.old result out.new }
{
    let inputs = Inputs { key, nonce, data };
    inputs.check_sealing(text, tag_length, out)?;
    let n = text.len();
    let s = seal_text(inputs.after_data(), text, out);
    write_tag_bytes(end_text(s), tag_length, &mut out[n..]);
    Ok(n + tag_length)
}

// The same, with a tag of 16 bytes.
pub fn seal(
    key: &[u8],
    nonce: &[u8],
    data: &[u8],
    text: &[u8],
    out: &mut [u8],
) -> Result<usize, Refusal>
    ensures { Seals full_tag_length key.now nonce.now «data».now text.now out.old result out.new }
{
    seal_tag(key, nonce, data, text, TAG_LENGTH, out)
}

// Whether the tag is the one of so many bytes that follows from the state after the text.
fn tag_is(s: State, tag_length: usize, tag: &[u8]) -> bool
    ensures { result ≡ same_bytes tag.now (tag_bytes tag_length (through text_end (state_of s))) }
{
    is_tag_bytes(end_text(s), tag_length, tag)
}

// A decrypted piece, at the start of the scratch: it is copied to the output, or the scratch is cleared. (A function of its own, with `good` as an
// argument: its contract says that the scratch is cleared, which is not said of an array of the caller's own; the edit text_left_in_the_scratch.)
fn hand_over(good: bool, scratch: &mut [u8], n: usize, out: &mut [u8])
    requires { (n ≤ length scratch.old) × (n ≤ length out.old) }
    ensures out_after { out.new ≡ (written_over (take n scratch.old) out.old if good else out.old) }
    ensures scratch_after { scratch.new ≡ (scratch.old if good else replicate (length scratch.old) 0) }
{
    if good {
        out[..n].copy_from_slice(&scratch[..n]);
    } else {
        zeroize(scratch);
    }
}

// Opens the rest of a message, of whose text so many bytes are left, in the state before it: decrypts a piece of its text into a scratch, and calls itself for what is behind. The
// call for the last piece compares the tags, and then each call hands over its piece. So an opening takes of the stack what the length of its
// text needs. (The number beside the slice: ciphertext and tag as two slices are one value more in each of these frames.)
fn open_rest(s: State, sealed: &[u8], left: usize, out: &mut [u8]) -> bool
    requires { (left ≤ length sealed.now) × (left ≤ length out.old) }
    ensures value { result ≡ rest_matches (state_of s) (length sealed.now - left) sealed.now }
    ensures out_after { out.new ≡ rest_opened (state_of s) (length sealed.now - left) sealed.now out.old }
{
    let n = left.min(2048);
    // of fixed size, since the project allows no heap
    let mut scratch = [0; 2048];
    let next = decrypt(s, &sealed[..n], &mut scratch);
    let good = if n < left {
        open_rest(next, &sealed[n..], left - n, &mut out[n..])
    } else {
        tag_is(next, sealed.len() - n, &sealed[n..])
    };
    hand_over(good, &mut scratch, n, out);
    good
}

// The same of all sealed bytes. Where there is no text, no scratch is needed.
fn open_all(s: State, sealed: &[u8], left: usize, out: &mut [u8]) -> bool
    requires { (left ≤ length sealed.now) × (left ≤ length out.old) }
    ensures value { result ≡ rest_matches (state_of s) (length sealed.now - left) sealed.now }
    ensures out_after { out.new ≡ rest_opened (state_of s) (length sealed.now - left) sealed.now out.old }
{
    if left == 0 {
        return tag_is(s, sealed.len(), sealed);
    }
    open_rest(s, sealed, left, out)
}

// Writes the text that ciphertext and tag, of so many bytes, open to; answers how many were written. `TagLength`: a tag not of 8 to 16 bytes;
// `WrongLength`: key or nonce not of 16 bytes, or fewer sealed bytes than the tag's; `OverLimit`: data or text over 65,536 bytes; `OutputTooShort`: an
// output without room for the text; `WrongTag`: a tag that differs. (Inlined as `seal_tag` is.)
#[inline(always)]
pub fn open_tag(
    key: &[u8],
    nonce: &[u8],
    data: &[u8],
    sealed: &[u8],
    tag_length: usize,
    out: &mut [u8],
) -> Result<usize, Refusal>
    ensures { OpensTo tag_length key.now nonce.now «data».now sealed.now out.old result out.new }
{
    let inputs = Inputs { key, nonce, data };
    inputs.check_opening(sealed, tag_length, out)?;
    let left = sealed.len() - tag_length;
    if open_all(inputs.after_data(), sealed, left, out) {
        Ok(left)
    } else {
        Err(Refusal::WrongTag)
    }
}

// The same, with a tag of 16 bytes.
pub fn open(
    key: &[u8],
    nonce: &[u8],
    data: &[u8],
    sealed: &[u8],
    out: &mut [u8],
) -> Result<usize, Refusal>
    ensures { OpensTo full_tag_length key.now nonce.now «data».now sealed.now out.old result out.new }
{
    open_tag(key, nonce, data, sealed, TAG_LENGTH, out)
}

// Decrypts the text of bytes sealed with a tag of 16 into a buffer of the caller's that nobody else reads, and says whether their tag matches; where it does not, the
// buffer is all zeros. False, and nothing is written, where key or nonce is not of 16 bytes, there are fewer sealed bytes than 16, or the buffer
// has no room for the text. (A bool, and no Result: false says only that there is no text; the caller names the refusal.)
pub fn decrypt_into(key: &[u8], nonce: &[u8], data: &[u8], sealed: &[u8], buffer: &mut [u8]) -> bool
    ensures { DecryptsInto key.now nonce.now «data».now sealed.now buffer.old result buffer.new }
{
    let inputs = Inputs { key, nonce, data };
    if !inputs.sizes_right() || sealed.len() < TAG_LENGTH {
        return false;
    }
    let n = sealed.len() - TAG_LENGTH;
    if buffer.len() < n {
        return false;
    }
    let s = decrypt(inputs.after_data(), &sealed[..n], buffer);
    let good = tag_is(s, TAG_LENGTH, &sealed[n..]);
    if !good {
        zeroize(buffer);
    }
    good
}
