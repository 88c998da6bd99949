// A session of ACORN-128 v3. A call takes the session by value and returns the one after it, with an answer: a refusal, or how many bytes were written and
// how many steps the session has run. A refused call changes nothing, but that a wrong tag closes.
#![tactic(auto)]

mod phase_runs;
mod words;

ghost use Rattle.std.specs.Prelude.{◌≡◌, ◌+◌, ◌≤◌, false, [], length, nat_lt};
ghost use Rattle.acorn_model.specs.Stretches.{full_tag_length};
ghost use Rattle.acorn_model.specs.Machine as machine;
ghost use Rattle.session.specs.Clauses.{machine_of, wrapped_machine, Called, refused_reply, done_reply, takes_text, TextTaken};
ghost use Rattle.acorn.specs.Runs.{TextRun};
ghost use Rattle.acorn_kernel.specs.Together.{state_of};

use acorn::{
    State, absorb_data, check_text, is_tag_bytes, start, tag_length_right, write_tag_bytes, zeros,
};
use acorn_model::{
    BYTE_LIMIT, CLOSE_STEPS, KEY_LENGTH, Kind, NONCE_LENGTH, Phase, START_STEPS, TAG_LENGTH,
};
use calls::{Answer, Refusal};

#[derive(Clone, Copy)]
pub struct Session {
    state: State,
    data_bytes: u64,
    text_bytes: u64,
    steps: u64,
    phase: Phase,
    kind: Kind,
    tag_length: u8,
}

// What a call answered, and the session after it. (Of a session, and not of any state: the clauses of calls and of lists of calls name it.
// Document 01 names the form: a call hands back the session after it.)
#[derive(Clone, Copy)]
pub struct Reply {
    pub answer: Answer,
    pub session: Session,
}

// Whether a piece goes over the limit after the bytes that are taken. (By two comparisons: with `saturating_add`
// a piece of 13 bytes takes four instructions more.)
fn over_limit(taken: u64, piece: &[u8]) -> bool
    ensures { result ≡ nat_lt machine.byte_limit (taken + length piece.now) }
{
    taken > BYTE_LIMIT as u64 || piece.len() as u64 > BYTE_LIMIT as u64 - taken
}

impl Session {
    // A session that no call has reached.
    pub fn fresh(kind: Kind) -> Session
        ensures { machine_of result ≡ machine.fresh kind }
    {
        Session {
            state: zeros(),
            data_bytes: 0,
            text_bytes: 0,
            steps: 0,
            kind,
            phase: Phase::Fresh,
            tag_length: TAG_LENGTH as u8,
        }
    }

    // Whether text has begun, and has not ended.
    #[tactic(auto, unfolding(crate::specs::Clauses::machine_of))]
    pub fn in_text(self) -> bool
        ensures { result ≡ machine.is_text (machine_of self).phase }
    {
        self.phase == Phase::Text
    }

    // A call is sent back, or its tag was wrong.
    fn refused(self, refusal: Refusal) -> Reply
        ensures { result ≡ refused_reply refusal self }
    {
        Reply {
            answer: Answer::Refused(refusal),
            session: self,
        }
    }

    // An accepted call led to this session and wrote so many bytes.
    fn done(self, bytes: usize) -> Reply
        ensures { result ≡ done_reply bytes self }
    {
        Reply {
            answer: Answer::Done(bytes, self.steps),
            session: self,
        }
    }

    // The bytes of the tag that the close writes or is given.
    fn fixed_length(self) -> usize
        ensures { result ≡ (machine_of self).tag_length }
    {
        let n = self.tag_length as usize;
        if tag_length_right(n) { n } else { TAG_LENGTH }
    }

    // Whether the text calls and the close of this kind are allowed: in data and in text, and to no session of the other kind.
    fn takes_text(self, kind: Kind) -> bool
        ensures { result ≡ takes_text kind self }
    {
        self.kind == kind && matches!(self.phase, Phase::Data | Phase::Text)
    }

    // Start runs, with a key and a nonce of 16 bytes; the tag has so many bytes, 8 to 16.
    pub fn begin_tag(self, key: &[u8], nonce: &[u8], tag_length: usize) -> Reply
        ensures { Called self (machine.begin key.now nonce.now tag_length) result [] }
    {
        if self.phase != Phase::Fresh {
            return self.refused(Refusal::WrongPhase);
        }
        if !tag_length_right(tag_length) {
            return self.refused(Refusal::TagLength);
        }
        if key.len() != KEY_LENGTH || nonce.len() != NONCE_LENGTH {
            return self.refused(Refusal::WrongLength);
        }
        let begun = Session {
            state: start(key, nonce),
            steps: self.steps.wrapping_add(START_STEPS),
            phase: Phase::Data,
            tag_length: tag_length as u8,
            ..self
        };
        begun.done(0)
    }

    // The same, with a tag of 16 bytes.
    pub fn begin(self, key: &[u8], nonce: &[u8]) -> Reply
        ensures { Called self (machine.begin key.now nonce.now full_tag_length) result [] }
    {
        self.begin_tag(key, nonce, TAG_LENGTH)
    }

    // A piece of data goes into the state.
    pub fn data(self, piece: &[u8]) -> Reply
        ensures { Called self (machine.data_call piece.now) result [] }
    {
        if self.phase != Phase::Data {
            return self.refused(Refusal::WrongPhase);
        }
        if over_limit(self.data_bytes, piece) {
            return self.refused(Refusal::OverLimit);
        }
        let absorbed = absorb_data(self.state, piece);
        let n = piece.len() as u64;
        let next = Session {
            state: absorbed,
            data_bytes: self.data_bytes + n,
            steps: self.steps.wrapping_add(8 * n),
            ..self
        };
        next.done(0)
    }

    // The session after a piece of text, with the state that the piece led to.
    fn text_taken(self, piece: &[u8], state: State) -> Session
        requires { self.text_bytes + length piece.now ≤ machine.byte_limit }
        ensures { TextTaken self piece.now state result }
    {
        let n = piece.len() as u64;
        Session {
            state,
            text_bytes: self.text_bytes + n,
            steps: self.steps.wrapping_add(self.data_end_steps() + 8 * n),
            phase: Phase::Text,
            ..self
        }
    }

    // A sealing session writes the ciphertext of the piece, by a run over text. (In its callers' frames: with one of its own, a call for C takes more
    // of the stack than the header says.)
    #[inline(always)]
    fn seal_by<F: FnOnce(State, &[u8], &mut [u8]) -> State>(
        self,
        run: F,
        piece: &[u8],
        out: &mut [u8],
    ) -> Reply
        requires callable { F.IsAlwaysCallable run }
        requires over_text { (s : _) (p : _) (o : _) (t : _) (o' : _) → F.post run s p o t o' → TextRun false (state_of s) p.now o.now (state_of t) o'.now }
        ensures { Called self (machine.seal_text piece.now out.old) result out.new }
    {
        if !self.takes_text(Kind::Sealing) {
            return self.refused(Refusal::WrongPhase);
        }
        let over = over_limit(self.text_bytes, piece);
        if over {
            return self.refused(Refusal::OverLimit);
        }
        if out.len() < piece.len() {
            return self.refused(Refusal::OutputTooShort);
        }
        let sealed = run(self.data_ended(), piece, out);
        self.text_taken(piece, sealed).done(piece.len())
    }

    // The same, by the run for pieces of every length.
    #[inline(always)]
    pub fn seal_text(self, piece: &[u8], out: &mut [u8]) -> Reply
        ensures { Called self (machine.seal_text piece.now out.old) result out.new }
    {
        self.seal_by(acorn::seal_text, piece, out)
    }

    // The same, by the run that is made for pieces of 13 bytes.
    pub fn seal_13(self, piece: &[u8], out: &mut [u8]) -> Reply
        ensures { Called self (machine.seal_text piece.now out.old) result out.new }
    {
        self.seal_by(acorn::seal_13, piece, out)
    }

    // A checking session takes ciphertext, and writes nothing.
    pub fn check_text(self, piece: &[u8]) -> Reply
        ensures { Called self (machine.check_text piece.now) result [] }
    {
        let allowed = self.takes_text(Kind::Checking);
        if !allowed {
            return self.refused(Refusal::WrongPhase);
        }
        if over_limit(self.text_bytes, piece) {
            return self.refused(Refusal::OverLimit);
        }
        let checked = check_text(self.data_ended(), piece);
        self.text_taken(piece, checked).done(0)
    }

    // The session after its last stretches, which keeps nothing of the state.
    fn closed(self) -> Session
        ensures { machine_of result ≡ wrapped_machine (machine.closed (machine_of self)) }
    {
        Session {
            state: zeros(),
            steps: self.steps.wrapping_add(self.data_end_steps() + CLOSE_STEPS),
            phase: Phase::Closed,
            ..self
        }
    }

    // A sealing session writes the tag. (Inlined as `seal_by` is, and for the same reason.)
    #[inline(always)]
    pub fn seal_close(self, out: &mut [u8]) -> Reply
        ensures { Called self (machine.seal_close out.old) result out.new }
    {
        if !self.takes_text(Kind::Sealing) {
            return self.refused(Refusal::WrongPhase);
        }
        let n = self.fixed_length();
        if out.len() < n {
            return self.refused(Refusal::OutputTooShort);
        }
        write_tag_bytes(self.text_ended(), n, out);
        self.closed().done(n)
    }

    // A checking session is given a tag, and answers good or `WrongTag`.
    pub fn check_close(self, tag: &[u8]) -> Reply
        ensures { Called self (machine.check_close tag.now) result [] }
    {
        if !self.takes_text(Kind::Checking) {
            return self.refused(Refusal::WrongPhase);
        }
        let n = self.fixed_length();
        if tag.len() != n {
            return self.refused(Refusal::WrongLength);
        }
        let good = is_tag_bytes(self.text_ended(), n, tag);
        let closed = self.closed();
        if good {
            closed.done(0)
        } else {
            closed.refused(Refusal::WrongTag)
        }
    }
}
