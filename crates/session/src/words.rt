// A session in eleven words, for callers that cannot hold the struct. Any eleven words are read as some session. (Methods, and no From: neither
// way keeps every bit.)
ghost use Rattle.std.specs.Prelude.{◌≡◌};
ghost use Rattle.session.specs.Clauses.{machine_of};
ghost use Rattle.session.specs.Words.{kind_phase_number, kind_in, phase_in, session_in, words_for};

use super::Session;
use acorn::State;
use acorn_model::{Kind, Phase};

// Kind and phase in one number. (Functions, and no TryFrom for the way back: every number is read as some kind and phase, as `session_in` says.)
fn number(kind: Kind, phase: Phase) -> u64
    ensures { result ≡ kind_phase_number kind phase }
{
    match (kind, phase) {
        (Kind::Sealing, Phase::Fresh) => 0,
        (Kind::Sealing, Phase::Data) => 1,
        (Kind::Sealing, Phase::Text) => 2,
        (Kind::Sealing, Phase::Closed) => 3,
        (Kind::Checking, Phase::Fresh) => 4,
        (Kind::Checking, Phase::Data) => 5,
        (Kind::Checking, Phase::Text) => 6,
        (Kind::Checking, Phase::Closed) => 7,
    }
}

fn kind_in(n: u64) -> Kind
    ensures { result ≡ kind_in n }
{
    if n < 4 { Kind::Sealing } else { Kind::Checking }
}

fn phase_in(n: u64) -> Phase
    ensures { result ≡ phase_in n }
{
    match n {
        0 | 4 => Phase::Fresh,
        1 | 5 => Phase::Data,
        2 | 6 => Phase::Text,
        _ => Phase::Closed,
    }
}

impl Session {
    // The session that eleven words hold.
    pub fn from_words(words: &[u64; 11]) -> Session
        ensures { result ≡ session_in words.now }
    {
        let [
            w0,
            w1,
            w2,
            w3,
            w4,
            w5,
            data_bytes,
            text_bytes,
            steps,
            kind_and_phase,
            tag_length,
        ] = *words;
        Session {
            state: State {
                w0,
                w1,
                w2,
                w3,
                w4,
                w5,
            },
            data_bytes,
            text_bytes,
            steps,
            kind: kind_in(kind_and_phase),
            phase: phase_in(kind_and_phase),
            tag_length: (tag_length % 256) as u8,
        }
    }

    // The words of a session. What stands below a word's own bits is left out, so that the words follow from the machine; and so is a length that no tag
    // has.
    pub fn words(self) -> [u64; 11]
        ensures { result ≡ words_for (machine_of self) }
    {
        let s = self.state;
        [
            s.w0 - s.w0 % 0x8,
            s.w1 - s.w1 % 0x4_0000,
            s.w2 - s.w2 % 0x2_0000,
            s.w3 - s.w3 % 0x200_0000,
            s.w4 - s.w4 % 0x800_0000,
            s.w5 - s.w5 % 0x2,
            self.data_bytes,
            self.text_bytes,
            self.steps,
            number(self.kind, self.phase),
            self.fixed_length() as u64,
        ]
    }
}
