// A writer in twelve words, for callers that cannot hold the struct. Any twelve words are read as some writer. (Methods, and no From: neither way
// keeps every bit.)
ghost use Rattle.std.specs.Prelude.{◌≡◌};
ghost use Rattle.tape_writer.specs.Clauses.{writer_of};
ghost use Rattle.tape_writer.specs.Words.{phase_number, phase_in, writer_in, writer_words_for};

use super::Writer;
use session::Session;
use tape_model::{TAPE_TAG_LENGTH, WriterPhase};

// (A match, and not `as`: the numbers that C holds are read here. And no TryFrom for the way back: every number is read as some phase, as `writer_in` says.)
fn phase_number(phase: WriterPhase) -> u64
    ensures { result ≡ phase_number phase }
{
    match phase {
        WriterPhase::Fresh => 0,
        WriterPhase::Open => 1,
        WriterPhase::Closed => 2,
    }
}

fn phase_in(n: u64) -> WriterPhase
    ensures { result ≡ phase_in n }
{
    match n {
        0 => WriterPhase::Fresh,
        1 => WriterPhase::Open,
        _ => WriterPhase::Closed,
    }
}

impl Writer {
    // The writer that twelve words hold. (The words are listed here and below: by `copy_from_slice` the calls for C on a writer take more of the stack than the
    // header says.)
    pub fn from_words(words: &[u64; 12]) -> Writer
        ensures { result ≡ writer_in words.now }
    {
        let first = [
            words[0],
            words[1],
            words[2],
            words[3],
            words[4],
            words[5],
            words[6],
            words[7],
            words[8],
            words[9],
            TAPE_TAG_LENGTH as u64,
        ];
        Writer {
            session: Session::from_words(&first),
            tickets: words[10],
            phase: phase_in(words[11]),
        }
    }

    // The words of a writer.
    pub fn words(self) -> [u64; 12]
        ensures { result ≡ writer_words_for (writer_of self) }
    {
        let s = self.session.words();
        [
            s[0],
            s[1],
            s[2],
            s[3],
            s[4],
            s[5],
            s[6],
            s[7],
            s[8],
            s[9],
            self.tickets,
            phase_number(self.phase),
        ]
    }
}
