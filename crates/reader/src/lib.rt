// The reader: it hands out the tickets of opened bytes in turn, and after the last says that it is at the end. Each call takes the reader and
// hands back the reader after it, with an answer. The work is done by `read_at`, whose parameters are plain.
#![tactic(auto, unfolding(calls::specs::Calls::as_reply, tape_model::specs::Reader::next_reply, tape_model::specs::Reader::handed_out, tape_model::specs::Reader::read_next, tape_model::specs::Reader::reader_over, crate::specs::Clauses::read_outcome, crate::specs::Clauses::reader_of, crate::specs::Clauses::reader_outcome))]

ghost use Rattle.std.specs.Prelude.{◌≡◌};
ghost use Rattle.tape_model.specs.Reader.{read_next, next_reply};
ghost use Rattle.reader.specs.Clauses.{reader_at, read_outcome, Made, NextCalled};

use calls::Refusal;
use tape_model::{TICKET_LENGTH, Ticket};
use ticket::is_tickets_length;

// What stands at a position, and the position after it. A position is the number of tickets before it: 0 before the first. (Answer and position side by
// side: the position stays on a refusal, as the clause `read_outcome` says.)
#[derive(Clone, Copy)]
pub struct ReadAt {
    pub position: usize,
    pub answer: Result<Option<Ticket>, Refusal>,
}

// The ticket at a position of opened bytes: 2 for bytes of a wrong size, 8 where the ticket does not unpack, nothing at the end.
fn ticket_at(bytes: &[u8], position: usize) -> Result<Option<Ticket>, Refusal>
    ensures { next_reply result ≡ (read_next (reader_at bytes.now position)).answer }
{
    let size = bytes.len();
    if !is_tickets_length(size) {
        return Err(Refusal::WrongLength);
    }
    if size / TICKET_LENGTH <= position {
        return Ok(None);
    }
    let at = TICKET_LENGTH * position;
    let end = at + TICKET_LENGTH;
    let Ok(t) = ticket::unpack_ticket(&bytes[at..end]) else {
        return Err(Refusal::TicketUnreadable);
    };
    Ok(Some(t))
}

// The same with the position after it: past the ticket, and where there is none the position stays.
pub fn read_at(bytes: &[u8], position: usize) -> ReadAt
    ensures { read_outcome bytes.now result ≡ read_next (reader_at bytes.now position) }
{
    let answer = ticket_at(bytes, position);
    let position = if let Ok(Some(_)) = answer {
        position + 1
    } else {
        position
    };
    ReadAt { position, answer }
}

// Opened bytes, and how many of their tickets were handed out.
#[derive(Clone, Copy)]
pub struct Reader<'a> {
    bytes: &'a [u8],
    position: usize,
}

// What a call answered, and the reader after it. (Document 01 names the form: a call hands back the reader after it.)
#[derive(Clone, Copy)]
pub struct ReaderReply<'a> {
    pub reader: Reader<'a>,
    pub answer: Result<Option<Ticket>, Refusal>,
}

impl<'a> Reader<'a> {
    // A reader before the first ticket, over whatever bytes.
    pub fn new(bytes: &'a [u8]) -> Reader<'a>
        ensures { Made bytes.entry result }
    {
        Reader { bytes, position: 0 }
    }

    // Hands out the next ticket.
    pub fn next(self) -> ReaderReply<'a>
        ensures { NextCalled self.entry result }
    {
        let read = read_at(self.bytes, self.position);
        ReaderReply {
            reader: Reader {
                bytes: self.bytes,
                position: read.position,
            },
            answer: read.answer,
        }
    }
}
