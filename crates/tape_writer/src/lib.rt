// A tape's writer seals a shift's tickets behind a head. Every call of the writer takes it and hands back the writer after it, with an answer: a
// refusal, or the bytes that the call wrote and the steps run since the writer was fresh. A refused call changes nothing.
#![tactic(auto)]

mod words;

ghost use Rattle.std.specs.Prelude.{◌≡◌, length};
ghost use Rattle.calls.specs.Calls.{◌if◌else◌};
ghost use Rattle.acorn_model.specs.Machine as machine;
ghost use Rattle.tape_model.specs.Ticket.{head_length};
ghost use Rattle.tape_model.specs.Writer as plain;
ghost use Rattle.session.specs.Clauses.{machine_of, Called};
ghost use Rattle.tape_writer.specs.Clauses.{writer_of, WriterCalled, refused_reply, passed_reply, head_taken, Gives};

use acorn_model::{KEY_LENGTH, Kind};
use calls::{Answer, Refusal};
use session::{Reply, Session};
use tape_model::{
    HEAD_LENGTH, Head, TAPE_TAG_LENGTH, TICKET_LENGTH, TICKET_LIMIT, Ticket, WriterPhase,
};
use ticket::nonce_of;

#[derive(Clone, Copy)]
pub struct Writer {
    session: Session,
    tickets: u64,
    phase: WriterPhase,
}

// What a call answered, and the writer after it. (Of a writer, and not of any state: the clauses of calls and of lists of calls name it.
// Document 01 names the form: a call hands back the writer after it.)
#[derive(Clone, Copy)]
pub struct WriterReply {
    pub answer: Answer,
    pub writer: Writer,
}

// The session's begin, and then data with the head's bytes.
fn begin_with_head(session: Session, key: &[u8], head: &[u8; 9]) -> Reply
    ensures { Gives result (head_taken (machine_of session) key.now head.now) }
{
    let begun = session.begin(key, &nonce_of(head));
    match begun.answer {
        Answer::Refused(_) => begun,
        Answer::Done(_, _) => begun.session.data(head),
    }
}

impl Writer {
    pub fn fresh() -> Writer
        ensures { writer_of result ≡ plain.fresh_writer }
    {
        Writer {
            session: Session::fresh(Kind::Sealing),
            tickets: 0,
            phase: WriterPhase::Fresh,
        }
    }

    // A call is sent back.
    fn refused(self, refusal: Refusal) -> WriterReply
        ensures { result ≡ refused_reply refusal self }
    {
        WriterReply {
            answer: Answer::Refused(refusal),
            writer: self,
        }
    }

    // What the session answered is the answer. Where it did its call, the writer has the session after it, so many tickets and this phase.
    fn passed_on(self, reply: Reply, tickets: u64, phase: WriterPhase) -> WriterReply
        ensures { result ≡ passed_reply reply tickets phase self }
    {
        let writer = match reply.answer {
            Answer::Refused(_) => self,
            Answer::Done(_, _) => Writer {
                session: reply.session,
                tickets,
                phase,
            },
        };
        WriterReply {
            answer: reply.answer,
            writer,
        }
    }

    // Begins the tape with its head, which is the session's data.
    pub fn start(self, key: &[u8], head: Head, out: &mut [u8]) -> WriterReply
        ensures { WriterCalled self (plain.start key.now head out.old) result out.new }
    {
        if self.phase != WriterPhase::Fresh {
            return self.refused(Refusal::WrongPhase);
        }
        if key.len() != KEY_LENGTH {
            return self.refused(Refusal::WrongLength);
        }
        if !ticket::head_valid(head) {
            return self.refused(Refusal::HeadOutOfRange);
        }
        if out.len() < HEAD_LENGTH {
            return self.refused(Refusal::OutputTooShort);
        }
        let packed = ticket::packed_head(head);
        let reply = begin_with_head(self.session, key, &packed);
        let Answer::Done(_, steps) = reply.answer else {
            return WriterReply {
                answer: reply.answer,
                writer: self,
            };
        };
        out[..HEAD_LENGTH].copy_from_slice(&packed);
        WriterReply {
            answer: Answer::Done(HEAD_LENGTH, steps),
            writer: Writer {
                session: reply.session,
                phase: WriterPhase::Open,
                ..self
            },
        }
    }

    // Whether the tape has text, so that its data is ended.
    #[tactic(auto, unfolding(crate::specs::Clauses::writer_of))]
    pub fn in_text(self) -> bool
        ensures { result ≡ machine.is_text (writer_of self).machine.phase }
    {
        self.session.in_text()
    }

    // Adds a ticket to the tape, by a text call of the session.
    #[inline(always)]
    fn add_by<F: FnOnce(Session, &[u8], &mut [u8]) -> Reply>(
        self,
        seal: F,
        ticket: Ticket,
        out: &mut [u8],
    ) -> WriterReply
        requires callable { F.IsAlwaysCallable seal }
        requires seals { (s : _) (p : _) (o : _) (r : _) (o' : _) → F.post seal s p o r o' → Called s (machine.seal_text p.now o.now) r o'.now }
        ensures { WriterCalled self (plain.add ticket out.old) result out.new }
    {
        if self.phase != WriterPhase::Open {
            return self.refused(Refusal::WrongPhase);
        }
        if !ticket::writable(ticket) {
            return self.refused(Refusal::TicketRule);
        }
        let tickets = self.tickets;
        if TICKET_LIMIT as u64 <= tickets {
            return self.refused(Refusal::OverLimit);
        }
        if out.len() < TICKET_LENGTH {
            return self.refused(Refusal::OutputTooShort);
        }
        let reply = seal(self.session, &ticket::packed(ticket), out);
        self.passed_on(reply, tickets + 1, WriterPhase::Open)
    }

    // The same, by the session's text call for pieces of 13 bytes.
    pub fn add(self, ticket: Ticket, out: &mut [u8]) -> WriterReply
        ensures { WriterCalled self (plain.add ticket out.old) result out.new }
    {
        self.add_by(Session::seal_13, ticket, out)
    }

    // The same, by the session's text call for pieces of every length. It is there for the first ticket of a tape, before which the data ends:
    // a caller that sends only the others to `add` has no data end in that call.
    pub fn add_first(self, ticket: Ticket, out: &mut [u8]) -> WriterReply
        ensures { WriterCalled self (plain.add ticket out.old) result out.new }
    {
        self.add_by(Session::seal_text, ticket, out)
    }

    // Ends the tape with its tag.
    pub fn finish(self, out: &mut [u8]) -> WriterReply
        ensures { WriterCalled self (plain.finish out.old) result out.new }
    {
        if self.phase != WriterPhase::Open {
            return self.refused(Refusal::WrongPhase);
        }
        if out.len() < TAPE_TAG_LENGTH {
            return self.refused(Refusal::OutputTooShort);
        }
        let reply = self.session.seal_close(out);
        self.passed_on(reply, self.tickets, WriterPhase::Closed)
    }
}
