// Writes a tape of one ticket, opens it and reads it back. Prints the tape in hexadecimal, the ticket and the totals; or a refusal number.
#![tactic(auto)]

ghost use Rattle.std.specs.Prelude.{◌≡◌, length};
ghost use Rattle.tape_model.specs.Reader.{read_next, reader_over, next_reply};

use calls::{Answer, Refusal};
use reader::Reader;
use std::{fmt, io};
use tape_model::{Head, Ticket};
use tape_opening::open_tape;
use tape_writer::Writer;

// Bytes in hexadecimal.
#[derive(Clone, Copy)]
struct Hex<'a>(&'a [u8]);

impl fmt::Display for Hex<'_> {
    fn fmt<W: fmt::Write>(&self, f: &mut fmt::Formatter<W>) -> fmt::Result {
        for byte in self.0 {
            write!(f, "{byte:02x}")?;
        }
        Ok(())
    }
}

// What sent a call back, if anything did.
fn done(answer: Answer) -> Result<(), Refusal> {
    match answer {
        Answer::Refused(refusal) => Err(refusal),
        Answer::Done(_, _) => Ok(()),
    }
}

// Writes the tape of one ticket: 9 bytes of head, 13 of the ticket, 16 of tag.
fn write_tape(key: &[u8], head: Head, ticket: Ticket, tape: &mut [u8]) -> Result<(), Refusal>
    requires { length tape.old ≡ 38 }
{
    let started = Writer::fresh().start(key, head, tape);
    let added = started.writer.add(ticket, &mut tape[9..]);
    let finished = added.writer.finish(&mut tape[22..]);
    done(started.answer)?;
    done(added.answer)?;
    done(finished.answer)
}

// What a reader hands out first and then: of the opened bytes of one ticket, the ticket and then the end.
fn read_two(
    plain: &[u8],
) -> (
    Result<Option<Ticket>, Refusal>,
    Result<Option<Ticket>, Refusal>,
)
    ensures { (next_reply result.0 ≡ (read_next (reader_over plain.now)).answer)
        × (next_reply result.1 ≡ (read_next (read_next (reader_over plain.now)).next).answer) }
{
    let a = Reader::new(plain).next();
    let b = a.reader.next();
    (a.answer, b.answer)
}

fn print_refused(rt: &impl Print, refusal: Refusal) -> io::Result<()> {
    println!(rt; "refused {refusal}")
}

fn print_reading(
    rt: &impl Print,
    number: u64,
    reading: Result<Option<Ticket>, Refusal>,
) -> io::Result<()> {
    match reading {
        Ok(Some(t)) => {
            println!(rt;
                "ticket {number}: truck {}, net {} kg",
                t.truck,
                ticket::net(t)
            )
        }
        Ok(None) => Ok(()),
        Err(refusal) => print_refused(rt, refusal),
    }
}

// Opens a tape into plain, and prints its tickets, of at most two, and the totals.
fn read_tape(rt: &impl Print, key: &[u8], tape: &[u8], plain: &mut [u8]) -> io::Result<()> {
    match open_tape(key, tape, plain) {
        Err(refusal) => print_refused(rt, refusal),
        Ok(totals) => {
            let (first, second) = read_two(&plain[..13 * totals.tickets]);
            print_reading(rt, 1, first)?;
            print_reading(rt, 2, second)?;
            println!(rt; "tickets {}, net {} kg", totals.tickets, totals.net)
        }
    }
}

fn main(rt: HostRuntime) -> io::Result<()> {
    let key = b"\x00\x01\x02\x03\x04\x05\x06\x07\x08\x09\x0a\x0b\x0c\x0d\x0e\x0f";
    let head = Head {
        device: 7,
        shift: 2,
        sheet: 1,
    };
    let ticket = Ticket {
        form: 1,
        truck: 5,
        shovel: 2,
        tip: 3,
        grade: 4,
        loaded: 3600,
        tipped: 4200,
        gross: 250000,
        tare: 110000,
    };
    let mut tape = [0; 38];
    let mut plain = [0; 13];
    match write_tape(key, head, ticket, &mut tape) {
        Err(refusal) => print_refused(&rt, refusal),
        Ok(()) => {
            println!(rt; "tape {}", Hex(&tape))?;
            read_tape(&rt, key, &tape, &mut plain)
        }
    }
}
