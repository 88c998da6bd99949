// Answers as structs of numbers, for C: `refused` is 0 where the call was done; else it is the number, and the rest is zeros, but that a
// reading's position stays, and 10 comes with its place. A part of a reception is of a call that is never refused.
#![tactic(auto, unfolding(calls::specs::Calls::answer_reply, calls::specs::Calls::as_reply, calls::specs::Calls::left_unchanged, tape_model::specs::Reader::next_reply, receptions::specs::Clauses::parting_reply, crate::specs::Answers::written_numbers, crate::specs::Answers::answer_numbers, crate::specs::Answers::opened_numbers, crate::specs::Answers::ticket_numbers, crate::specs::Answers::head_numbers, crate::specs::Answers::reading_numbers, crate::specs::Answers::count_numbers, crate::specs::Answers::counts_numbers, crate::specs::Answers::parted_numbers, crate::specs::Answers::paired_numbers,))]

ghost use Rattle.std.specs.Prelude.{◌≡◌};
ghost use Rattle.calls.specs.Refusals.{refusal_number};
ghost use Rattle.calls.specs.Calls.{answer_reply, as_reply, left_unchanged};
ghost use Rattle.tape_model.specs.Reader.{next_reply};
ghost use Rattle.receptions.specs.Clauses.{parting_reply};
ghost use Rattle.c_answers.specs.Answers.{written_numbers, answer_numbers, opened_numbers, ticket_numbers, head_numbers, reading_numbers, count_numbers, counts_numbers, parted_numbers, paired_numbers};

use calls::{Answer, Refusal};
use pairing::Counts;
use reader::ReadAt;
use receptions::PartedAt;
use tape_model::{Head, Ticket, Totals};
use trucks::TrucksOfTwo;

#[repr(C)]
#[derive(Clone, Copy)]
pub struct HtWritten {
    pub refused: u32,
    pub bytes: u64,
}

#[repr(C)]
#[derive(Clone, Copy)]
pub struct HtAnswer {
    pub refused: u32,
    pub bytes: u64,
    pub steps: u64,
}

#[repr(C)]
#[derive(Clone, Copy)]
pub struct HtOpened {
    pub refused: u32,
    pub tickets: u64,
    pub net: u64,
}

#[repr(C)]
#[derive(Clone, Copy)]
pub struct HtUnpackedTicket {
    pub refused: u32,
    pub ticket: Ticket,
}

#[repr(C)]
#[derive(Clone, Copy)]
pub struct HtUnpackedHead {
    pub refused: u32,
    pub head: Head,
}

#[repr(C)]
#[derive(Clone, Copy)]
pub struct HtReading {
    pub refused: u32,
    pub at_end: u32,
    pub position: u64,
    pub ticket: Ticket,
}

#[repr(C)]
#[derive(Clone, Copy)]
pub struct HtTruckCount {
    pub refused: u32,
    pub trucks: u32,
}

#[repr(C)]
#[derive(Clone, Copy)]
pub struct HtTruckCounts {
    pub refused: u32,
    pub both: u32,
    pub either: u32,
    pub just_one: u32,
}

#[repr(C)]
#[derive(Clone, Copy)]
pub struct HtParted {
    pub refused: u32,
    pub place: u64,
}

#[repr(C)]
#[derive(Clone, Copy)]
pub struct HtReception {
    pub mast: u32,
    pub bytes: u64,
}

#[repr(C)]
#[derive(Clone, Copy)]
pub struct HtPaired {
    pub refused: u32,
    pub pairs: u64,
    pub left_first: u64,
    pub left_second: u64,
}

// The number of a refusal, as wide as C is told it.
fn number(refusal: Refusal) -> u32
    ensures { result ≡ refusal_number refusal }
{
    u32::from(u8::from(refusal))
}

impl From<Result<usize, Refusal>> for HtWritten {
    ghost from_gives = { λ answer numbers. numbers ≡ written_numbers (as_reply answer) };

    fn from(answer: Result<usize, Refusal>) -> HtWritten {
        match answer {
            Err(refusal) => HtWritten {
                refused: number(refusal),
                bytes: 0,
            },
            Ok(n) => HtWritten {
                refused: 0,
                bytes: n as u64,
            },
        }
    }
}

impl From<Answer> for HtAnswer {
    ghost from_gives = { λ answer numbers. numbers ≡ answer_numbers (answer_reply answer) };

    fn from(answer: Answer) -> HtAnswer {
        match answer {
            Answer::Refused(refusal) => HtAnswer {
                refused: number(refusal),
                bytes: 0,
                steps: 0,
            },
            Answer::Done(n, steps) => HtAnswer {
                refused: 0,
                bytes: n as u64,
                steps,
            },
        }
    }
}

// Whether a refused call has left its session or writer as it was: a wrong tag closes a session.
pub fn left_unchanged(answer: Answer) -> bool
    ensures { result ≡ left_unchanged (answer_reply answer) }
{
    match answer {
        Answer::Refused(refusal) => refusal != Refusal::WrongTag,
        Answer::Done(_, _) => false,
    }
}

impl From<Result<Totals, Refusal>> for HtOpened {
    ghost from_gives = { λ answer numbers. numbers ≡ opened_numbers (as_reply answer) };

    fn from(answer: Result<Totals, Refusal>) -> HtOpened {
        match answer {
            Err(refusal) => HtOpened {
                refused: number(refusal),
                tickets: 0,
                net: 0,
            },
            Ok(totals) => HtOpened {
                refused: 0,
                tickets: totals.tickets as u64,
                net: totals.net,
            },
        }
    }
}

impl From<Result<Ticket, Refusal>> for HtUnpackedTicket {
    ghost from_gives = { λ answer numbers. numbers ≡ ticket_numbers (as_reply answer) };

    fn from(answer: Result<Ticket, Refusal>) -> HtUnpackedTicket {
        match answer {
            Err(refusal) => HtUnpackedTicket {
                refused: number(refusal),
                ticket: Ticket::default(),
            },
            Ok(ticket) => HtUnpackedTicket { refused: 0, ticket },
        }
    }
}

impl From<Result<Head, Refusal>> for HtUnpackedHead {
    ghost from_gives = { λ answer numbers. numbers ≡ head_numbers (as_reply answer) };

    fn from(answer: Result<Head, Refusal>) -> HtUnpackedHead {
        match answer {
            Err(refusal) => HtUnpackedHead {
                refused: number(refusal),
                head: Head::default(),
            },
            Ok(head) => HtUnpackedHead { refused: 0, head },
        }
    }
}

impl From<ReadAt> for HtReading {
    ghost from_gives = { λ read numbers. numbers ≡ reading_numbers (next_reply read.answer) read.position };

    fn from(read: ReadAt) -> HtReading {
        let position = read.position as u64;
        match read.answer {
            Err(refusal) => HtReading {
                refused: number(refusal),
                at_end: 0,
                position,
                ticket: Ticket::default(),
            },
            Ok(Some(ticket)) => HtReading {
                refused: 0,
                at_end: 0,
                position,
                ticket,
            },
            Ok(None) => HtReading {
                refused: 0,
                at_end: 1,
                position,
                ticket: Ticket::default(),
            },
        }
    }
}

impl From<Result<u32, Refusal>> for HtTruckCount {
    ghost from_gives = { λ answer numbers. numbers ≡ count_numbers (as_reply answer) };

    fn from(answer: Result<u32, Refusal>) -> HtTruckCount {
        match answer {
            Err(refusal) => HtTruckCount {
                refused: number(refusal),
                trucks: 0,
            },
            Ok(trucks) => HtTruckCount { refused: 0, trucks },
        }
    }
}

impl From<Result<TrucksOfTwo, Refusal>> for HtTruckCounts {
    ghost from_gives = { λ answer numbers. numbers ≡ counts_numbers (as_reply answer) };

    fn from(answer: Result<TrucksOfTwo, Refusal>) -> HtTruckCounts {
        match answer {
            Err(refusal) => HtTruckCounts {
                refused: number(refusal),
                both: 0,
                either: 0,
                just_one: 0,
            },
            Ok(counts) => HtTruckCounts {
                refused: 0,
                both: counts.both,
                either: counts.either,
                just_one: counts.just_one,
            },
        }
    }
}

impl From<Result<(), PartedAt>> for HtParted {
    ghost from_gives = { λ answer numbers. numbers ≡ parted_numbers (parting_reply answer) };

    fn from(answer: Result<(), PartedAt>) -> HtParted {
        match answer {
            Err(parted) => HtParted {
                refused: number(parted.refusal),
                place: parted.place as u64,
            },
            Ok(()) => HtParted {
                refused: 0,
                place: 0,
            },
        }
    }
}

impl From<Result<Counts, Refusal>> for HtPaired {
    ghost from_gives = { λ answer numbers. numbers ≡ paired_numbers (as_reply answer) };

    fn from(answer: Result<Counts, Refusal>) -> HtPaired {
        match answer {
            Err(refusal) => HtPaired {
                refused: number(refusal),
                pairs: 0,
                left_first: 0,
                left_second: 0,
            },
            Ok(counts) => HtPaired {
                refused: 0,
                pairs: counts.pairs as u64,
                left_first: counts.left_first as u64,
                left_second: counts.left_second as u64,
            },
        }
    }
}
