// Why a call is sent back, and the answers of calls that run steps: code and specification share them.
#![tactic(auto)]

ghost use Rattle.std.specs.Prelude.{◌≡◌, Some, decimal};
ghost use Rattle.calls.specs.Refusals.{refusal_number};

use std::error::Error;
use std::fmt;

// Why a call is sent back, with the number of document 01 or 02.
#[derive(Clone, Copy, Debug, PartialEq, Eq, PartialOrd, Ord)]
pub enum Refusal {
    // The phase does not allow the call, or it is meant for the other kind.
    WrongPhase = 1,
    // A key, a nonce, a tag, sealed bytes, a tape or plain bytes of a wrong length.
    WrongLength = 2,
    HeadOutOfRange = 3,
    // A ticket to be written breaks a rule.
    TicketRule = 4,
    // Data or text over 65,536 bytes, or the 5,001st ticket.
    OverLimit = 5,
    OutputTooShort = 6,
    WrongTag = 7,
    // A ticket in plain bytes does not unpack.
    TicketUnreadable = 8,
    // A tag's length is not from 8 to 16.
    TagLength = 9,
    // Two receptions part.
    Parted = 10,
    TooLateForForm1 = 11,
    // The times of a truck fall.
    TimesFall = 12,
    RateTooHigh = 13,
}

impl From<Refusal> for u8 {
    ghost from_gives = { λ refusal n. n ≡ refusal_number refusal };

    fn from(refusal: Refusal) -> u8 {
        refusal as u8
    }
}

// Printed as its number.
impl fmt::Display for Refusal {
    ghost output = { λ refusal. Some (decimal (refusal_number refusal)) };

    fn fmt<W: fmt::Write>(&self, f: &mut fmt::Formatter<W>) -> fmt::Result {
        write!(f, "{}", u8::from(*self))
    }
}

impl Error for Refusal {}

// The answer of a call that runs steps: a refusal, or the bytes that the call wrote and the steps run since fresh. (An enum of its own: document 01 names
// its form, "Places and their forms".)
#[derive(Clone, Copy, Debug, PartialEq, Eq)]
pub enum Answer {
    Refused(Refusal),
    Done(usize, u64),
}
