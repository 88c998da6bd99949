// The pay sheet of an opened tape: its pay at a rate in cents per tonne, and what each of sixteen contractors gets of it. An opened tape is its plain
// bytes: 2 where they are not 13 for each of at most 5,000 tickets, 8 where a ticket does not unpack; before both, 13 for a rate above 1,000,000.
#![tactic(auto)]

ghost use Rattle.std.specs.Prelude.{◌≡◌, ℕ, ◌+◌, ◌*◌, ◌/◌, ◌%◌, ◌^◌, ◌≤◌, ◌<◌, IfOk, ltb};
ghost use Rattle.calls.specs.Calls.{as_reply};
ghost use Rattle.tape_model.specs.Tape.{of_plain};
ghost use Rattle.trucks.specs.Words.{one};
ghost use Rattle.pay_sheet.specs.PaySheet.{contractors, sum_to, each, rank, pay_sheet};
ghost use Rattle.pay_sheet.specs.Clauses.{at, nets_of, heaviest_tape, InRange, SharesBy, sheet_reply, without_pay, shares_or_zeros};

use calls::Refusal;
use std::array;
use tape_model::TICKET_LENGTH;
use ticket::{is_tickets_length, net, unpack_ticket};

pub const CONTRACTORS: usize = 16;

// The highest rate, in cents per tonne.
pub const HIGHEST_RATE: u64 = 1000000;

// The tape's pay in cents, and each contractor's share in cents; the shares are zeros where the sheet is refused. (No Result of both: the clause `value` of
// `pay_sheet` says the zeros, and the edit shares_kept_where_refused breaks them.)
#[derive(Clone, Copy, Debug, PartialEq, Eq)]
pub struct PaySheet {
    pub answer: Result<u64, Refusal>,
    pub shares: [u64; CONTRACTORS],
}

impl PaySheet {
    // A refused sheet.
    pub fn refused(refusal: Refusal) -> PaySheet
        ensures { result ≡ without_pay refusal }
    {
        PaySheet {
            answer: Err(refusal),
            shares: [0; CONTRACTORS],
        }
    }
}

// The net kilograms of each contractor, in one pass over the tickets. (A loop of its own, with the `let .. else` of document 01: see `ticket::totals`.)
fn nets_by_contractor(plain: &[u8]) -> Result<[u64; CONTRACTORS], Refusal>
    ensures nets_value { as_reply result ≡ of_plain nets_of plain.now }
    ensures nets_bound { IfOk result (λ nets. sum_to contractors (at nets) ≤ heaviest_tape) }
{
    if !is_tickets_length(plain.len()) {
        return Err(Refusal::WrongLength);
    }
    let mut nets = [0u64; CONTRACTORS];
    for packed in plain.chunks_exact(TICKET_LENGTH) {
        let Ok(t) = unpack_ticket(packed) else {
            return Err(Refusal::TicketUnreadable);
        };
        let c = usize::from(t.truck / 64);
        nets[c] += u64::from(net(t));
    }
    Ok(nets)
}

// The sum of sixteen numbers.
fn sum(ns: [u64; CONTRACTORS]) -> u64
    requires { sum_to contractors (at ns) < 2 ^ 64 }
    ensures { result ≡ sum_to contractors (at ns) }
{
    ns.iter().sum()
}

// How many contractors come before c: with a larger remainder, or with the same and a lower number.
fn rank_of(rests: &[u64; CONTRACTORS], c: usize) -> usize
    requires { c < contractors }
    ensures { result ≡ rank (at rests.now) c }
{
    let own = rests[c];
    rests
        .iter()
        .enumerate()
        .filter(|&(d, rest)| own < *rest || (*rest == own && d < c))
        .count()
}

// The whole cents, and one of the cents left for each contractor that comes first.
fn with_cents_left(
    whole: [u64; CONTRACTORS],
    rests: &[u64; CONTRACTORS],
    left: u64,
) -> [u64; CONTRACTORS]
    requires { (c : ℕ) → c < contractors → at whole c + 1 < 2 ^ 64 }
    ensures { result ≡ each contractors (λ c. at whole c + one (ltb (rank (at rests.now) c) left)) }
{
    array::from_fn(|c| whole[c] + u64::from((rank_of(rests, c) as u64) < left))
}

// The net kilograms of each contractor on a tape, and a rate that is not refused: what is made of them fits 64 bits.
#[derive(Clone, Copy)]
struct NetsAtRate {
    nets: [u64; CONTRACTORS],
    rate: u64,
    ghost in_range: { InRange nets rate },
}

impl NetsAtRate {
    // The tape's pay in cents.
    fn tape_pay(self) -> u64
        ensures { result ≡ sum_to contractors (at self.nets) * self.rate / 1000 }
    {
        sum(self.nets) * self.rate / 1000
    }

    // Each exact share, in thousandths of a cent.
    fn exact_shares(self) -> [u64; CONTRACTORS]
        ensures { result ≡ each contractors (λ c. at self.nets c * self.rate) }
    {
        self.nets.map(|net| net * self.rate)
    }

    // What each contractor gets of the tape's pay.
    fn shares(self) -> [u64; CONTRACTORS]
        ensures { SharesBy self.nets self.rate result }
    {
        let exact = self.exact_shares();
        let whole = exact.map(|share| share / 1000);
        let rests = exact.map(|share| share % 1000);
        let left = self.tape_pay() - sum(whole);
        with_cents_left(whole, &rests, left)
    }
}

// The pay sheet of an opened tape at a rate: 13, then 2, then 8.
pub fn pay_sheet(plain: &[u8], rate: u64) -> PaySheet
    ensures result_value { sheet_reply result ≡ pay_sheet plain.now rate }
    ensures value { result.shares ≡ shares_or_zeros (pay_sheet plain.now rate) }
{
    if HIGHEST_RATE < rate {
        return PaySheet::refused(Refusal::RateTooHigh);
    }
    match nets_by_contractor(plain) {
        Err(refusal) => PaySheet::refused(refusal),
        Ok(nets) => {
            let tape = NetsAtRate { nets, rate };
            PaySheet {
                answer: Ok(tape.tape_pay()),
                shares: tape.shares(),
            }
        }
    }
}
