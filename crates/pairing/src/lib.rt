// The tickets of two opened tapes in pairs: same truck, and tipped at most 120 seconds apart. The tickets of the first tape come in tape order, and each
// is paired with the earliest ticket of the second that fits it and has no partner yet.
#![tactic(auto)]

ghost use Rattle.std.specs.Prelude.{◌≡◌, false, suc, ◌+◌, ◌≤◌, ◌<◌, leb, length, MatchResult};
ghost use Rattle.calls.specs.Calls.{is_refused, refused, done, written_over};
ghost use Rattle.calls.specs.Refusals.{refusal_number};
ghost use Rattle.pairing.specs.Pairing.{seconds_apart, tickets_to_pair, plain_paired, pair_numbers};
ghost use Rattle.pairing.specs.Clauses.{outputs, PairsTapes, tickets_of, truck_of, tipped_of, Linked, LinkedFrom, Seeks, not_late, unpaired, pairs_in, ToPair, Finds};

use calls::Refusal;
use tape_model::TICKET_LENGTH;
use ticket::{is_tickets_length, unpack_ticket};

// How many pairs, and how many tickets are left over on the first tape and on the second.
#[derive(Clone, Copy, Debug, PartialEq, Eq)]
pub struct Counts {
    pub pairs: usize,
    pub left_first: usize,
    pub left_second: usize,
}

// What pairing looks at in a ticket.
#[derive(Clone, Copy)]
struct Tipping {
    truck: usize,
    tipped: u32,
}

// Whether one time is not after the other, or at most 120 seconds after it.
fn at_most_120_after(a: u32, b: u32) -> bool
    ensures { result ≡ leb a (b + seconds_apart) }
{
    (a as u64) <= (b as u64) + 120
}

// The tickets of an opened tape that no number refuses: each unpacks, and the times of no truck fall.
#[derive(Clone, Copy)]
struct Tickets<'a> {
    plain: &'a [u8],
    ghost accepted: { is_refused (tickets_to_pair plain.now) ≡ false },
}

impl<'a> Tickets<'a> {
    // 2 for a wrong length, 8 where a ticket does not unpack, 12 where the times of a truck fall. (A loop of its own, with document 01's `let .. else`: see
    // `ticket::totals`. The last times are an array of fixed size, since the project allows no heap.)
    fn of(plain: &'a [u8]) -> Result<Tickets<'a>, Refusal>
        ensures { MatchResult result (λ tickets. tickets_to_pair plain.now ≡ done (tickets_of tickets.plain.now)) (λ refusal. tickets_to_pair plain.now ≡ refused (refusal_number refusal)) }
    {
        if !is_tickets_length(plain.len()) {
            return Err(Refusal::WrongLength);
        }
        let mut last = [0u32; 1024];
        let mut fell = false;
        for packed in plain.chunks_exact(TICKET_LENGTH) {
            let Ok(t) = unpack_ticket(packed) else {
                return Err(Refusal::TicketUnreadable);
            };
            let truck = t.truck as usize;
            fell |= t.tipped < last[truck];
            last[truck] = t.tipped;
        }
        if fell {
            return Err(Refusal::TimesFall);
        }
        Ok(Tickets { plain })
    }

    fn len(self) -> usize
        ensures { (result ≡ length (tickets_of self.entry.plain.now)) × (result ≤ 5000) }
    {
        self.plain.len() / TICKET_LENGTH
    }

    // Truck and time of the ticket at a place, counted from 0.
    fn tipping_at(self, i: usize) -> Tipping
        requires { i < length (tickets_of self.plain.now) }
        ensures { (result.truck ≡ truck_of (tickets_of self.entry.plain.now) i) × (result.tipped ≡ tipped_of (tickets_of self.entry.plain.now) i) × (result.truck < 1024) }
    {
        let at = TICKET_LENGTH * i;
        let end = at + TICKET_LENGTH;
        let t = unpack_ticket(&self.plain[at..end]).unwrap();
        Tipping {
            truck: t.truck as usize,
            tipped: t.tipped,
        }
    }

    // For each ticket the next one of its truck, and for each truck its first ticket. (Places in arrays of fixed size, since the project allows no heap.)
    fn link(self, next: &mut [u16; 5000], cursors: &mut [u16; 1024])
        requires { LinkedFrom (tickets_of self.plain.now) (length (tickets_of self.plain.now)) next.old cursors.old }
        ensures { LinkedFrom (tickets_of self.entry.plain.now) 0 next.new cursors.new }
    {
        for j in (0..self.len()).rev() {
            let truck = self.tipping_at(j).truck;
            next[j] = cursors[truck];
            cursors[truck] = j as u16;
        }
    }

    // From a place of this truck on, the first of its tickets that is not tipped too early. (By `while`: it goes from link to link, and
    // counts nothing. The place behind the last where there is none, and no Option: it goes into `cursors` like any other.)
    fn seek(self, next: &[u16; 5000], start: usize, tipped: u32) -> usize
        requires { Linked (tickets_of self.plain.now) 0 next.now × (start ≤ length (tickets_of self.plain.now)) }
        ensures { Seeks (tickets_of self.entry.plain.now) start tipped result }
    {
        let mut j = start;
        while j < self.len() {
            if at_most_120_after(tipped, self.tipping_at(j).tipped) {
                return j;
            }
            j = next[j] as usize;
        }
        j
    }

    // Whether there is a ticket at a place, and it is not tipped too late.
    fn not_late(self, j: usize, tipped: u32) -> bool
        ensures { result ≡ not_late (tickets_of self.entry.plain.now) j tipped }
    {
        j < self.len() && at_most_120_after(self.tipping_at(j).tipped, tipped)
    }
}

// The tickets of both tapes; of two refusals the one with the smaller number.
fn tickets_of_both<'a>(
    first: &'a [u8],
    second: &'a [u8],
) -> Result<(Tickets<'a>, Tickets<'a>), Refusal>
    ensures { MatchResult result (λ both. (tickets_to_pair first.now ≡ done (tickets_of both.0.plain.now)) × (tickets_to_pair second.now ≡ done (tickets_of both.1.plain.now))) (λ refusal. plain_paired first.now second.now ≡ refused (refusal_number refusal)) }
{
    match (Tickets::of(first), Tickets::of(second)) {
        (Ok(a), Ok(b)) => Ok((a, b)),
        (Err(a), Err(b)) => Err(a.min(b)),
        (Err(a), Ok(_)) => Err(a),
        (Ok(_), Err(b)) => Err(b),
    }
}

// Finds the pairs: a cursor for each truck passes over the second tape's tickets of that truck once. `partners` and `taken` get, for each ticket of the
// first tape and of the second, the position of its partner, or 0. (0 and not `None`: an `Option` takes twice the bytes, and with them more of the stack
// than the header says. Arrays of fixed size, as everywhere here, since the project allows no heap.)
fn find_pairs(first: Tickets, second: Tickets, partners: &mut [u16], taken: &mut [u16]) -> usize
    requires { ToPair (tickets_of first.plain.now) (tickets_of second.plain.now) partners.old taken.old }
    ensures { Finds (tickets_of first.entry.plain.now) (tickets_of second.entry.plain.now) partners.new taken.new result }
{
    let mut next = [0u16; 5000];
    let mut cursors = [second.len() as u16; 1024];
    second.link(&mut next, &mut cursors);
    let mut found: usize = 0;
    for (i, partner) in partners.iter_mut().enumerate() {
        let t = first.tipping_at(i);
        let truck = t.truck;
        let j = second.seek(&next, cursors[truck] as usize, t.tipped);
        if second.not_late(j, t.tipped) {
            *partner = (j + 1) as u16;
            taken[j] = (i + 1) as u16;
            cursors[truck] = next[j];
            found += 1;
        } else {
            *partner = 0;
            cursors[truck] = j as u16;
        }
    }
    found
}

// The position, counted from 1, of a place. (No conversion alone: it adds 1, and the edit positions_from_0 takes that away.)
fn position(i: usize) -> u32
    requires { i < 5000 }
    ensures { result ≡ suc i }
{
    (i + 1) as u32
}

// Writes two numbers a pair.
fn put_pairs(partners: &[u16], out: &mut [u32])
    requires { (length partners.now ≤ 5000) × (length (pair_numbers (pairs_in 1 partners.now)) ≤ length out.old) }
    ensures { out.new ≡ written_over (pair_numbers (pairs_in 1 partners.now)) out.old }
{
    let mut n: usize = 0;
    for (i, &partner) in partners.iter().enumerate() {
        if partner != 0 {
            out[n] = position(i);
            out[n + 1] = partner as u32;
            n += 2;
        }
    }
}

// Writes the positions without a partner.
fn put_left(partners: &[u16], out: &mut [u32])
    requires { (length partners.now ≤ 5000) × (length (unpaired 1 partners.now) ≤ length out.old) }
    ensures { out.new ≡ written_over (unpaired 1 partners.now) out.old }
{
    let mut n: usize = 0;
    for (i, &partner) in partners.iter().enumerate() {
        if partner == 0 {
            out[n] = position(i);
            n += 1;
        }
    }
}

// Pairs the tickets of two opened tapes, and writes the pairs, two numbers each, and the positions left over on the first tape and on the
// second, all counted from 1. 2, 8 and 12, each tried on both tapes before the next; then 6, where an output is too short. A refused call writes nothing.
pub fn pair_tapes(
    first: &[u8],
    second: &[u8],
    pairs: &mut [u32],
    left_first: &mut [u32],
    left_second: &mut [u32],
) -> Result<Counts, Refusal>
    ensures { PairsTapes first.now second.now (outputs pairs.old left_first.old left_second.old) result (outputs pairs.new left_first.new left_second.new) }
{
    let (first, second) = tickets_of_both(first, second)?;
    let mut partners = [0u16; 5000];
    let mut taken = [0u16; 5000];
    let partners = &mut partners[..first.len()];
    let taken = &mut taken[..second.len()];
    let found = find_pairs(first, second, partners, taken);
    let first_left = partners.len() - found;
    let second_left = taken.len() - found;
    if (pairs.len() < 2 * found)
        | (left_first.len() < first_left)
        | (left_second.len() < second_left)
    {
        return Err(Refusal::OutputTooShort);
    }
    put_pairs(partners, pairs);
    put_left(partners, left_first);
    put_left(taken, left_second);
    Ok(Counts {
        pairs: found,
        left_first: first_left,
        left_second: second_left,
    })
}
