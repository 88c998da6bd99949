// The lines of a listing, each written at the start of lent bytes. Each function answers how many bytes it wrote.
ghost use Rattle.std.specs.Prelude.{◌≡◌, ◌∷◌, [], ◌/◌, ◌≤◌, length};
ghost use Rattle.tape_model.specs.Listing as model;
ghost use Rattle.listing.specs.Clauses.{Wrote, HoldTickets, lines_of, text_of};

use super::text::{put_line, put_numbers_line};
use tape_model::{Head, TICKET_LENGTH, Ticket};

// A tape that was opened: its head, and the plain bytes of its tickets with their total net.
#[derive(Clone, Copy)]
pub(crate) struct Opened<'a> {
    pub(crate) head: Head,
    pub(crate) plain: &'a [u8],
    pub(crate) net: u64,
    ghost held: { HoldTickets plain.now net },
}

// The numbers of a head's line.
pub(crate) fn head_numbers(head: Head) -> [u64; 3]
    ensures { result ≡ head.device ∷ head.shift ∷ head.sheet ∷ [] }
{
    [head.device as u64, head.shift as u64, head.sheet as u64]
}

// The numbers of a ticket's line, but for its position.
pub(crate) fn listed_numbers(t: Ticket) -> [u64; 7]
    ensures { result ≡ model.listed_numbers t }
{
    [
        t.truck as u64,
        t.shovel as u64,
        t.tip as u64,
        t.grade as u64,
        t.loaded as u64,
        t.tipped as u64,
        ticket::net(t) as u64,
    ]
}

// The numbers of the line of totals.
pub(crate) fn total_numbers(opened: Opened<'_>) -> [u64; 2]
    ensures { result ≡ length opened.entry.plain.now / 13 ∷ opened.entry.net ∷ [] }
{
    [(opened.plain.len() / TICKET_LENGTH) as u64, opened.net]
}

// The lines of opened tickets. (Bytes that do not unpack are out of reach, by what Opened holds. `let .. else` is document 01's form: see `ticket::totals`.)
fn put_ticket_lines(opened: Opened<'_>, out: &mut [u8]) -> usize
    requires { length (lines_of opened.plain.now) ≤ length out.old }
    ensures { Wrote (lines_of opened.entry.plain.now) out.old result out.new }
{
    let mut at: usize = 0;
    for (i, bytes) in opened.plain.chunks_exact(TICKET_LENGTH).enumerate() {
        let Ok(t) = ticket::unpack_ticket(bytes) else {
            return at;
        };
        at += put_numbers_line(i as u64 + 1, &listed_numbers(t), &mut out[at..]);
    }
    at
}

// A whole listing.
pub(crate) fn put_listing(opened: Opened<'_>, out: &mut [u8]) -> usize
    requires { length (text_of opened.head opened.plain.now) ≤ length out.old }
    ensures { Wrote (text_of opened.entry.head opened.entry.plain.now) out.old result out.new }
{
    let a = put_line(b"TAPE", &head_numbers(opened.head), out);
    let b = put_ticket_lines(opened, &mut out[a..]);
    let at = a + b;
    let c = put_line(b"TOTAL", &total_numbers(opened), &mut out[at..]);
    at + c
}
