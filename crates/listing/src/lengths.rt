// What the lines of a listing leave of the room for them, by which it is known whether all fit before any of them is written.
ghost use Rattle.std.specs.Prelude.{◌≡◌, ◌++◌, ◌+◌, ◌-◌, ◌≤◌, SomeIff, length};
ghost use Rattle.tape_model.specs.Listing as model;
ghost use Rattle.listing.specs.Clauses.{HoldTickets, lines_of, text_of};

use super::lines::{Opened, head_numbers, listed_numbers, total_numbers};
use tape_model::TICKET_LENGTH;

// How many digits a number has. (By a loop that divides: the library's `checked_ilog10` reads a table at a place that follows from the number, which a
// listing may not do, tests/stack_and_secrets.)
pub(crate) fn decimal_length(n: u64) -> usize
    ensures value { result ≡ length (model.decimal n) }
    ensures upper_bound { result ≤ 20 }
{
    let mut left = n;
    let mut digits: usize = 1;
    while 10 <= left {
        left /= 10;
        digits += 1;
    }
    digits
}

// What is left of so much room behind a line of a word of so many bytes and numbers behind it; none where the line does not fit.
pub(crate) fn room_behind_line(word: usize, ns: &[u64], room: usize) -> Option<usize>
    ensures { SomeIff result (word + length (model.numbers ns.now ++ model.line_end) ≤ room) (room - (word + length (model.numbers ns.now ++ model.line_end))) }
{
    let mut left = room.checked_sub(word)?;
    for n in ns {
        left = left.checked_sub(1 + decimal_length(*n))?;
    }
    left.checked_sub(1)
}

// The same of the lines of opened tickets. (Bytes that do not unpack are out of reach, by what Opened holds. `let .. else` is document 01's form: see
// `ticket::totals`.)
fn room_behind_tickets(opened: Opened<'_>, room: usize) -> Option<usize>
    ensures { SomeIff result (length (lines_of opened.entry.plain.now) ≤ room) (room - length (lines_of opened.entry.plain.now)) }
{
    let mut left = room;
    for (i, bytes) in opened.plain.chunks_exact(TICKET_LENGTH).enumerate() {
        let Ok(t) = ticket::unpack_ticket(bytes) else {
            return None;
        };
        left = room_behind_line(decimal_length(i as u64 + 1), &listed_numbers(t), left)?;
    }
    Some(left)
}

// The same of a whole listing.
pub(crate) fn room_behind(opened: Opened<'_>, room: usize) -> Option<usize>
    ensures { SomeIff result (length (text_of opened.entry.head opened.entry.plain.now) ≤ room) (room - length (text_of opened.entry.head opened.entry.plain.now)) }
{
    let left = room_behind_line(b"TAPE".len(), &head_numbers(opened.head), room)?;
    let left = room_behind_tickets(opened, left)?;
    room_behind_line(b"TOTAL".len(), &total_numbers(opened), left)
}
