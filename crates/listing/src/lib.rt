// The listing of a tape, as a text in ASCII: a line for its head, a line a ticket, and a line of totals; or the line of a refusal alone.
#![tactic(auto)]

mod lengths;
mod lines;
mod text;

ghost use Rattle.std.specs.Prelude.{◌≡◌, ◌++◌, ◌≤◌, MatchResult, length, replicate};
ghost use Rattle.calls.specs.Refusals.{refusal_number};
ghost use Rattle.tape_model.specs.Listing as model;
ghost use Rattle.listing.specs.Clauses.{Listed, text_of, text_room, longest_plain};

use acorn_model::KEY_LENGTH;
use calls::Refusal;
use lengths::{decimal_length, room_behind, room_behind_line};
use lines::{Opened, put_listing};
use tape_model::{HEAD_LENGTH, TICKET_LENGTH, TICKET_LIMIT};
use tape_opening::open_scratch;
use text::{put_line, put_numbers_line};

// The plain bytes of the most tickets.
const LONGEST_PLAIN: usize = TICKET_LENGTH * TICKET_LIMIT;

// Room for the text of every tape: a fixed array, since the project allows no heap.
pub fn text_buffer() -> [u8; 190054]
    ensures value { result ≡ replicate text_room 0 }
    ensures result_len { length result ≡ text_room }
{
    [0; 190054]
}

// Room for the plain bytes of every tape: likewise.
fn plain_buffer() -> [u8; LONGEST_PLAIN]
    ensures { length result ≡ longest_plain }
{
    [0; LONGEST_PLAIN]
}

// The tape opened: its tickets' plain bytes are in plain.
fn open_into<'a>(key: &[u8], tape: &[u8], plain: &'a mut [u8]) -> Result<Opened<'a>, Refusal>
    requires { longest_plain ≤ length plain.old }
    ensures { MatchResult result (λ o. text_of o.head o.plain.now ≡ model.listing key.now tape.now) (λ r. model.refused_line (refusal_number r) ≡ model.listing key.now tape.now) }
{
    let totals = open_scratch(key, tape, plain)?;
    let head = ticket::unpack_head(&tape[..HEAD_LENGTH])?;
    Ok(Opened {
        head,
        plain: &plain[..TICKET_LENGTH * totals.tickets],
        net: totals.net,
    })
}

// The listing of an opened tape: 6 where the output is too short for it.
fn list_opened(opened: Opened<'_>, out: &mut [u8]) -> Result<usize, Refusal>
    ensures { Listed (text_of opened.entry.head opened.entry.plain.now) out.old result out.new }
{
    if room_behind(opened, out.len()).is_none() {
        return Err(Refusal::OutputTooShort);
    }
    Ok(put_listing(opened, out))
}

// The listing of a tape, whose tickets are opened into plain.
fn list_by(key: &[u8], tape: &[u8], plain: &mut [u8], out: &mut [u8]) -> Result<usize, Refusal>
    requires { longest_plain ≤ length plain.old }
    ensures { Listed (model.listing key.now tape.now) out.old result out.new }
{
    match open_into(key, tape, plain) {
        Err(refusal) => list_line(b"REFUSED", &[u64::from(u8::from(refusal))], out),
        Ok(opened) => list_opened(opened, out),
    }
}

// Writes the listing of a tape: 6 where the output is too short for it; nothing is written then, and nothing of the tickets kept.
pub fn list_tape(key: &[u8], tape: &[u8], out: &mut [u8]) -> Result<usize, Refusal>
    ensures { Listed (model.listing key.now tape.now) out.old result out.new }
{
    let mut plain = plain_buffer();
    let written = list_by(key, tape, &mut plain, out);
    if written.is_err() {
        zeroize::zeroize(&mut plain);
    }
    written
}

// The same of a program's input: the key's 16 bytes, or fewer where it is cut short, and then a tape.
pub fn list_input(input: &[u8], out: &mut [u8]) -> Result<usize, Refusal>
    ensures { Listed (model.printed input.now) out.old result out.new }
{
    let (key, tape) = input.split_at(input.len().min(KEY_LENGTH));
    list_tape(key, tape, out)
}

// Writes a line: a word, and numbers behind it, a space before each: 6 where the output is too short for it.
pub fn list_line(word: &[u8], ns: &[u64], out: &mut [u8]) -> Result<usize, Refusal>
    ensures { Listed (word.now ++ model.numbers ns.now ++ model.line_end) out.old result out.new }
{
    if room_behind_line(word.len(), ns, out.len()).is_none() {
        return Err(Refusal::OutputTooShort);
    }
    Ok(put_line(word, ns, out))
}

// Writes a line of numbers, a space between them: 6 where the output is too short for it. (Beside `list_line`: its first part is a number, whose digits stand
// nowhere as the bytes of a word.)
pub fn list_numbers(first: u64, ns: &[u64], out: &mut [u8]) -> Result<usize, Refusal>
    ensures { Listed (model.decimal first ++ model.numbers ns.now ++ model.line_end) out.old result out.new }
{
    if room_behind_line(decimal_length(first), ns, out.len()).is_none() {
        return Err(Refusal::OutputTooShort);
    }
    Ok(put_numbers_line(first, ns, out))
}
