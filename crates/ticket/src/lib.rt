// Tickets and heads: their rules, packing them, unpacking, and the totals of plain bytes. Packed bytes are one number, the first byte on
// top, which the code holds in two words.
#![tactic(auto)]

ghost use Rattle.std.specs.Prelude.{◌≡◌, true, ℕ, ◌+◌, ◌*◌, ◌/◌, ◌%◌, ◌^◌, ◌<◌};
ghost use Rattle.calls.specs.Calls.{as_reply, put_into};
ghost use Rattle.tape_model.specs.Format.{join, cut, byte_widths, widths};
ghost use Rattle.tape_model.specs.Ticket as model;
ghost use Rattle.tape_model.specs.Tape.{is_tickets_length, plain_totals};
ghost use Rattle.ticket.specs.Packing.{packed_or_zeros, nonce_or_zeros};
ghost use Rattle.ticket.specs.Rule.{last_second, tipped_in_range, place_rule, load_rule};
ghost use Rattle.ticket.specs.Clauses.{PacksTicket, PacksHead, UnpacksTicket, UnpacksHead};

use calls::Refusal;
use tape_model::{HEAD_LENGTH, Head, TICKET_LENGTH, TICKET_LIMIT, Ticket, Totals};

// The last second that loaded and tipped may have: of half a day in form 1, of a whole day in form 2. By the two orders, loaded and tare are in their ranges where
// tipped and gross are.
fn last_second(t: Ticket) -> u32
    ensures { result ≡ last_second t }
{
    if t.form == 2 { 86399 } else { 43199 }
}

// Whether tipped is in its range.
fn tipped_in_range(t: Ticket) -> bool
    ensures { result ≡ tipped_in_range t }
{
    t.tipped <= last_second(t)
}

// The ranges of truck, shovel, tip point and grade.
fn place_valid(t: Ticket) -> bool
    ensures { result ≡ place_rule t }
{
    (1..=1023).contains(&t.truck)
        & (1..=63).contains(&t.shovel)
        & (1..=63).contains(&t.tip)
        & (t.grade <= 9)
}

// The range of gross, and the two orders.
fn load_valid(t: Ticket) -> bool
    ensures { result ≡ load_rule t }
{
    (t.gross <= 1048575) & (t.loaded <= t.tipped) & (t.tare <= t.gross)
}

// The ticket rule. (The form by two comparisons: with `contains`, packing a ticket takes 120 instructions for 109.)
pub fn valid(t: Ticket) -> bool
    ensures { result ≡ model.ticket_rule t }
{
    (((1 <= t.form) & (t.form <= 2)) & tipped_in_range(t)) & (place_valid(t) & load_valid(t))
}

// The rule for a ticket that is to be written.
pub fn writable(t: Ticket) -> bool
    ensures { result ≡ model.write_rule t }
{
    valid(t)
}

// Gross minus tare; 0 where tare is above gross.
#[tactic(auto, unfolding(tape_model::specs::Ticket::net))]
pub fn net(t: Ticket) -> u32
    ensures { result ≡ model.net t }
{
    t.gross.saturating_sub(t.tare)
}

// The head rule.
pub fn head_valid(h: Head) -> bool
    ensures { result ≡ model.head_rule h }
{
    (1..=4_294_967_295).contains(&h.device)
        & (1..=1_000_000).contains(&h.shift)
        & (1..=1_000_000).contains(&h.sheet)
}

// A packed ticket as a number: its first 64 bits, and its last 40.
#[derive(Clone, Copy)]
struct Words {
    high: u64,
    low: u64,
}

// The number of a ticket.
fn words_of(t: Ticket) -> Words
    requires { model.ticket_rule t ≡ true }
    ensures { (result.low < 2 ^ 40) × (result.high * 2 ^ 40 + result.low ≡ join (widths (model.format_of t.form)) (model.ticket_values t)) }
{
    let loaded = u64::from(t.loaded);
    let tipped = u64::from(t.tipped);
    let gross = u64::from(t.gross);
    let tare = u64::from(t.tare);
    let load = ((u64::from(t.form) * 1024 + u64::from(t.truck)) * 64 + u64::from(t.shovel)) * 1024
        + u64::from(t.tip) * 16
        + u64::from(t.grade);
    if t.form == 2 {
        Words {
            high: (load * 0x2_0000 + loaded) * 0x2_0000 + tipped,
            low: gross * 0x10_0000 + tare,
        }
    } else {
        Words {
            high: ((load * 0x1_0000 + loaded) * 0x1_0000 + tipped) * 4 + gross / 0x4_0000,
            low: gross % 0x4_0000 * 0x40_0000 + tare * 4,
        }
    }
}

// The 13 bytes of the number.
fn ticket_bytes(w: Words) -> [u8; 13]
    requires { w.low < 2 ^ 40 }
    ensures { result ≡ cut (byte_widths 13) (w.high * 2 ^ 40 + w.low) }
{
    let mut bytes = [0; 13];
    bytes[..8].copy_from_slice(&w.high.to_be_bytes());
    bytes[8..].copy_from_slice(&w.low.to_be_bytes()[3..]);
    bytes
}

// A packed ticket.
fn packed_ticket(t: Ticket) -> [u8; 13]
    requires { model.ticket_rule t ≡ true }
    ensures { result ≡ model.pack_ticket t }
{
    ticket_bytes(words_of(t))
}

// A packed head, by 32 bits and 40, whatever its values. Where a value is too wide for its field, it runs over into the one before it, as in the
// number that the packed bytes are.
pub fn packed_head(h: Head) -> [u8; 9]
    ensures { result ≡ model.pack_head h }
{
    let l = u64::from(h.shift) * 0x10_0000 + u64::from(h.sheet);
    let d = u64::from(h.device) + l / 0x100_0000_0000;
    let mut bytes = [0; 9];
    bytes[..4].copy_from_slice(&d.to_be_bytes()[4..]);
    bytes[4..].copy_from_slice(&l.to_be_bytes()[3..]);
    bytes
}

// Writes bytes at the start of the output: 6 where it is too short.
fn put(packed: &[u8], out: &mut [u8]) -> Result<usize, Refusal>
    ensures { put_into packed.now out.old ≡ record { answer = as_reply result; out = out.new } }
{
    if out.len() < packed.len() {
        return Err(Refusal::OutputTooShort);
    }
    out[..packed.len()].copy_from_slice(packed);
    Ok(packed.len())
}

// Writes a packed ticket: 4 for one that breaks the rule, 6 for an output under 13 bytes. (Not one function with `pack_head`: their types, rules, refusals and
// packings differ, and what is left is a test and a call of `put`.)
pub fn pack_ticket(t: Ticket, out: &mut [u8]) -> Result<usize, Refusal>
    ensures { PacksTicket t out.old result out.new }
{
    if !valid(t) {
        return Err(Refusal::TicketRule);
    }
    let packed = packed_ticket(t);
    put(&packed, out)
}

// A packed ticket by value: zeros for one that breaks the rule.
pub fn packed(t: Ticket) -> [u8; 13]
    ensures { result ≡ packed_or_zeros t }
{
    if valid(t) { packed_ticket(t) } else { [0; 13] }
}

// Writes a packed head: 3 for one that breaks the rule, 6 for an output under 9 bytes.
pub fn pack_head(h: Head, out: &mut [u8]) -> Result<usize, Refusal>
    ensures { PacksHead h out.old result out.new }
{
    if !head_valid(h) {
        return Err(Refusal::HeadOutOfRange);
    }
    let packed = packed_head(h);
    put(&packed, out)
}

// The ticket in a number of 104 bits that begins with this form, by its first 64 bits and its last 64. In form 1 two spare bits are behind tare.
fn ticket_in<const FORM: u8>(h: u64, l: u64) -> Ticket
    requires { h / 2 ^ 60 ≡ FORM }
    ensures { (result.form ≡ FORM) × ((n : ℕ) → h ≡ n / 2 ^ 40 → l ≡ n % 2 ^ 64 → result ≡ model.ticket_of (cut (widths (model.format_of FORM)) n)) }
{
    let (loaded, tipped, weights) = if FORM == 2 {
        ((h / 0x2_0000 % 0x2_0000) as u32, (h % 0x2_0000) as u32, l)
    } else {
        (
            (h / 0x4_0000 % 0x1_0000) as u32,
            (h / 4 % 0x1_0000) as u32,
            l / 4,
        )
    };
    Ticket {
        form: FORM,
        truck: (h / 0x4_0000_0000_0000 % 1024) as u16,
        shovel: (h / 0x1000_0000_0000 % 64) as u8,
        tip: (h / 0x40_0000_0000 % 64) as u8,
        grade: (h / 0x4_0000_0000 % 16) as u8,
        loaded,
        tipped,
        gross: (weights / 0x10_0000 % 0x10_0000) as u32,
        tare: (weights % 0x10_0000) as u32,
    }
}

// The ticket in packed bytes: 2 for another size than 13, 8 where its values or spare bits, which form 1 alone has, break the rule. Form 1 is told by
// the first byte, and form 2 by the first word: were both told by the word, the compiler would test it for form 2 first.
// (Each form tests its times by itself: with one function for both forms' tests, a call takes 88 to 100 instructions for 83.)
pub fn unpack_ticket(packed: &[u8]) -> Result<Ticket, Refusal>
    ensures { UnpacksTicket packed.now result }
{
    if packed.len() != TICKET_LENGTH {
        return Err(Refusal::WrongLength);
    }
    let h = u64::from_be_bytes(*packed.first_chunk().unwrap());
    let l = u64::from_be_bytes(*packed.last_chunk().unwrap());
    let t = if packed[0] / 16 == 1 {
        if l % 4 != 0 {
            return Err(Refusal::TicketUnreadable);
        }
        let t = ticket_in::<1>(h, l);
        if !tipped_in_range(t) {
            return Err(Refusal::TicketUnreadable);
        }
        t
    } else {
        if h / 0x1000_0000_0000_0000 != 2 {
            return Err(Refusal::TicketUnreadable);
        }
        let t = ticket_in::<2>(h, l);
        if !tipped_in_range(t) {
            return Err(Refusal::TicketUnreadable);
        }
        t
    };
    if place_valid(t) & load_valid(t) {
        Ok(t)
    } else {
        Err(Refusal::TicketUnreadable)
    }
}

// The head in packed bytes: 2 for another size than 9, 3 for a field outside its range.
pub fn unpack_head(packed: &[u8]) -> Result<Head, Refusal>
    ensures { UnpacksHead packed.now result }
{
    if packed.len() != HEAD_LENGTH {
        return Err(Refusal::WrongLength);
    }
    let h = u64::from_be_bytes(*packed.first_chunk().unwrap());
    let l = u64::from_be_bytes(*packed.last_chunk().unwrap());
    let head = Head {
        device: (h / 0x1_0000_0000) as u32,
        shift: (l / 0x10_0000 % 0x10_0000) as u32,
        sheet: (l % 0x10_0000) as u32,
    };
    if head_valid(head) {
        Ok(head)
    } else {
        Err(Refusal::HeadOutOfRange)
    }
}

// Whether so many bytes are 13 for each of at most 5,000 tickets.
pub fn is_tickets_length(n: usize) -> bool
    ensures { result ≡ is_tickets_length n }
{
    (n % TICKET_LENGTH == 0) & (n / TICKET_LENGTH <= TICKET_LIMIT)
}

// The totals of plain bytes: 2 where they are not 13 for each of at most 5,000 tickets, 8 where one does not unpack.
// (This loop and those of `trucks::set_on`, `pay_sheet::nets_by_contractor`, `pairing::Tickets::of` and the listing each have a `let .. else` of their own, the
// form that document 01 names for reading a tape. Four of them share the laws of ticket/proofs/EachTicket; the listing is of tickets known to unpack.)
pub fn totals(plain: &[u8]) -> Result<Totals, Refusal>
    ensures { as_reply result ≡ plain_totals plain.now }
{
    if !is_tickets_length(plain.len()) {
        return Err(Refusal::WrongLength);
    }
    let mut sum: u64 = 0;
    for packed in plain.chunks_exact(TICKET_LENGTH) {
        let Ok(t) = unpack_ticket(packed) else {
            return Err(Refusal::TicketUnreadable);
        };
        sum += u64::from(net(t));
    }
    Ok(Totals {
        tickets: plain.len() / TICKET_LENGTH,
        net: sum,
    })
}

// The nonce of a head's 9 bytes, which are filled up with zeros; all zeros for another size.
pub fn nonce_of(head: &[u8]) -> [u8; 16]
    ensures { result ≡ nonce_or_zeros head.now }
{
    let mut nonce = [0; 16];
    if head.len() == HEAD_LENGTH {
        nonce[..HEAD_LENGTH].copy_from_slice(head);
    }
    nonce
}
