// The calls of the interface for C, as include/haul_tape.h declares them and in its order; the crate haul_tape_c exports them. Nothing is asked of the
// caller but what the header says of pointers: any numbers and any words are taken, and each call's contract is an equation against the definitions of the
// library's own. (The functions named ht_ are C's calls, by C's names: include/haul_tape.h.)
#![tactic(auto, unfolding(session::specs::Words::machine_in, session::specs::Clauses::session_outcome, tape_writer::specs::Words::plain_writer_in, tape_writer::specs::Clauses::writer_outcome, reader::specs::Clauses::read_outcome, crate::specs::Clauses::words_after))]

ghost use Rattle.std.specs.Prelude.{◌≡◌, []};
ghost use Rattle.acorn_model.specs.declared.Kind.TheVariants.{Sealing, Checking};
ghost use Rattle.calls.specs.Calls.{◌if◌else◌, answer_reply, left_unchanged};
ghost use Rattle.acorn_model.specs.Stretches.{full_tag_length};
ghost use Rattle.acorn_model.specs.Machine as machine;
ghost use Rattle.tape_model.specs.Writer as plain;
ghost use Rattle.session.specs.Words.{words_for};
ghost use Rattle.tape_writer.specs.Words.{writer_words_for};
ghost use Rattle.pairing.specs.Clauses.{outputs};
ghost use Rattle.c_answers.specs.Answers.{answer_numbers};
ghost use Rattle.haul_tape.specs.Clauses.{SessionSeen, WriterSeen, SealSeen, OpenSeen, PackTicketSeen, UnpackTicketSeen, MoveTicketSeen, PackHeadSeen, UnpackHeadSeen, OpenTapeSeen, ReadTicketSeen, ListTapeSeen, TrucksSeen, TrucksOfTwoSeen, TruckSetSeen, PartingSeen, LongerSeen, PairTapesSeen};

use acorn_model::Kind;
use c_answers::{
    HtAnswer, HtOpened, HtPaired, HtParted, HtReading, HtReception, HtTruckCount, HtTruckCounts,
    HtUnpackedHead, HtUnpackedTicket, HtWritten, left_unchanged,
};
use calls::Answer;
use session::Session;
use tape_model::{Head, Ticket};
use tape_writer::Writer;

// ---- whole messages ----

pub fn ht_seal(key: &[u8], nonce: &[u8], data: &[u8], text: &[u8], out: &mut [u8]) -> HtWritten
    ensures { SealSeen full_tag_length key.now nonce.now «data».now text.now out.old result out.new }
{
    message::seal(key, nonce, data, text, out).into()
}

pub fn ht_open(key: &[u8], nonce: &[u8], data: &[u8], sealed: &[u8], out: &mut [u8]) -> HtWritten
    ensures { OpenSeen full_tag_length key.now nonce.now «data».now sealed.now out.old result out.new }
{
    message::open(key, nonce, data, sealed, out).into()
}

pub fn ht_seal_tag(
    key: &[u8],
    nonce: &[u8],
    data: &[u8],
    text: &[u8],
    taglen: usize,
    out: &mut [u8],
) -> HtWritten
    ensures { SealSeen taglen key.now nonce.now «data».now text.now out.old result out.new }
{
    message::seal_tag(key, nonce, data, text, taglen, out).into()
}

pub fn ht_open_tag(
    key: &[u8],
    nonce: &[u8],
    data: &[u8],
    sealed: &[u8],
    taglen: usize,
    out: &mut [u8],
) -> HtWritten
    ensures { OpenSeen taglen key.now nonce.now «data».now sealed.now out.old result out.new }
{
    message::open_tag(key, nonce, data, sealed, taglen, out).into()
}

// ---- sessions: a message in pieces ----

// The words after a call are stored, unless the call left all unchanged; and the answer goes into numbers.
fn handed_back<const N: usize>(words: &mut [u64; N], answer: Answer, after: [u64; N]) -> HtAnswer
    ensures value { result ≡ answer_numbers (answer_reply answer) }
    ensures words_after { words.new ≡ (words.old if left_unchanged (answer_reply answer) else after.entry) }
{
    if !left_unchanged(answer) {
        *words = after;
    }
    answer.into()
}

pub fn ht_session_fresh_sealing(s: &mut [u64; 11])
    ensures { s.new ≡ words_for (machine.fresh Sealing) }
{
    *s = Session::fresh(Kind::Sealing).words();
}

pub fn ht_session_fresh_checking(s: &mut [u64; 11])
    ensures { s.new ≡ words_for (machine.fresh Checking) }
{
    *s = Session::fresh(Kind::Checking).words();
}

pub fn ht_session_begin(s: &mut [u64; 11], key: &[u8], nonce: &[u8]) -> HtAnswer
    ensures { SessionSeen s.old (machine.begin key.now nonce.now full_tag_length) s.new result [] }
{
    let reply = Session::from_words(s).begin(key, nonce);
    handed_back(s, reply.answer, reply.session.words())
}

pub fn ht_session_begin_tag(s: &mut [u64; 11], key: &[u8], nonce: &[u8], taglen: usize) -> HtAnswer
    ensures { SessionSeen s.old (machine.begin key.now nonce.now taglen) s.new result [] }
{
    let reply = Session::from_words(s).begin_tag(key, nonce, taglen);
    handed_back(s, reply.answer, reply.session.words())
}

pub fn ht_session_data(s: &mut [u64; 11], piece: &[u8]) -> HtAnswer
    ensures { SessionSeen s.old (machine.data_call piece.now) s.new result [] }
{
    let reply = Session::from_words(s).data(piece);
    handed_back(s, reply.answer, reply.session.words())
}

pub fn ht_session_seal_text(s: &mut [u64; 11], piece: &[u8], out: &mut [u8]) -> HtAnswer
    ensures { SessionSeen s.old (machine.seal_text piece.now out.old) s.new result out.new }
{
    let reply = Session::from_words(s).seal_text(piece, out);
    handed_back(s, reply.answer, reply.session.words())
}

pub fn ht_session_seal_close(s: &mut [u64; 11], out: &mut [u8]) -> HtAnswer
    ensures { SessionSeen s.old (machine.seal_close out.old) s.new result out.new }
{
    let reply = Session::from_words(s).seal_close(out);
    handed_back(s, reply.answer, reply.session.words())
}

pub fn ht_session_check_text(s: &mut [u64; 11], piece: &[u8]) -> HtAnswer
    ensures { SessionSeen s.old (machine.check_text piece.now) s.new result [] }
{
    let reply = Session::from_words(s).check_text(piece);
    handed_back(s, reply.answer, reply.session.words())
}

pub fn ht_session_check_close(s: &mut [u64; 11], tag: &[u8]) -> HtAnswer
    ensures { SessionSeen s.old (machine.check_close tag.now) s.new result [] }
{
    let reply = Session::from_words(s).check_close(tag);
    handed_back(s, reply.answer, reply.session.words())
}

// ---- tickets and heads ----

pub fn ht_pack_ticket(ticket: Ticket, out: &mut [u8]) -> HtWritten
    ensures { PackTicketSeen ticket out.old result out.new }
{
    ticket::pack_ticket(ticket, out).into()
}

pub fn ht_unpack_ticket(packed: &[u8]) -> HtUnpackedTicket
    ensures { UnpackTicketSeen packed.now result }
{
    ticket::unpack_ticket(packed).into()
}

pub fn ht_move_ticket(ticket: Ticket, form: u8) -> HtUnpackedTicket
    ensures { MoveTicketSeen ticket form result }
{
    forms::move_ticket(ticket, form).into()
}

pub fn ht_pack_head(head: Head, out: &mut [u8]) -> HtWritten
    ensures { PackHeadSeen head out.old result out.new }
{
    ticket::pack_head(head, out).into()
}

pub fn ht_unpack_head(packed: &[u8]) -> HtUnpackedHead
    ensures { UnpackHeadSeen packed.now result }
{
    ticket::unpack_head(packed).into()
}

// ---- tapes ----

pub fn ht_writer_fresh(w: &mut [u64; 12])
    ensures { w.new ≡ writer_words_for plain.fresh_writer }
{
    *w = Writer::fresh().words();
}

pub fn ht_writer_start(w: &mut [u64; 12], key: &[u8], head: Head, out: &mut [u8]) -> HtAnswer
    ensures { WriterSeen w.old (plain.start key.now head out.old) w.new result out.new }
{
    let reply = Writer::from_words(w).start(key, head, out);
    handed_back(w, reply.answer, reply.writer.words())
}

// The first ticket goes another way than the others, so that the code for these has no data end in it.
pub fn ht_writer_add(w: &mut [u64; 12], ticket: Ticket, out: &mut [u8]) -> HtAnswer
    ensures { WriterSeen w.old (plain.add ticket out.old) w.new result out.new }
{
    let writer = Writer::from_words(w);
    if writer.in_text() {
        let reply = writer.add(ticket, out);
        return handed_back(w, reply.answer, reply.writer.words());
    }
    let reply = writer.add_first(ticket, out);
    handed_back(w, reply.answer, reply.writer.words())
}

pub fn ht_writer_finish(w: &mut [u64; 12], out: &mut [u8]) -> HtAnswer
    ensures { WriterSeen w.old (plain.finish out.old) w.new result out.new }
{
    let reply = Writer::from_words(w).finish(out);
    handed_back(w, reply.answer, reply.writer.words())
}

pub fn ht_open_tape(key: &[u8], tape: &[u8], out: &mut [u8]) -> HtOpened
    ensures { OpenTapeSeen key.now tape.now out.old result out.new }
{
    tape_opening::open_tape(key, tape, out).into()
}

pub fn ht_read_ticket(plain: &[u8], position: u64) -> HtReading
    ensures { ReadTicketSeen plain.now position result }
{
    reader::read_at(plain, position as usize).into()
}

pub fn ht_list_tape(key: &[u8], tape: &[u8], out: &mut [u8]) -> HtWritten
    ensures { ListTapeSeen key.now tape.now out.old result out.new }
{
    listing::list_tape(key, tape, out).into()
}

// ---- trucks out on the shift ----

pub fn ht_trucks(plain: &[u8]) -> HtTruckCount
    ensures { TrucksSeen plain.now result }
{
    trucks::trucks(plain).into()
}

pub fn ht_trucks_of_two(first: &[u8], second: &[u8]) -> HtTruckCounts
    ensures { TrucksOfTwoSeen first.now second.now result }
{
    trucks::trucks_of_two(first, second).into()
}

#[tactic(auto, unfolding(trucks::specs::Trucks::plain_trucks, trucks::specs::Trucks::plain_truck_set, tape_model::specs::Tape::of_plain, calls::specs::Calls::map_reply, calls::specs::Calls::as_reply))]
pub fn ht_truck_set_of(plain: &[u8], set: &mut [u64; 16]) -> HtTruckCount
    ensures { TruckSetSeen plain.now set.old result set.new }
{
    let found = trucks::truck_set_of(plain);
    if found.answer.is_ok() {
        *set = found.set.words;
    }
    found.answer.into()
}

// ---- two masts hear one tape ----

pub fn ht_parting(first: &[u8], second: &[u8]) -> HtParted
    ensures { PartingSeen first.now second.now result }
{
    receptions::parting(first, second).into()
}

// What is handed back has more bytes than the first mast's reception only where it is the second's.
#[tactic(auto, using(crate::proofs::Receptions::first_told, crate::proofs::Receptions::second_told))]
pub fn ht_longer<'a>(first: &'a [u8], second: &'a [u8]) -> HtReception
    ensures { LongerSeen first.now second.now result }
{
    let bytes = receptions::longer(first, second).len();
    HtReception {
        mast: if first.len() < bytes { 2 } else { 1 },
        bytes: bytes as u64,
    }
}

// ---- cab against crusher ----

pub fn ht_pair_tapes(
    first: &[u8],
    second: &[u8],
    pairs: &mut [u32],
    left_first: &mut [u32],
    left_second: &mut [u32],
) -> HtPaired
    ensures { PairTapesSeen first.now second.now (outputs pairs.old left_first.old left_second.old) result (outputs pairs.new left_first.new left_second.new) }
{
    pairing::pair_tapes(first, second, pairs, left_first, left_second).into()
}
