// The interface for C: the functions of the crate haul_tape under their names, with the same clauses, as include/haul_tape.h declares them and in
// its order. (C needs each as an `extern "C"` function under its own name, in a static library: the words below repeat those of haul_tape.)
#![tactic(auto)]

ghost use Rattle.std.specs.Prelude.{◌≡◌, []};
ghost use Rattle.acorn_model.specs.declared.Kind.TheVariants.{Sealing, Checking};
ghost use Rattle.acorn_model.specs.Stretches.{full_tag_length};
ghost use Rattle.acorn_model.specs.Machine as machine;
ghost use Rattle.tape_model.specs.Writer as plain;
ghost use Rattle.session.specs.Words.{words_for};
ghost use Rattle.tape_writer.specs.Words.{writer_words_for};
ghost use Rattle.pairing.specs.Clauses.{outputs};
ghost use Rattle.haul_tape.specs.Clauses.{SessionSeen, WriterSeen, SealSeen, OpenSeen, PackTicketSeen, UnpackTicketSeen, MoveTicketSeen, PackHeadSeen, UnpackHeadSeen, OpenTapeSeen, ReadTicketSeen, ListTapeSeen, TrucksSeen, TrucksOfTwoSeen, TruckSetSeen, PartingSeen, LongerSeen, PairTapesSeen};

use c_answers::{
    HtAnswer, HtOpened, HtPaired, HtParted, HtReading, HtReception, HtTruckCount, HtTruckCounts,
    HtUnpackedHead, HtUnpackedTicket, HtWritten,
};
use tape_model::{Head, Ticket};

// ---- whole messages ----

#[unsafe(no_mangle)]
pub extern "C" fn ht_seal(
    key: &[u8],
    nonce: &[u8],
    data: &[u8],
    text: &[u8],
    out: &mut [u8],
) -> HtWritten
    ensures { SealSeen full_tag_length key.now nonce.now «data».now text.now out.old result out.new }
{
    haul_tape::ht_seal(key, nonce, data, text, out)
}

#[unsafe(no_mangle)]
pub extern "C" fn ht_open(
    key: &[u8],
    nonce: &[u8],
    data: &[u8],
    sealed: &[u8],
    out: &mut [u8],
) -> HtWritten
    ensures { OpenSeen full_tag_length key.now nonce.now «data».now sealed.now out.old result out.new }
{
    haul_tape::ht_open(key, nonce, data, sealed, out)
}

#[unsafe(no_mangle)]
pub extern "C" fn ht_seal_tag(
    key: &[u8],
    nonce: &[u8],
    data: &[u8],
    text: &[u8],
    taglen: usize,
    out: &mut [u8],
) -> HtWritten
    ensures { SealSeen taglen key.now nonce.now «data».now text.now out.old result out.new }
{
    haul_tape::ht_seal_tag(key, nonce, data, text, taglen, out)
}

#[unsafe(no_mangle)]
pub extern "C" fn ht_open_tag(
    key: &[u8],
    nonce: &[u8],
    data: &[u8],
    sealed: &[u8],
    taglen: usize,
    out: &mut [u8],
) -> HtWritten
    ensures { OpenSeen taglen key.now nonce.now «data».now sealed.now out.old result out.new }
{
    haul_tape::ht_open_tag(key, nonce, data, sealed, taglen, out)
}

// ---- sessions: a message in pieces ----

#[unsafe(no_mangle)]
pub extern "C" fn ht_session_fresh_sealing(s: &mut [u64; 11])
    ensures { s.new ≡ words_for (machine.fresh Sealing) }
{
    haul_tape::ht_session_fresh_sealing(s);
}

#[unsafe(no_mangle)]
pub extern "C" fn ht_session_fresh_checking(s: &mut [u64; 11])
    ensures { s.new ≡ words_for (machine.fresh Checking) }
{
    haul_tape::ht_session_fresh_checking(s);
}

#[unsafe(no_mangle)]
pub extern "C" fn ht_session_begin(s: &mut [u64; 11], key: &[u8], nonce: &[u8]) -> HtAnswer
    ensures { SessionSeen s.old (machine.begin key.now nonce.now full_tag_length) s.new result [] }
{
    haul_tape::ht_session_begin(s, key, nonce)
}

#[unsafe(no_mangle)]
pub extern "C" fn ht_session_begin_tag(
    s: &mut [u64; 11],
    key: &[u8],
    nonce: &[u8],
    taglen: usize,
) -> HtAnswer
    ensures { SessionSeen s.old (machine.begin key.now nonce.now taglen) s.new result [] }
{
    haul_tape::ht_session_begin_tag(s, key, nonce, taglen)
}

#[unsafe(no_mangle)]
pub extern "C" fn ht_session_data(s: &mut [u64; 11], piece: &[u8]) -> HtAnswer
    ensures { SessionSeen s.old (machine.data_call piece.now) s.new result [] }
{
    haul_tape::ht_session_data(s, piece)
}

#[unsafe(no_mangle)]
pub extern "C" fn ht_session_seal_text(s: &mut [u64; 11], piece: &[u8], out: &mut [u8]) -> HtAnswer
    ensures { SessionSeen s.old (machine.seal_text piece.now out.old) s.new result out.new }
{
    haul_tape::ht_session_seal_text(s, piece, out)
}

#[unsafe(no_mangle)]
pub extern "C" fn ht_session_seal_close(s: &mut [u64; 11], out: &mut [u8]) -> HtAnswer
    ensures { SessionSeen s.old (machine.seal_close out.old) s.new result out.new }
{
    haul_tape::ht_session_seal_close(s, out)
}

#[unsafe(no_mangle)]
pub extern "C" fn ht_session_check_text(s: &mut [u64; 11], piece: &[u8]) -> HtAnswer
    ensures { SessionSeen s.old (machine.check_text piece.now) s.new result [] }
{
    haul_tape::ht_session_check_text(s, piece)
}

#[unsafe(no_mangle)]
pub extern "C" fn ht_session_check_close(s: &mut [u64; 11], tag: &[u8]) -> HtAnswer
    ensures { SessionSeen s.old (machine.check_close tag.now) s.new result [] }
{
    haul_tape::ht_session_check_close(s, tag)
}

// ---- tickets and heads ----

#[unsafe(no_mangle)]
pub extern "C" fn ht_pack_ticket(ticket: Ticket, out: &mut [u8]) -> HtWritten
    ensures { PackTicketSeen ticket out.old result out.new }
{
    haul_tape::ht_pack_ticket(ticket, out)
}

#[unsafe(no_mangle)]
pub extern "C" fn ht_unpack_ticket(packed: &[u8]) -> HtUnpackedTicket
    ensures { UnpackTicketSeen packed.now result }
{
    haul_tape::ht_unpack_ticket(packed)
}

#[unsafe(no_mangle)]
pub extern "C" fn ht_move_ticket(ticket: Ticket, form: u8) -> HtUnpackedTicket
    ensures { MoveTicketSeen ticket form result }
{
    haul_tape::ht_move_ticket(ticket, form)
}

#[unsafe(no_mangle)]
pub extern "C" fn ht_pack_head(head: Head, out: &mut [u8]) -> HtWritten
    ensures { PackHeadSeen head out.old result out.new }
{
    haul_tape::ht_pack_head(head, out)
}

#[unsafe(no_mangle)]
pub extern "C" fn ht_unpack_head(packed: &[u8]) -> HtUnpackedHead
    ensures { UnpackHeadSeen packed.now result }
{
    haul_tape::ht_unpack_head(packed)
}

// ---- tapes ----

#[unsafe(no_mangle)]
pub extern "C" fn ht_writer_fresh(w: &mut [u64; 12])
    ensures { w.new ≡ writer_words_for plain.fresh_writer }
{
    haul_tape::ht_writer_fresh(w);
}

#[unsafe(no_mangle)]
pub extern "C" fn ht_writer_start(
    w: &mut [u64; 12],
    key: &[u8],
    head: Head,
    out: &mut [u8],
) -> HtAnswer
    ensures { WriterSeen w.old (plain.start key.now head out.old) w.new result out.new }
{
    haul_tape::ht_writer_start(w, key, head, out)
}

#[unsafe(no_mangle)]
pub extern "C" fn ht_writer_add(w: &mut [u64; 12], ticket: Ticket, out: &mut [u8]) -> HtAnswer
    ensures { WriterSeen w.old (plain.add ticket out.old) w.new result out.new }
{
    haul_tape::ht_writer_add(w, ticket, out)
}

#[unsafe(no_mangle)]
pub extern "C" fn ht_writer_finish(w: &mut [u64; 12], out: &mut [u8]) -> HtAnswer
    ensures { WriterSeen w.old (plain.finish out.old) w.new result out.new }
{
    haul_tape::ht_writer_finish(w, out)
}

#[unsafe(no_mangle)]
pub extern "C" fn ht_open_tape(key: &[u8], tape: &[u8], out: &mut [u8]) -> HtOpened
    ensures { OpenTapeSeen key.now tape.now out.old result out.new }
{
    haul_tape::ht_open_tape(key, tape, out)
}

#[unsafe(no_mangle)]
pub extern "C" fn ht_read_ticket(plain: &[u8], position: u64) -> HtReading
    ensures { ReadTicketSeen plain.now position result }
{
    haul_tape::ht_read_ticket(plain, position)
}

#[unsafe(no_mangle)]
pub extern "C" fn ht_list_tape(key: &[u8], tape: &[u8], out: &mut [u8]) -> HtWritten
    ensures { ListTapeSeen key.now tape.now out.old result out.new }
{
    haul_tape::ht_list_tape(key, tape, out)
}

// ---- trucks out on the shift ----

#[unsafe(no_mangle)]
pub extern "C" fn ht_trucks(plain: &[u8]) -> HtTruckCount
    ensures { TrucksSeen plain.now result }
{
    haul_tape::ht_trucks(plain)
}

#[unsafe(no_mangle)]
pub extern "C" fn ht_trucks_of_two(first: &[u8], second: &[u8]) -> HtTruckCounts
    ensures { TrucksOfTwoSeen first.now second.now result }
{
    haul_tape::ht_trucks_of_two(first, second)
}

#[unsafe(no_mangle)]
pub extern "C" fn ht_truck_set_of(plain: &[u8], set: &mut [u64; 16]) -> HtTruckCount
    ensures { TruckSetSeen plain.now set.old result set.new }
{
    haul_tape::ht_truck_set_of(plain, set)
}

// ---- two masts hear one tape ----

#[unsafe(no_mangle)]
pub extern "C" fn ht_parting(first: &[u8], second: &[u8]) -> HtParted
    ensures { PartingSeen first.now second.now result }
{
    haul_tape::ht_parting(first, second)
}

#[unsafe(no_mangle)]
pub extern "C" fn ht_longer<'a>(first: &'a [u8], second: &'a [u8]) -> HtReception
    ensures { LongerSeen first.now second.now result }
{
    haul_tape::ht_longer(first, second)
}

// ---- cab against crusher ----

#[unsafe(no_mangle)]
pub extern "C" fn ht_pair_tapes(
    first: &[u8],
    second: &[u8],
    pairs: &mut [u32],
    left_first: &mut [u32],
    left_second: &mut [u32],
) -> HtPaired
    ensures { PairTapesSeen first.now second.now (outputs pairs.old left_first.old left_second.old) result (outputs pairs.new left_first.new left_second.new) }
{
    haul_tape::ht_pair_tapes(first, second, pairs, left_first, left_second)
}
