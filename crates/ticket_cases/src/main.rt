// Runs cases (h) to (l) on the code of tickets and heads, then further weights and totals of plain bytes, and prints what they give.
#![tactic(auto)]

use calls::Refusal;
use std::{fmt, io};
use tape_model::{Head, Ticket, Totals};

// Case (h)'s ticket with these times and weights.
fn ticket_with(loaded: u32, tipped: u32, gross: u32, tare: u32) -> Ticket {
    Ticket {
        form: 1,
        truck: 5,
        shovel: 2,
        tip: 3,
        grade: 4,
        loaded,
        tipped,
        gross,
        tare,
    }
}

// Bytes in hexadecimal, a space before each.
#[derive(Clone, Copy)]
struct Hex<'a>(&'a [u8]);

impl fmt::Display for Hex<'_> {
    fn fmt<W: fmt::Write>(&self, f: &mut fmt::Formatter<W>) -> fmt::Result {
        for byte in self.0 {
            write!(f, " {byte:02x}")?;
        }
        Ok(())
    }
}

// What a call answered, with its values in this text, or its refusal.
fn print_answer<T: fmt::Display + Drop>(
    rt: &impl Print,
    answer: Result<T, Refusal>,
) -> io::Result<()> {
    match answer {
        Ok(values) => print!(rt; " {values}"),
        Err(refusal) => print!(rt; " refused {refusal}"),
    }
}

// The answer of a packing, and the output after it.
fn print_packed(rt: &impl Print, answer: Result<usize, Refusal>, out: &[u8]) -> io::Result<()> {
    print_answer(rt, answer)?;
    println!(rt; " bytes:{}", Hex(out))
}

fn print_valid(rt: &impl Print, case: &str, t: Ticket) -> io::Result<()> {
    let answer = if ticket::valid(t) {
        "valid"
    } else {
        "not valid"
    };
    println!(rt; "{case}: {answer}")
}

// A ticket's fields and its net.
#[derive(Clone, Copy)]
struct Fields(Ticket);

impl fmt::Display for Fields {
    fn fmt<W: fmt::Write>(&self, f: &mut fmt::Formatter<W>) -> fmt::Result {
        let t = self.0;
        write!(
            f,
            "{} {} {} {} {} {} {} {} {} net {}",
            t.form,
            t.truck,
            t.shovel,
            t.tip,
            t.grade,
            t.loaded,
            t.tipped,
            t.gross,
            t.tare,
            ticket::net(t)
        )
    }
}

fn print_unpacked(rt: &impl Print, answer: Result<Ticket, Refusal>) -> io::Result<()> {
    print_answer(rt, answer.map(Fields))?;
    println!(rt)
}

// A ticket packed.
fn print_packing(rt: &impl Print, t: Ticket, out: &mut [u8]) -> io::Result<()> {
    print_packed(rt, ticket::pack_ticket(t, out), out)
}

// A ticket packed, and its bytes unpacked again.
fn print_ticket(rt: &impl Print, t: Ticket, out: &mut [u8]) -> io::Result<()> {
    print_packing(rt, t, out)?;
    print!(rt; "unpacked:")?;
    print_unpacked(rt, ticket::unpack_ticket(out))
}

// The number of tickets and their net.
#[derive(Clone, Copy)]
struct Sums(Totals);

impl fmt::Display for Sums {
    fn fmt<W: fmt::Write>(&self, f: &mut fmt::Formatter<W>) -> fmt::Result {
        write!(f, "{} net {}", self.0.tickets, self.0.net)
    }
}

fn print_totals(rt: &impl Print, case: &str, plain: &[u8]) -> io::Result<()> {
    print!(rt; "totals {case}:")?;
    print_answer(rt, ticket::totals(plain).map(Sums))?;
    println!(rt)
}

// A head's fields.
#[derive(Clone, Copy)]
struct HeadFields(Head);

impl fmt::Display for HeadFields {
    fn fmt<W: fmt::Write>(&self, f: &mut fmt::Formatter<W>) -> fmt::Result {
        write!(f, "{} {} {}", self.0.device, self.0.shift, self.0.sheet)
    }
}

// A head packed, and its bytes unpacked again.
fn print_head(rt: &impl Print, h: Head, out: &mut [u8]) -> io::Result<()> {
    print_packed(rt, ticket::pack_head(h, out), out)?;
    print!(rt; "unpacked:")?;
    print_answer(rt, ticket::unpack_head(out).map(HeadFields))?;
    println!(rt)
}

// Tare equal to gross, and above it.
fn print_weights(rt: &impl Print) -> io::Result<()> {
    let mut packed = [0u8; 13];
    let mut untouched = [0x5au8; 13];
    print_valid(rt, "tare 250001", ticket_with(3600, 4200, 250000, 250001))?;
    print_valid(rt, "gross 0, tare 0", ticket_with(3600, 4200, 0, 0))?;
    print_valid(
        rt,
        "gross and tare 1048575",
        ticket_with(3600, 4200, 1048575, 1048575),
    )?;
    print_valid(
        rt,
        "gross 1048574, tare 1048575",
        ticket_with(3600, 4200, 1048574, 1048575),
    )?;
    print!(rt; "(l)")?;
    print_ticket(rt, ticket_with(3600, 4200, 250000, 250000), &mut packed)?;
    print!(rt; "tare 6, gross 5:")?;
    print_packing(rt, ticket_with(3600, 4200, 5, 6), &mut untouched)?;
    print!(rt; "bytes with tare 250001:")?;
    print_unpacked(
        rt,
        ticket::unpack_ticket(b"\x10\x14\x20\xd0\x38\x40\x41\xa0\xf4\x24\x0f\x42\x44"),
    )
}

fn print_by_value_and_totals(rt: &impl Print) -> io::Result<()> {
    println!(rt;
        "(h) by value:{}",
        Hex(&ticket::packed(ticket_with(3600, 4200, 250000, 110000)))
    )?;
    println!(rt;
        "(l) by value:{}",
        Hex(&ticket::packed(ticket_with(3600, 4200, 250000, 250000)))
    )?;
    println!(rt;
        "tare 250001 by value:{}",
        Hex(&ticket::packed(ticket_with(3600, 4200, 250000, 250001)))
    )?;
    print_totals(
        rt,
        "of (h) twice",
        b"\x10\x14\x20\xd0\x38\x40\x41\xa0\xf4\x24\x06\xb6\xc0\x10\x14\x20\xd0\x38\x40\x41\xa0\xf4\x24\x06\xb6\xc0",
    )?;
    print_totals(
        rt,
        "of (h) and (l)",
        b"\x10\x14\x20\xd0\x38\x40\x41\xa0\xf4\x24\x06\xb6\xc0\x10\x14\x20\xd0\x38\x40\x41\xa0\xf4\x24\x0f\x42\x40",
    )?;
    print_totals(
        rt,
        "with tare 250001",
        b"\x10\x14\x20\xd0\x38\x40\x41\xa0\xf4\x24\x06\xb6\xc0\x10\x14\x20\xd0\x38\x40\x41\xa0\xf4\x24\x0f\x42\x44",
    )?;
    print_totals(
        rt,
        "with last byte C1",
        b"\x10\x14\x20\xd0\x38\x40\x41\xa0\xf4\x24\x06\xb6\xc0\x10\x14\x20\xd0\x38\x40\x41\xa0\xf4\x24\x06\xb6\xc1",
    )?;
    print_totals(
        rt,
        "of 12 bytes",
        b"\x10\x14\x20\xd0\x38\x40\x41\xa0\xf4\x24\x06\xb6",
    )
}

fn main(rt: HostRuntime) -> io::Result<()> {
    let mut ticket_bytes = [0u8; 13];
    let mut head_bytes = [0u8; 9];
    let head = Head {
        device: 7,
        shift: 2,
        sheet: 1,
    };

    print!(rt; "(h)")?;
    print_ticket(
        &rt,
        ticket_with(3600, 4200, 250000, 110000),
        &mut ticket_bytes,
    )?;
    print!(rt; "(i)")?;
    print_head(&rt, head, &mut head_bytes)?;
    print_valid(
        &rt,
        "(j) tipped 43199",
        ticket_with(3600, 43199, 250000, 110000),
    )?;
    print_valid(
        &rt,
        "(j) tipped 43200",
        ticket_with(3600, 43200, 250000, 110000),
    )?;
    print_valid(
        &rt,
        "(k) loaded 4200",
        ticket_with(4200, 4200, 250000, 110000),
    )?;
    print_valid(
        &rt,
        "(l) tare 250000",
        ticket_with(3600, 4200, 250000, 250000),
    )?;
    print_weights(&rt)?;
    print!(rt; "last byte C1:")?;
    print_unpacked(
        &rt,
        ticket::unpack_ticket(b"\x10\x14\x20\xd0\x38\x40\x41\xa0\xf4\x24\x06\xb6\xc1"),
    )?;
    print!(rt; "12 bytes:")?;
    print_unpacked(
        &rt,
        ticket::unpack_ticket(b"\x10\x14\x20\xd0\x38\x40\x41\xa0\xf4\x24\x06\xb6"),
    )?;
    print_by_value_and_totals(&rt)
}
