// For the benchmark: 400 tapes of 5,000 tickets, written add by add. Prints the steps of the last, and the first byte of its tag.
#![tactic(auto)]

use calls::Answer;
use std::io;
use tape_model::{HEAD_LENGTH, Head, TICKET_LENGTH, Ticket};
use tape_writer::Writer;

// Tickets that are not all alike.
fn ticket_at(n: u16) -> Ticket {
    let second = u32::from(n);
    Ticket {
        form: 1,
        truck: n % 1000 + 1,
        shovel: (n % 60 + 1) as u8,
        tip: (n % 50 + 1) as u8,
        grade: (n % 10) as u8,
        loaded: second % 40000,
        tipped: second % 40000,
        gross: 250000 + second,
        tare: 110000 + second,
    }
}

// A tape. Its tag becomes the key, so that each tape needs the one before it.
fn written(key: &mut [u8], out: &mut [u8; 65025]) -> u64 {
    let head = Head {
        device: 7,
        shift: 2,
        sheet: 1,
    };
    let mut writer = Writer::fresh().start(key, head, out).writer;
    // by a range of numbers: over `chunks_exact_mut` an add takes 120 of 380 instructions more
    for n in 0..5000 {
        let at = HEAD_LENGTH + TICKET_LENGTH * usize::from(n);
        writer = writer.add(ticket_at(n), &mut out[at..]).writer;
    }
    match writer.finish(key).answer {
        Answer::Refused(_) => 0,
        Answer::Done(_, steps) => steps,
    }
}

fn main(rt: HostRuntime) -> io::Result<()> {
    // arrays of fixed size, since the project allows no heap
    let mut out = [0; 65025];
    let mut key = [0; 16];
    let mut steps = 0;
    for _ in 0..400 {
        steps = written(&mut key, &mut out);
    }
    println!(rt; "{steps} {}", key[0])
}
