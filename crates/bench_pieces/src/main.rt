// For the benchmark: 400 sealing sessions, each of 65,000 bytes of text in pieces of 13. Prints the steps of the last, and the first byte of its tag.
#![tactic(auto)]

use acorn_model::Kind;
use calls::Answer;
use session::Session;
use std::io;

// Bytes that are not all alike.
fn fill(text: &mut [u8]) {
    for (i, byte) in text.iter_mut().enumerate() {
        *byte = (i % 251) as u8;
    }
}

// A session with the nonce as its key, too. Its tag becomes the nonce, so that each session needs the one before it. (0 where the arguments do
// not fit, and no Option: the benchmark prints the number.)
fn sealed(nonce: &mut [u8], text: &[u8], each: usize, out: &mut [u8]) -> u64 {
    if each == 0 || 65536 < text.len() || out.len() < text.len() {
        return 0;
    }
    let mut session = Session::fresh(Kind::Sealing).begin(nonce, nonce).session;
    let mut at = 0;
    // by a place: over a range of numbers a piece takes 11 of 383 instructions more, over `chunks_exact` 150
    while text.len() - at >= each {
        let piece = &text[at..at + each];
        session = session.seal_text(piece, &mut out[at..]).session;
        at += each;
    }
    match session.seal_close(nonce).answer {
        Answer::Refused(_) => 0,
        Answer::Done(_, steps) => steps,
    }
}

fn main(rt: HostRuntime) -> io::Result<()> {
    // arrays of fixed size, since the project allows no heap
    let mut text = [0; 65000];
    fill(&mut text);
    // 13, which the compiler does not know
    let each = usize::from(text[13]);
    let mut out = [0; 65000];
    let mut nonce = [0; 16];
    let mut steps = 0;
    for _ in 0..400 {
        steps = sealed(&mut nonce, &text, each, &mut out);
    }
    println!(rt; "{steps} {}", nonce[0])
}
