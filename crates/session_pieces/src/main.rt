// Seals a message in a session, its text in two pieces, and compares what comes with the whole message sealed at once.
#![tactic(auto)]

use acorn_model::Kind;
use calls::{Answer, Refusal};
use session::{Reply, Session};
use std::io;

// The session after a call, or what sent the call back.
fn accepted(reply: Reply) -> Result<Session, Refusal> {
    match reply.answer {
        Answer::Refused(refusal) => Err(refusal),
        Answer::Done(_, _) => Ok(reply.session),
    }
}

// Seals the text `haul tape` in two pieces: 9 bytes of ciphertext, and 16 of tag.
fn seal_in_pieces(
    key: &[u8],
    nonce: &[u8],
    data: &[u8],
    out: &mut [u8; 25],
) -> Result<(), Refusal> {
    let session = accepted(Session::fresh(Kind::Sealing).begin(key, nonce))?;
    let session = accepted(session.data(data))?;
    let session = accepted(session.seal_text(b"haul ", out))?;
    let session = accepted(session.seal_text(b"tape", &mut out[5..]))?;
    accepted(session.seal_close(&mut out[9..]))?;
    Ok(())
}

// Seals in pieces and whole: how many bytes the whole message has, and whether the pieces make the same.
fn seal_both(key: &[u8], nonce: &[u8], data: &[u8]) -> Result<(usize, bool), Refusal> {
    let mut pieces = [0; 25];
    seal_in_pieces(key, nonce, data, &mut pieces)?;
    let mut whole = [0; 25];
    let n = message::seal(key, nonce, data, b"haul tape", &mut whole)?;
    Ok((n, pieces == whole))
}

fn main(rt: HostRuntime) -> io::Result<()> {
    let key = b"\x00\x01\x02\x03\x04\x05\x06\x07\x08\x09\x0a\x0b\x0c\x0d\x0e\x0f";
    let nonce = b"\x00\x03\x06\x09\x0c\x0f\x12\x15\x18\x1b\x1e\x21\x24\x27\x2a\x2d";
    match seal_both(key, nonce, b"shift 2") {
        Ok((n, true)) => println!(rt; "message {n} bytes, same as whole"),
        Ok((n, false)) => println!(rt; "message {n} bytes, not as whole"),
        Err(refusal) => println!(rt; "refused {refusal}"),
    }
}
