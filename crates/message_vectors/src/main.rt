// Runs whole sealing and opening: known answers of ACORN-128 version 3, sizes up to the limit, and the refusals around the limits.
// Prints a line a case.
#![tactic(auto)]

mod strings;

use calls::Refusal;
use std::io;
use strings::{fill, filled_from, first};

fn print_answer(rt: &impl Print, answer: Result<usize, Refusal>) -> io::Result<()> {
    match answer {
        Ok(n) => print!(rt; " done {n}"),
        Err(refusal) => print!(rt; " refused {refusal}"),
    }
}

fn print_whether(rt: &impl Print, right: bool, words: &str) -> io::Result<()> {
    if right {
        print!(rt; "{words}")
    } else {
        print!(rt; " WRONG")
    }
}

// ## Known answers

#[derive(Clone, Copy)]
struct Known<'a> {
    name: &'a str,
    key: &'a [u8],
    nonce: &'a [u8],
    data: &'a [u8],
    text: &'a [u8],
    sealed: &'a [u8],
}

// The text is sealed, and the known bytes are opened.
fn print_known(rt: &impl Print, known: Known) -> io::Result<()> {
    let mut out = [0; 32];
    print!(rt; "{}", known.name)?;
    print_answer(
        rt,
        message::seal(known.key, known.nonce, known.data, known.text, &mut out),
    )?;
    print_whether(rt, out.starts_with(known.sealed), " as known; opened:")?;
    let mut opened = [0; 16];
    print_answer(
        rt,
        message::open(
            known.key,
            known.nonce,
            known.data,
            known.sealed,
            &mut opened,
        ),
    )?;
    print_whether(rt, opened.starts_with(known.text), " the text\n")
}

fn known_answers(rt: &impl Print) -> io::Result<()> {
    for known in [
        Known {
            name: "text of 1 byte:",
            key: b"\x00\x00\x00\x00\x00\x00\x00\x00\x00\x00\x00\x00\x00\x00\x00\x00",
            nonce: b"\x00\x00\x00\x00\x00\x00\x00\x00\x00\x00\x00\x00\x00\x00\x00\x00",
            data: b"",
            text: b"\x01",
            sealed: b"\x2b\x4b\x60\x64\x0e\x26\xf0\xa9\x9d\xd0\x1f\x93\xbf\x63\x49\x97\xcb",
        },
        Known {
            name: "data of 1 byte:",
            key: b"\x00\x00\x00\x00\x00\x00\x00\x00\x00\x00\x00\x00\x00\x00\x00\x00",
            nonce: b"\x00\x00\x00\x00\x00\x00\x00\x00\x00\x00\x00\x00\x00\x00\x00\x00",
            data: b"\x01",
            text: b"",
            sealed: b"\x98\x2e\xf7\xd1\xbb\xa7\xf8\x9a\x15\x75\x29\x7a\x09\x5c\xd7\xf2",
        },
        Known {
            name: "data and text of 16 bytes:",
            key: b"\x00\x01\x02\x03\x04\x05\x06\x07\x08\x09\x0a\x0b\x0c\x0d\x0e\x0f",
            nonce: b"\x00\x03\x06\x09\x0c\x0f\x12\x15\x18\x1b\x1e\x21\x24\x27\x2a\x2d",
            data: b"\x01\x01\x01\x01\x01\x01\x01\x01\x01\x01\x01\x01\x01\x01\x01\x01",
            text: b"\x01\x01\x01\x01\x01\x01\x01\x01\x01\x01\x01\x01\x01\x01\x01\x01",
            sealed: b"\x86\x80\x1f\xa8\x9e\x33\xd9\x92\x35\xdd\x4d\x1a\x72\xce\x00\x1a\xd9\xc6\x6b\x4a\xdb\x3c\xde\x07\x3e\x63\x50\xcc\x7e\x23\x7e\x01",
        },
        Known {
            name: "empty message:",
            key: b"\x00\x00\x00\x00\x00\x00\x00\x00\x00\x00\x00\x00\x00\x00\x00\x00",
            nonce: b"\x00\x00\x00\x00\x00\x00\x00\x00\x00\x00\x00\x00\x00\x00\x00\x00",
            data: b"",
            text: b"",
            sealed: b"\x83\x5e\x53\x17\x89\x6e\x86\xb2\x44\x71\x43\xc7\x4f\x6f\xfc\x1e",
        },
    ] {
        print_known(rt, known)?;
    }
    Ok(())
}

// ## Sizes

// A text sealed, with itself as data, and opened again. Behind the sealed bytes, and behind the text, the output stays as it was.
fn print_size(
    rt: &impl Print,
    key: &[u8],
    text: &[u8],
    out: &mut [u8],
    opened: &mut [u8],
) -> io::Result<()> {
    fill(out, 255);
    print!(rt; "size {}:", text.len())?;
    print_answer(rt, message::seal(key, key, text, text, out))?;
    let end = text.len().saturating_add(16);
    let sealed = first(out, end);
    print!(rt; " tag ")?;
    for byte in sealed.iter().skip(text.len()) {
        print!(rt; "{byte:02x}")?;
    }
    print_whether(rt, filled_from(out, end, 255), "; opened:")?;
    fill(opened, 255);
    print_answer(rt, message::open(key, key, text, sealed, opened))?;
    print_whether(
        rt,
        opened.starts_with(text) & filled_from(opened, text.len(), 255),
        " the text\n",
    )
}

fn sizes(rt: &impl Print, string: &[u8], out: &mut [u8], opened: &mut [u8]) -> io::Result<()> {
    let key = first(string, 16);
    for size in [
        0, 1, 3, 4, 5, 15, 16, 17, 31, 32, 33, 512, 513, 8192, 8193, 65535, 65536,
    ] {
        print_size(rt, key, first(string, size), out, opened)?;
    }
    Ok(())
}

// ## Refusals

// A call that writes nothing.
fn print_refusal<F: FnOnce(&mut [u8]) -> Result<usize, Refusal>>(
    rt: &impl Print,
    name: &str,
    out: &mut [u8],
    call: F,
) -> io::Result<()>
    requires { F.IsAlwaysCallable call }
{
    fill(out, 255);
    print!(rt; "{name}")?;
    print_answer(rt, call(out))?;
    print_whether(rt, filled_from(out, 0, 255), ", output unchanged\n")
}

fn seal_refusals(rt: &impl Print, string: &[u8]) -> io::Result<()> {
    let key = first(string, 16);
    let short = first(string, 15);
    let long = first(string, 17);
    let over = first(string, 65537);
    let text = first(string, 5);
    let mut out = [0; 21];
    let mut less = [0; 20];
    print_refusal(rt, "seal, key of 15:", &mut out, |out| {
        message::seal(short, key, text, text, out)
    })?;
    print_refusal(rt, "seal, key of 17:", &mut out, |out| {
        message::seal(long, key, text, text, out)
    })?;
    print_refusal(rt, "seal, nonce of 15:", &mut out, |out| {
        message::seal(key, short, text, text, out)
    })?;
    print_refusal(rt, "seal, nonce of 17:", &mut out, |out| {
        message::seal(key, long, text, text, out)
    })?;
    print_refusal(rt, "seal, data of 65537:", &mut out, |out| {
        message::seal(key, key, over, text, out)
    })?;
    print_refusal(rt, "seal, text of 65537:", &mut out, |out| {
        message::seal(key, key, text, over, out)
    })?;
    print_refusal(rt, "seal, output 20 of 21:", &mut less, |out| {
        message::seal(key, key, text, text, out)
    })
}

// The sealed bytes are those of a text of 5 bytes, with itself as data.
fn open_size_refusals(rt: &impl Print, string: &[u8], sealed: &[u8]) -> io::Result<()> {
    let key = first(string, 16);
    let short = first(string, 15);
    let long = first(string, 17);
    let over = first(string, 65537);
    let data = first(string, 5);
    let mut out = [0; 5];
    let mut less = [0; 4];
    print_refusal(rt, "open, key of 15:", &mut out, |out| {
        message::open(short, key, data, sealed, out)
    })?;
    print_refusal(rt, "open, key of 17:", &mut out, |out| {
        message::open(long, key, data, sealed, out)
    })?;
    print_refusal(rt, "open, nonce of 15:", &mut out, |out| {
        message::open(key, short, data, sealed, out)
    })?;
    print_refusal(rt, "open, nonce of 17:", &mut out, |out| {
        message::open(key, long, data, sealed, out)
    })?;
    print_refusal(rt, "open, 15 sealed:", &mut out, |out| {
        message::open(key, key, data, short, out)
    })?;
    print_refusal(rt, "open, data of 65537:", &mut out, |out| {
        message::open(key, key, over, sealed, out)
    })?;
    print_refusal(rt, "open, 65553 sealed:", &mut out, |out| {
        message::open(key, key, data, string, out)
    })?;
    print_refusal(rt, "open, output 4 of 5:", &mut less, |out| {
        message::open(key, key, data, sealed, out)
    })
}

fn open_refusals(rt: &impl Print, string: &[u8]) -> io::Result<()> {
    let key = first(string, 16);
    let text = first(string, 5);
    let mut sealed = [0; 21];
    let _ = message::seal(key, key, text, text, &mut sealed);
    open_size_refusals(rt, string, &sealed)?;
    sealed[20] ^= 128;
    let mut out = [0; 5];
    print_refusal(rt, "open, tag bit turned:", &mut out, |out| {
        message::open(key, key, text, &sealed, out)
    })
}

fn main(rt: HostRuntime) -> io::Result<()> {
    // of fixed size, since the project allows no heap
    let mut text = [0; 65553];
    let mut sealed = [0; 65553];
    let mut opened = [0; 65553];
    fill(&mut text, 0);
    known_answers(&rt)?;
    sizes(&rt, &text, &mut sealed, &mut opened)?;
    seal_refusals(&rt, &text)?;
    open_refusals(&rt, &text)
}
