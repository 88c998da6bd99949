// Prints a pay sheet: reads a rate and the end of its line, a key of 16 bytes and then a tape from standard input, and prints the sheet.
#![tactic(auto)]

ghost use Rattle.std.specs.Prelude.{◌≡◌, ◌++◌, ◌+◌, ◌≤◌, eqb, length, get_or, take, drop};
ghost use Rattle.input.specs.Counts.{IsPrefixLen};
ghost use Rattle.acorn_model.specs.Machine.{key_length};
ghost use Rattle.tape_model.specs.Listing as model;
ghost use Rattle.tape_model.specs.Laws.{value_after};
ghost use Rattle.listing.specs.Clauses.{Wrote};
ghost use Rattle.pay_sheet.specs.Clauses.{sheet_reply};
ghost use Rattle.print_pay_sheet.specs.Printed.{digit_count, has_rate, tape_sheet, contractor_lines, sheet_text, printed_sheet, printed};
ghost use Rattle.print_pay_sheet.specs.Clauses.{RateDigits, share_line, paid_text};
ghost use Rattle.print_pay_sheet.specs.Laws.{longest_input};

use acorn_model::KEY_LENGTH;
use calls::Refusal;
use pay_sheet::{CONTRACTORS, HIGHEST_RATE, PaySheet};
use std::io;
use std::io::Write;
use tape_model::{TICKET_LENGTH, TICKET_LIMIT};
use tape_opening::open_scratch;

// The most digits of a rate.
const MOST_DIGITS: usize = 19;

// The plain bytes of the most tickets. (As in listing, whose constant is private.)
const LONGEST_PLAIN: usize = TICKET_LENGTH * TICKET_LIMIT;

// Room for every text.
const TEXT_ROOM: usize = 409;

// One byte more than the longest input: enough to see that an input is too long. A fixed array, since the project allows no heap.
fn input_buffer() -> [u8; 65062]
    ensures value { 65062 ≡ length result }
    ensures result_len { length result ≡ 1 + longest_input }
{
    [0; 65062]
}

// How many digits the input begins with.
fn digit_count(input: &[u8]) -> usize
    ensures { result ≡ digit_count input.now }
{
    input.iter().take_while(|x| x.is_ascii_digit()).count()
}

// Whether the end of a line stands at a place. (By a match: with `input.get(at) == Some(&b'\n')` goals about two Options of references stay open.)
fn line_ends(input: &[u8], at: usize) -> bool
    ensures { result ≡ eqb (get_or input.now at 0) 0x0a }
{
    match input.get(at) {
        Some(x) => *x == b'\n',
        None => false,
    }
}

// Whether an input that begins with so many digits begins with a rate and the end of a line. (By comparisons: with the range's `contains` the goal stays open.)
fn has_rate(input: &[u8], digits: usize) -> bool
    requires { digits ≡ digit_count input.now }
    ensures { result ≡ has_rate input.now }
{
    (1 <= digits) & (digits <= MOST_DIGITS) & line_ends(input, digits)
}

// The rate that digits make. (Bytes, and no text: `parse` takes text alone, so that they would first have to be checked as UTF-8.)
fn rate_of(digits: &[u8]) -> u64
    requires { RateDigits digits.now }
    ensures { result ≡ value_after 0 digits.now }
{
    let mut rate: u64 = 0;
    for digit in digits {
        rate = 10 * rate + u64::from(digit - b'0');
    }
    rate
}

// The sheet of a sealed tape, whose tickets are opened into plain: 13, then the number with which the tape does not open.
fn tape_sheet(key: &[u8], tape: &[u8], plain: &mut [u8; LONGEST_PLAIN], rate: u64) -> PaySheet
    ensures { sheet_reply result ≡ tape_sheet key.now tape.now rate }
{
    if HIGHEST_RATE < rate {
        return PaySheet::refused(Refusal::RateTooHigh);
    }
    match open_scratch(key, tape, plain) {
        Err(refusal) => PaySheet::refused(refusal),
        Ok(totals) => pay_sheet::pay_sheet(&plain[..TICKET_LENGTH * totals.tickets], rate),
    }
}

// The functions below write at the start of text, where there is room, and answer how many bytes they wrote.

// A line: a word, and numbers behind it.
fn put_line(word: &[u8], ns: &[u64], text: &mut [u8]) -> usize
    requires { length (word.now ++ model.numbers ns.now ++ model.line_end) ≤ length text.old }
    ensures { Wrote (word.now ++ model.numbers ns.now ++ model.line_end) text.old result text.new }
{
    listing::list_line(word, ns, text).unwrap_or(0)
}

// Contractor c's line.
fn put_share(c: usize, share: u64, text: &mut [u8]) -> usize
    requires { length (share_line c share) ≤ length text.old }
    ensures { Wrote (share_line c share) text.old result text.new }
{
    listing::list_numbers(c as u64, &[share], text).unwrap_or(0)
}

// The contractors' lines.
fn put_shares(shares: &[u64; CONTRACTORS], text: &mut [u8]) -> usize
    requires { length (contractor_lines 0 shares.now) ≤ length text.old }
    ensures { Wrote (contractor_lines 0 shares.now) text.old result text.new }
{
    let mut at: usize = 0;
    for (c, share) in shares.iter().enumerate() {
        at += put_share(c, *share, &mut text[at..]);
    }
    at
}

// The line of the pay, and the contractors'.
fn put_paid(pay: u64, shares: &[u64; CONTRACTORS], text: &mut [u8; TEXT_ROOM]) -> usize
    ensures { Wrote (paid_text pay shares.now) text.old result text.new }
{
    let a = put_line(b"PAY", &[pay], text);
    let b = put_shares(shares, &mut text[a..]);
    a + b
}

// A sheet, or the line of its refusal alone.
fn put_sheet(sheet: PaySheet, text: &mut [u8; TEXT_ROOM]) -> usize
    ensures { Wrote (sheet_text (sheet_reply sheet)) text.old result text.new }
{
    match sheet.answer {
        Err(refusal) => put_line(b"REFUSED", &[u64::from(u8::from(refusal))], text),
        Ok(pay) => put_paid(pay, &sheet.shares, text),
    }
}

// The sheet for a rate, and the key and the tape behind it: the key's 16 bytes, or fewer where it is cut short.
fn put_sheet_of(rate: u64, rest: &[u8], text: &mut [u8; TEXT_ROOM]) -> usize
    ensures { Wrote (printed_sheet (take key_length rest.now) (drop key_length rest.now) rate) text.old result text.new }
{
    let (key, tape) = rest.split_at(rest.len().min(KEY_LENGTH));
    let mut plain = [0; LONGEST_PLAIN];
    put_sheet(tape_sheet(key, tape, &mut plain, rate), text)
}

// What is printed for an input.
fn print_sheet(input: &[u8], text: &mut [u8; TEXT_ROOM]) -> usize
    ensures wrote { Wrote (printed input.now) text.old result text.new }
    ensures prefix_len { IsPrefixLen result text.new }
{
    let digits = digit_count(input);
    if !has_rate(input, digits) {
        return put_line(b"NO RATE", &[], text);
    }
    let rate = rate_of(&input[..digits]);
    put_sheet_of(rate, &input[digits + 1..], text)
}

fn main(rt: HostRuntime) -> io::Result<()> {
    let mut input = input_buffer();
    let n = input::read_full(&mut rt.stdin(), &mut input)?;
    let mut text = [0; TEXT_ROOM];
    let k = print_sheet(&input[..n], &mut text);
    rt.stdout().write_all(&text[..k])
}
