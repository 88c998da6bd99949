// The six stretches: their control bits, which follow from the stretch that a step lies in; and the message bits of those whose number of steps
// is fixed.
ghost use Rattle.std.specs.Prelude.{◌≡◌, List, ℕ, ◌+◌, ◌≤◌, ◌<◌, ◌%◌, eqb, length};
ghost use Rattle.acorn_model.specs.Bits.{bit};
ghost use Rattle.acorn_model.specs.Stretches.{start_bit};
ghost use Rattle.acorn.specs.Table.{ControlsAt};

use super::word_bytes::load_word;
use acorn_kernel::ControlBits;

#[derive(Clone, Copy)]
pub enum StretchName {
    Start,
    Data,
    DataEnd,
    Text,
    TextEnd,
    Final,
}

// The number of the first step of each but start, whose first is 0, in the longest message: data and text have 65,536 bytes. In a shorter one
// each stretch has the first numbers of its own.
pub const DATA: u64 = 1792;

pub const DATA_END: u64 = 526080;

pub const TEXT: u64 = 526336;

pub const TEXT_END: u64 = 1050624;

pub const FINAL: u64 = 1050880;

#[derive(Clone, Copy)]
pub struct Controls {
    pub stretch: StretchName,
    pub bits: ControlBits,
}

fn row(stretch: StretchName, ca: bool, cb: bool) -> Controls
    ensures { (result.stretch ≡ stretch) × (result.bits.ca ≡ ca) × (result.bits.cb ≡ cb) }
{
    Controls {
        stretch,
        bits: ControlBits { ca, cb },
    }
}

// The stretch and the control bits of a step, by its number in the longest message: 0 to 1,051,647. Of a literal step they fold where they are asked
// for, so that the steps together fold with them.
pub fn controls_at(step: u64) -> Controls
    ensures { ControlsAt step result.stretch result.bits.ca result.bits.cb }
{
    match step {
        0..=1791 => row(StretchName::Start, true, true),
        1792..=526079 => row(StretchName::Data, true, true),
        526080..=526207 => row(StretchName::DataEnd, true, true),
        526208..=526335 => row(StretchName::DataEnd, false, true),
        526336..=1050623 => row(StretchName::Text, true, false),
        1050624..=1050751 => row(StretchName::TextEnd, true, false),
        1050752..=1050879 => row(StretchName::TextEnd, false, false),
        _ => row(StretchName::Final, true, true),
    }
}

// The message bits of an end from its step n on: 1, then zeros. (By an `if`: `u32::from(n == 0)` is no plainer, and each branch is a case of the proof.)
pub(crate) fn leading_one(n: u64) -> u32
    ensures { (i : ℕ) → bit result i ≡ eqb (n + i) 0 }
{
    if n == 0 { 1 } else { 0 }
}

// The message bits of start from its step n on, after key and nonce: the key over and over, its first bit inverted once.
pub(crate) fn key_again(key: &[u8], n: u64) -> u32
    requires { (length key.now ≡ 16) × (256 ≤ n) × (n % 32 ≡ 0) }
    ensures { (nonce : List ℕ) (i : ℕ) → i < 32 → bit result i ≡ start_bit key.now nonce (n + i) }
{
    load_word(key, (n % 128 / 8) as usize) ^ leading_one(n - 256)
}
