// ACORN-128 v3 on words: the runs over data, text and the fixed stretches.
#![tactic(auto)]

pub mod stretch;
mod tag_bytes;
mod word_bytes;

ghost use Rattle.std.specs.Prelude.{◌≡◌, false, true, List, ℕ, ◌+◌, ◌-◌, ◌*◌, ◌%◌, ◌≤◌, ◌<◌, length};
ghost use Rattle.acorn_model.specs.Bits.{Bits, bits_in};
ghost use Rattle.acorn_model.specs.Step.{run};
ghost use Rattle.acorn_model.specs.Stretches.{Stretch, inputs, through, data_piece, data_end, text_piece, text_end};
ghost use Rattle.acorn_kernel.specs.Together.{state_of, inputs_from};
ghost use Rattle.acorn.specs.Runs.{TextRun, TextUpTo, Takes, start_state, tag_output};

pub use acorn_kernel::{State, zeros};
use acorn_kernel::{ControlBits, Stepped, together_rest, together_word};
use acorn_model::{KEY_LENGTH, NONCE_LENGTH, START_STEPS};
use stretch::{DATA, DATA_END, FINAL, TEXT, TEXT_END, controls_at, key_again, leading_one};
pub use tag_bytes::{is_tag_bytes, tag_length_right, write_tag_bytes};
use word_bytes::{load_rest, load_word, store_rest, store_word};

// The bytes of a full tag.
const TAG_BYTES: usize = 16;

// Each run over a piece goes 32 steps at a time while as many are left, and then takes the rest at once. All steps of data have the control
// bits of its first, and those of text too. OPENING is a const parameter, so that sealing and opening are compiled apart.

// The four bytes of plain text of the piece from `at` on: run from t, and written to out.
#[inline(always)]
fn seal_word(t: State, piece: &[u8], at: usize, out: &mut [u8]) -> State
    requires { (at + 4 ≤ length piece.now) × (at + 4 ≤ length out.old) }
    ensures { (S : Bits) (out₀ : List ℕ) → TextUpTo false S piece.now out₀ at (state_of t) out.old → TextUpTo false S piece.now out₀ (at + 4) (state_of result) out.new }
{
    let x = load_word(piece, at);
    let Stepped { state, ks } = together_word(t, x, false, controls_at(TEXT).bits);
    store_word(out, at, x ^ ks);
    state
}

// The last k bytes of text, 1 to 3, of either way.
#[inline(always)]
fn text_rest<const OPENING: bool>(
    t: State,
    piece: &[u8],
    at: usize,
    k: usize,
    out: &mut [u8],
) -> State
    requires { (at + k ≤ length piece.now) × (at + k ≤ length out.old) × (1 ≤ k) × (k ≤ 3) }
    ensures { (S : Bits) (out₀ : List ℕ) → TextUpTo OPENING S piece.now out₀ at (state_of t) out.old → TextUpTo OPENING S piece.now out₀ (at + k) (state_of result) out.new }
{
    let x = load_rest(piece, at, k);
    let Stepped { state, ks } = together_rest(
        t,
        x,
        OPENING,
        controls_at(TEXT).bits,
        (k - 1) as u64,
    );
    store_rest(out, at, k, x ^ ks);
    state
}

// Plain text is encrypted into out, where out has room for it; else nothing is done.
// (A loop of its own: one function for both ways, by `for` or by `while`, takes 101 instructions for four bytes in sealing and 105 to 107 in opening, and the
// two loops 98 and 97.)
pub fn seal_text(s: State, piece: &[u8], out: &mut [u8]) -> State
    ensures { TextRun false (state_of s) piece.now out.old (state_of result) out.new }
{
    if out.len() < piece.len() {
        return s;
    }
    let controls = controls_at(TEXT).bits;
    let mut t = s;
    let mut i = 0;
    let whole = piece.len() - piece.len() % 4;
    while i < whole {
        let x = load_word(piece, i);
        let m = together_word(t, x, false, controls);
        store_word(out, i, x ^ m.ks);
        t = m.state;
        i += 4;
    }
    if i < piece.len() {
        t = text_rest::<false>(t, piece, i, piece.len() % 4, out);
    }
    t
}

// The same. A piece of 13 bytes is run without a loop, so that a caller that has just made its bytes need not store them; any other goes to
// `seal_text`.
pub fn seal_13(s: State, piece: &[u8], out: &mut [u8]) -> State
    ensures { TextRun false (state_of s) piece.now out.old (state_of result) out.new }
{
    if piece.len() != 13 {
        return seal_text(s, piece, out);
    }
    if out.len() < 13 {
        return s;
    }
    let s1 = seal_word(s, piece, 0, out);
    let s2 = seal_word(s1, piece, 4, out);
    let s3 = seal_word(s2, piece, 8, out);
    text_rest::<false>(s3, piece, 12, 1, out)
}

// Ciphertext is decrypted into out, where out has room for it; else nothing is done. The text's bits enter the state. (A loop of its own: see `seal_text`.)
pub fn decrypt(s: State, piece: &[u8], out: &mut [u8]) -> State
    ensures { TextRun true (state_of s) piece.now out.old (state_of result) out.new }
{
    if out.len() < piece.len() {
        return s;
    }
    let controls = controls_at(TEXT).bits;
    let mut t = s;
    let mut i = 0;
    let whole = piece.len() - piece.len() % 4;
    while i < whole {
        let x = load_word(piece, i);
        let m = together_word(t, x, true, controls);
        store_word(out, i, x ^ m.ks);
        t = m.state;
        i += 4;
    }
    if i < piece.len() {
        t = text_rest::<true>(t, piece, i, piece.len() % 4, out);
    }
    t
}

// A piece goes into the state alone.
// By `while`: a `for` over `as_chunks` or over the numbers of the words takes 5 to 6 % more instructions for data.
#[inline(always)]
fn absorb<const OPENING: bool>(s: State, piece: &[u8], controls: ControlBits) -> State
    ensures { state_of result ≡ run (inputs_from OPENING controls.ca controls.cb (bits_in piece.now)) (8 * length piece.now) (state_of s) }
{
    let whole = piece.len() - piece.len() % 4;
    let mut t = s;
    let mut i = 0;
    while i < whole {
        t = together_word(t, load_word(piece, i), OPENING, controls).state;
        i += 4;
    }
    match piece.len() % 4 {
        0 => t,
        k => {
            let x = load_rest(piece, whole, k);
            together_rest(t, x, OPENING, controls, (k - 1) as u64).state
        }
    }
}

// Data goes into the state.
pub fn absorb_data(s: State, piece: &[u8]) -> State
    ensures { state_of result ≡ through (data_piece piece.now) (state_of s) }
{
    absorb::<false>(s, piece, controls_at(DATA).bits)
}

// Ciphertext is decrypted into the state alone: its text is written nowhere.
pub fn check_text(s: State, piece: &[u8]) -> State
    ensures { state_of result ≡ through (text_piece true piece.now) (state_of s) }
{
    absorb::<true>(s, piece, controls_at(TEXT).bits)
}

// Steps `first` to `last` of the longest message, of a stretch whose message bits do not go by ks: 32 at a time. message(n) has the message bits from
// step n on. Compiled where it is called, so that the control bits of literal steps fold.
#[inline(always)]
fn run_steps<F: Fn(u64) -> u32>(s: State, first: u64, last: u64, message: F) -> State
    requires whole { (first ≤ last) × ((last - first) % 32 ≡ 0) }
    requires callable { (n : ℕ) → first ≤ n → n < last → (n - first) % 32 ≡ 0 → F.pre message n }
    ensures { (row : Stretch) (done : ℕ) (S : Bits) → Takes (F.post message) first last row done → state_of s ≡ run (inputs row) done S → state_of result ≡ run (inputs row) (done + (last - first)) S }
{
    let mut t = s;
    for n in (first..last).step_by(32) {
        t = together_word(t, message(n), false, controls_at(n).bits).state;
    }
    t
}

// Start, from all zeros, of a key and a nonce of 16 bytes; of others the state stays all zeros.
pub fn start(key: &[u8], nonce: &[u8]) -> State
    ensures { state_of result ≡ start_state key.now nonce.now }
{
    if key.len() != KEY_LENGTH || nonce.len() != NONCE_LENGTH {
        return zeros();
    }
    let keyed = run_steps(zeros(), 0, 128, |n| load_word(key, (n / 8) as usize));
    let with_nonce = run_steps(
        keyed,
        128,
        256,
        |n| load_word(nonce, ((n - 128) / 8) as usize),
    );
    run_steps(with_nonce, 256, START_STEPS, |n| key_again(key, n))
}

pub fn end_data(s: State) -> State
    ensures { state_of result ≡ through data_end (state_of s) }
{
    run_steps(s, DATA_END, TEXT, |n| leading_one(n - DATA_END))
}

// (In a frame of its own: inlined into a session's close, it takes more of the stack than the header says.)
#[inline(never)]
pub fn end_text(s: State) -> State
    ensures { state_of result ≡ through text_end (state_of s) }
{
    run_steps(s, TEXT_END, FINAL, |n| leading_one(n - TEXT_END))
}

// Final, of the state before it: the full tag is written to out, where out has room for it; else nothing is done.
fn write_tag(s: State, out: &mut [u8])
    ensures { out.new ≡ tag_output (state_of s) out.old }
{
    if out.len() < TAG_BYTES {
        return;
    }
    // the steps before the last 128
    let mut t = run_steps(s, FINAL, FINAL + 640, |_| 0);
    for k in 0..TAG_BYTES / 4 {
        let n = FINAL + 640 + 32 * k as u64;
        let Stepped { state, ks } = together_word(t, 0, false, controls_at(n).bits);
        store_word(out, 4 * k, ks);
        t = state;
    }
}
