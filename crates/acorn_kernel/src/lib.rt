// The state of ACORN-128 v3 in six words, and up to 32 steps together, whose ks and f come as words out of the state before.
#![tactic(auto)]

mod word;

ghost use Rattle.std.specs.Prelude.{◌≡◌, ℕ, ◌+◌, ◌*◌, ◌%◌, ◌≤◌, ◌<◌};
ghost use Rattle.acorn_model.specs.Bits.{◌⊕◌, bit};
ghost use Rattle.acorn_model.specs.Step.{keystream_bit, feedback_bit};
ghost use Rattle.acorn_model.specs.Stretches.{zeros as allZeros};
ghost use Rattle.acorn_kernel.specs.Together.{state_of, word_end, moved_down, Together};

use word::{choice, half, majority, mask, shifted, shifted_last};

// The 293 bits in six words: S0 to S60, S61 to S106, S107 to S153, S154 to S192, S193 to S229, S230 to S292.
// Each has the highest places of its word; the bits below do not count.
#[derive(Clone, Copy)]
pub struct State {
    pub w0: u64,
    pub w1: u64,
    pub w2: u64,
    pub w3: u64,
    pub w4: u64,
    pub w5: u64,
}

// The two control bits of a step.
#[derive(Clone, Copy)]
pub struct ControlBits {
    pub ca: bool,
    pub cb: bool,
}

// The state after some steps, and the ks bits of 32 steps, the first of them these.
#[derive(Clone, Copy)]
pub struct Stepped {
    pub state: State,
    pub ks: u32,
}

// The state of all zeros.
pub fn zeros() -> State
    ensures { state_of result ≡ allZeros }
{
    State {
        w0: 0,
        w1: 0,
        w2: 0,
        w3: 0,
        w4: 0,
        w5: 0,
    }
}

// The bits of the state from place p on, where 32 of them lie in one word. Of a literal place it is one shift.
fn from(s: State, p: u64) -> u64
    requires { p + 32 ≤ word_end p }
    ensures { (j : ℕ) → j < 32 → bit result j ≡ state_of s (p + j) }
{
    match p {
        0..=60 => s.w0 >> (p + 3),
        61..=106 => s.w1 >> (p - 43),
        107..=153 => s.w2 >> (p - 90),
        154..=192 => s.w3 >> (p - 129),
        193..=229 => s.w4 >> (p - 166),
        _ => s.w5 >> (p - 229),
    }
}

// The same of place p after rule 1 adds the bits of places a and b to it.
fn updated(s: State, p: u64, a: u64, b: u64) -> u64
    requires { (p + 32 ≤ word_end p) × (a + 32 ≤ word_end a) × (b + 32 ≤ word_end b) }
    ensures { (j : ℕ) → j < 32 → bit result j ≡ state_of s (p + j) ⊕ (state_of s (a + j) ⊕ state_of s (b + j)) }
{
    from(s, p) ^ from(s, a) ^ from(s, b)
}

// The ks bits of the next 32 steps, all at once.
fn keystream_word(s: State) -> u32
    ensures { (j : ℕ) → j < 32 → bit result j ≡ keystream_bit (moved_down j (state_of s)) }
{
    half(from(s, 12))
        ^ half(updated(s, 154, 111, 107))
        ^ majority(
            half(from(s, 235)),
            half(updated(s, 61, 23, 0)),
            half(updated(s, 193, 160, 154)),
        )
        ^ choice(
            half(updated(s, 230, 196, 193)),
            half(from(s, 111)),
            half(from(s, 66)),
        )
}

// The f bits of the next 32 steps, all at once; z are their ks bits.
fn feedback_word(s: State, controls: ControlBits, z: u32) -> u32
    requires { (j : ℕ) → j < 32 → bit z j ≡ keystream_bit (moved_down j (state_of s)) }
    ensures { (j : ℕ) → j < 32 → bit result j ≡ feedback_bit controls.ca controls.cb (moved_down j (state_of s)) }
{
    half(from(s, 0))
        ^ !half(updated(s, 107, 66, 61))
        ^ majority(half(from(s, 244)), half(from(s, 23)), half(from(s, 160)))
        ^ (mask(controls.ca) & half(from(s, 196)))
        ^ (mask(controls.cb) & z)
}

// k steps together, 1 to 32: the message bits are x's in sealing, and x's ⊕ ks in opening.
fn together(s: State, x: u32, opening: bool, controls: ControlBits, k: u64) -> Stepped
    requires { (1 ≤ k) × (k ≤ 32) }
    ensures { Together (state_of s) x opening controls.ca controls.cb k (state_of result.state) result.ks }
{
    let z = keystream_word(s);
    let f = feedback_word(s, controls, z);
    let new = f ^ ((mask(opening) & z) ^ x);
    Stepped {
        state: State {
            w0: shifted(s.w0, updated(s, 61, 23, 0), k),
            w1: shifted(s.w1, updated(s, 107, 66, 61), k),
            w2: shifted(s.w2, updated(s, 154, 111, 107), k),
            w3: shifted(s.w3, updated(s, 193, 160, 154), k),
            w4: shifted(s.w4, updated(s, 230, 196, 193), k),
            w5: shifted_last(s.w5, from(s, 235) ^ from(s, 230), new, k),
        },
        ks: z,
    }
}

// 32 steps together, that take all bits of x.
pub fn together_word(s: State, x: u32, opening: bool, controls: ControlBits) -> Stepped
    ensures { Together (state_of s) x opening controls.ca controls.cb 32 (state_of result.state) result.ks }
{
    together(s, x, opening, controls, 32)
}

// Steps together that take the bits of the bytes of x up to byte `last`, 0 to 3; of another number its remainder by 4 counts.
pub fn together_rest(s: State, x: u32, opening: bool, controls: ControlBits, last: u64) -> Stepped
    ensures { Together (state_of s) x opening controls.ca controls.cb (8 * (last % 4) + 8) (state_of result.state) result.ks }
{
    together(s, x, opening, controls, 8 * (last % 4) + 8)
}
