// Operations on words of which each bit belongs to a step of its own.
ghost use Rattle.std.specs.Prelude.{◌≡◌, ℕ, ◌+◌, ◌≤◌, ◌<◌};
ghost use Rattle.acorn_model.specs.Bits.{◌⊕◌, bit};
ghost use Rattle.acorn_model.specs.Step.{maj, ch};
ghost use Rattle.acorn_kernel.specs.Together.{◌bits◌then◌};

// The 32 low bits of w. (The mask stays: `as` must lose nothing.)
pub(crate) fn half(w: u64) -> u32
    ensures { (j : ℕ) → j < 32 → bit result j ≡ bit w j }
{
    (w & 0xffff_ffff) as u32
}

// b at every place.
pub(crate) fn mask(b: bool) -> u32
    ensures { (j : ℕ) → j < 32 → bit result j ≡ b }
{
    if b { 0xffff_ffff } else { 0 }
}

pub(crate) fn majority(a: u32, b: u32, c: u32) -> u32
    ensures { (j : ℕ) → bit result j ≡ maj (bit a j) (bit b j) (bit c j) }
{
    ((a ^ c) & (b ^ c)) ^ c
}

pub(crate) fn choice(a: u32, b: u32, c: u32) -> u32
    ensures { (j : ℕ) → bit result j ≡ ch (bit a j) (bit b j) (bit c j) }
{
    ((b ^ c) & a) ^ c
}

// w moved down k places, with k bits of u above.
pub(crate) fn shifted(w: u64, u: u64, k: u64) -> u64
    requires { (1 ≤ k) × (k < 64) }
    ensures { (j : ℕ) → j < 64 → bit result j ≡ (64 bits bit w then bit u) (j + k) }
{
    (w >> k) | (u << (64 - k))
}

// The last word, S230 to S292, moved down k places: k bits of n enter above, and k bits of u are added to those that leave S289.
pub(crate) fn shifted_last(w: u64, u: u64, n: u32, k: u64) -> u64
    requires { (1 ≤ k) × (k ≤ 32) }
    ensures { ((j : ℕ) → j < 60 → bit result j ≡ (60 bits bit w then (λ q. (4 bits (λ y. bit w (60 + y)) then bit n) q ⊕ bit u q)) (j + k)) × ((j : ℕ) → j < 4 → bit result (60 + j) ≡ (4 bits (λ y. bit w (60 + y)) then bit n) (j + k)) }
{
    shifted(w, n as u64, k) ^ ((u << (64 - k)) >> 4)
}
