// Words of up to four bytes, read from a string and written to one. Bit 8k + j of a word is the bit of weight 2^j of its byte k.
ghost use Rattle.std.specs.Prelude.{◌≡◌, ℕ, ◌+◌, ◌*◌, ◌≤◌, ◌<◌, length};
ghost use Rattle.std.proofs.Math.Seq.{paste};
ghost use Rattle.acorn_model.specs.Bits.{bit, bits_in, bytes};

// The four bytes of src from at on.
pub(crate) fn load_word(src: &[u8], at: usize) -> u32
    requires { at + 4 ≤ length src.now }
    ensures { (i : ℕ) → i < 32 → bit result i ≡ bits_in src.now (8 * at + i) }
{
    u32::from_le_bytes([src[at], src[at + 1], src[at + 2], src[at + 3]])
}

// The k bytes of src from at on, 1 to 3.
pub(crate) fn load_rest(src: &[u8], at: usize, k: usize) -> u32
    requires { (at + k ≤ length src.now) × ((1 ≤ k) × (k ≤ 3)) }
    ensures { (i : ℕ) → i < 8 * k → bit result i ≡ bits_in src.now (8 * at + i) }
{
    match k {
        1 => u32::from_le_bytes([src[at], 0, 0, 0]),
        2 => u32::from_le_bytes([src[at], src[at + 1], 0, 0]),
        _ => u32::from_le_bytes([src[at], src[at + 1], src[at + 2], 0]),
    }
}

// The four bytes of x, to dst from at on.
pub(crate) fn store_word(dst: &mut [u8], at: usize, x: u32)
    requires { at + 4 ≤ length dst.old }
    ensures { dst.new ≡ paste dst.old at (bytes 4 (bit x)) 4 }
{
    dst[at..at + 4].copy_from_slice(&x.to_le_bytes());
}

// The k low bytes of x, 1 to 3, to dst from at on.
pub(crate) fn store_rest(dst: &mut [u8], at: usize, k: usize, x: u32)
    requires { (at + k ≤ length dst.old) × ((1 ≤ k) × (k ≤ 3)) }
    ensures { dst.new ≡ paste dst.old at (bytes 4 (bit x)) k }
{
    let [a, b, c, _] = x.to_le_bytes();
    match k {
        1 => dst[at] = a,
        2 => dst[at..at + 2].copy_from_slice(&[a, b]),
        _ => dst[at..at + 3].copy_from_slice(&[a, b, c]),
    }
}
