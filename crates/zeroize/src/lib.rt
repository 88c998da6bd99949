// Bytes that nobody may read afterwards.
#![tactic(auto)]

ghost use Rattle.std.specs.Prelude.{◌≡◌, length, replicate};

// Puts zeros in place of the bytes. A compiler leaves out stores to an array that nothing reads afterwards; this function calls itself, half
// by half, so that it is compiled by itself and its calls stay.
pub fn zeroize(bytes: &mut [u8])
    ensures { bytes.new ≡ replicate (length bytes.old) 0 }
{
    if bytes.len() <= 64 {
        bytes.fill(0);
    } else {
        let (left, right) = bytes.split_at_mut(bytes.len() / 2);
        zeroize(left);
        zeroize(right);
    }
}
