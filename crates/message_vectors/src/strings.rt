// Strings to run the cases on.

// The strings that fill makes begin again after so many bytes.
const PERIOD: u8 = 251;

// Byte i of such a string; those of two masks differ at every place.
fn byte_at(i: usize, mask: u8) -> u8 {
    ((i % usize::from(PERIOD)) as u8) ^ mask
}

// (Period by period: with `byte_at` of every place the compiler divides for each byte by itself.)
pub(crate) fn fill(s: &mut [u8], mask: u8) {
    for part in s.chunks_mut(usize::from(PERIOD)) {
        for (byte, n) in part.iter_mut().zip(0..PERIOD) {
            *byte = n ^ mask;
        }
    }
}

// Whether s has from n on what fill puts there.
pub(crate) fn filled_from(s: &[u8], n: usize, mask: u8) -> bool {
    s.iter()
        .enumerate()
        .skip(n)
        .all(|(i, byte)| *byte == byte_at(i, mask))
}

// The first n bytes of s; all, where there are fewer.
pub(crate) fn first(s: &[u8], n: usize) -> &[u8] {
    s.get(..n).unwrap_or(s)
}
