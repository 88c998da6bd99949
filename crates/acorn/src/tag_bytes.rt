// A tag of any length from 8 to 16 bytes: the last of the sixteen.
ghost use Rattle.std.specs.Prelude.{◌≡◌};
ghost use Rattle.calls.specs.Calls.{same_bytes};
ghost use Rattle.acorn_model.specs.Stretches.{tag_bytes};
ghost use Rattle.acorn_model.specs.Machine.{tag_length_right};
ghost use Rattle.acorn_kernel.specs.Together.{state_of};
ghost use Rattle.acorn.specs.Runs.{tag_bytes_output};

use super::{TAG_BYTES, write_tag};
use acorn_kernel::State;
use acorn_model::LEAST_TAG_LENGTH;
use compare::same_bytes;

// Whether a tag may have n bytes.
pub fn tag_length_right(n: usize) -> bool
    ensures { result ≡ tag_length_right n }
{
    (LEAST_TAG_LENGTH..=TAG_BYTES).contains(&n)
}

// The last n bytes of the tag are written to out, of the state before final, where the tag has as many and out has room for them; else nothing is
// done.
pub fn write_tag_bytes(s: State, n: usize, out: &mut [u8])
    ensures { out.new ≡ tag_bytes_output n (state_of s) out.old }
{
    if TAG_BYTES < n {
        return;
    }
    if out.len() < n {
        return;
    }
    let mut full = [0; 16];
    write_tag(s, &mut full);
    let first = TAG_BYTES - n;
    out[..n].copy_from_slice(&full[first..]);
}

// Whether the given bytes are the last n of the tag (all of it where it has no more), of the state before final. All of them are compared, wherever
// the first differs.
pub fn is_tag_bytes(s: State, n: usize, given: &[u8]) -> bool
    ensures { result ≡ same_bytes given.now (tag_bytes n (state_of s)) }
{
    let k = n.min(TAG_BYTES);
    let mut last = [0; 16];
    write_tag_bytes(s, k, &mut last);
    same_bytes(given, &last[..k])
}
