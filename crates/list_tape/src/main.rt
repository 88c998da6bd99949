// Lists a tape: reads a key of 16 bytes and then a tape from standard input, and prints the listing.
#![tactic(auto)]

ghost use Rattle.std.specs.Prelude.{◌≡◌, length, ◌+◌};
ghost use Rattle.input.specs.Counts.{IsPrefixLen};
ghost use Rattle.tape_model.specs.Listing.{printed};
ghost use Rattle.listing.specs.Clauses.{Wrote, text_room};
ghost use Rattle.listing.specs.Laws.{longest_input};

use std::io;
use std::io::Write;

// One byte more than a key and the longest tape: enough to see that an input is too long. A fixed array, since the project allows no heap.
fn input_buffer() -> [u8; 65042]
    ensures value { 65042 ≡ length result }
    ensures result_len { length result ≡ 1 + longest_input }
{
    [0; 65042]
}

// The listing of an input, at the start of text: how many bytes it has.
fn listed(input: &[u8], text: &mut [u8]) -> usize
    requires { length text.old ≡ text_room }
    ensures wrote { Wrote (printed input.now) text.old result text.new }
    ensures prefix_len { IsPrefixLen result text.new }
{
    listing::list_input(input, text).unwrap_or(0)
}

fn main(rt: HostRuntime) -> io::Result<()> {
    let mut input = input_buffer();
    let n = input::read_full(&mut rt.stdin(), &mut input)?;
    let mut text = listing::text_buffer();
    let k = listed(&input[..n], &mut text);
    rt.stdout().write_all(&text[..k])
}
