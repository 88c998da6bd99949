// For the benchmark: `totals` for C, which the library does not export.
#![tactic(auto)]

ghost use Rattle.std.specs.Prelude.{◌≡◌};
ghost use Rattle.tape_model.specs.Tape.{plain_totals};
ghost use Rattle.bench_totals.specs.Net.{net_or_zero};

// The total net of plain bytes, or 0 where they are refused.
#[tactic(auto, unfolding(crate::specs::Net::net_or_zero, calls::specs::Calls::as_reply))]
#[unsafe(no_mangle)]
pub extern "C" fn bench_totals(plain: &[u8]) -> u64
    ensures { result ≡ net_or_zero (plain_totals plain.now) }
{
    ticket::totals(plain).map_or(0, |totals| totals.net)
}
