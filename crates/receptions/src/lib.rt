// Two receptions of one tape, as two masts caught them: where they part, and the longer of two that do not.
#![tactic(auto)]

ghost use Rattle.std.specs.Prelude.{◌≡◌, ◌≤◌, length};
ghost use Rattle.receptions.specs.Receptions as receptions;
ghost use Rattle.receptions.specs.Clauses.{parting_reply, IsPart};
ghost use Rattle.receptions.specs.Laws.{AgreeBefore};

use calls::Refusal;
use compare::same_bytes;

// Where two receptions part: that they do, and the place, counted from 0.
#[derive(Clone, Copy, Debug, PartialEq, Eq)]
pub struct PartedAt {
    pub refusal: Refusal,
    pub place: usize,
}

// How many bytes, of the first n, are in groups of eight that agree, up to the first that does not. A group is compared at once.
fn equal_groups(first: &[u8], second: &[u8], n: usize) -> usize
    requires { (n ≤ length first.now) × (n ≤ length second.now) }
    ensures { (result ≤ n) × AgreeBefore result first.now second.now }
{
    let mut agreed: usize = 0;
    for (a, b) in first[..n].chunks_exact(8).zip(second[..n].chunks_exact(8)) {
        if !same_bytes(a, b) {
            break;
        }
        agreed += 8;
    }
    agreed
}

// 10 and the index of the first byte that differs, among those that both have; or that none does.
pub fn parting(first: &[u8], second: &[u8]) -> Result<(), PartedAt>
    ensures { parting_reply result ≡ receptions.parting first.now second.now }
{
    let shorter = first.len().min(second.len());
    let mut i = equal_groups(first, second, shorter);
    // a `loop` whose `break` gives the index: the form that document 01 names for this place
    let agreed = loop {
        if i == shorter {
            break i;
        }
        if first[i] != second[i] {
            break i;
        }
        i += 1;
    };
    if agreed == shorter {
        return Ok(());
    }
    Err(PartedAt {
        refusal: Refusal::Parted,
        place: agreed,
    })
}

// All of the longer reception where they do not part, and of the first where they are equally long; no bytes of the first where they part. (No Option:
// document 02 names the form, a part of one of two lent slices.)
pub fn longer<'a>(first: &'a [u8], second: &'a [u8]) -> &'a [u8]
    ensures { IsPart (receptions.longer first.now second.now) first.entry second.entry result }
{
    if parting(first, second).is_err() {
        return &first[0..0];
    }
    let second_longer = first.len() < second.len();
    if second_longer { second } else { first }
}
