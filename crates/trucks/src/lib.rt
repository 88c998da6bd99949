// The different trucks on an opened tape: each truck number has a bit of its own, and the set bits are counted; and of two opened tapes the
// trucks on both, on either and on just one. An opened tape is its plain bytes: 2 where they are not 13 for each of at most 5,000 tickets, 8 where a
// ticket does not unpack.
#![tactic(auto)]

ghost use Rattle.std.specs.Prelude.{◌≡◌, ◌<◌, get_or, ℕ};
ghost use Rattle.calls.specs.Calls.{as_reply, map_reply};
ghost use Rattle.trucks.specs.Trucks.{plain_trucks, plain_truck_set, plain_trucks_of_two};
ghost use Rattle.trucks.specs.Words.{held, set_bits, set_words, count, empty_set, intersection, union, difference, symmetric_difference, words_reply, set_or_empty};

use calls::Refusal;
use tape_model::TICKET_LENGTH;
use ticket::{is_tickets_length, unpack_ticket};

// A set of truck numbers: truck k is bit k % 64 of word k / 64.
#[derive(Clone, Copy, Debug, PartialEq, Eq)]
pub struct TruckSet {
    pub words: [u64; 16],
}

// How many different trucks are on a tape, and the set of them; the empty set where the tape is refused.
// (No Result of both: the clause `words_value` of `truck_set_of` says the set of a refused tape, too.)
#[derive(Clone, Copy, Debug, PartialEq, Eq)]
pub struct FoundTrucks {
    pub answer: Result<u32, Refusal>,
    pub set: TruckSet,
}

// How many different trucks are on both of two tapes, on either and on just one.
#[derive(Clone, Copy, Debug, PartialEq, Eq)]
pub struct TrucksOfTwo {
    pub both: u32,
    pub either: u32,
    pub just_one: u32,
}

impl TruckSet {
    // No truck.
    pub fn empty() -> TruckSet
        ensures { result.words ≡ set_words empty_set }
    {
        TruckSet { words: [0; 16] }
    }

    // Whether a truck is in the set: none above 1,023 is.
    pub fn contains(self, truck: u16) -> bool
        ensures { result ≡ held self.words truck }
    {
        if truck > 1023 {
            return false;
        }
        let k = truck as usize;
        (self.words[k / 64] >> (k % 64)) % 2 == 1
    }

    // The set bits of the words: how many numbers from 0 to 1,023 are in the set. (By a `for`: that the `sum` of an iterator fits was tried and not proved.)
    pub fn count(self) -> u32
        ensures value { result ≡ set_bits self.words }
        ensures value_2 { result ≡ count 1024 (held self.words) }
    {
        let mut n = 0;
        for word in self.words {
            n += word.count_ones();
        }
        n
    }

    // Two sets combined, word by word, the other's by its place: with a `zip` of both the proof did not close. (In a frame of its own: with the words of both
    // sets in one frame, the call for C on two tapes takes more of the stack than the header says.)
    #[inline(never)]
    fn combined<F: Fn(u64, u64) -> u64>(self, other: TruckSet, f: F) -> TruckSet
        requires { F.IsAlwaysCallable f }
        ensures { (w : ℕ) → w < 16 → F.post f (get_or self.words w 0) (get_or other.words w 0) (get_or result.words w 0) }
    {
        let mut words = self.words;
        for (w, word) in words.iter_mut().enumerate() {
            *word = f(*word, other.words[w]);
        }
        TruckSet { words }
    }

    // The trucks in both sets.
    pub fn intersection(self, other: TruckSet) -> TruckSet
        ensures { held result.words ≡ intersection (held self.words) (held other.words) }
    {
        self.combined(other, |x, y| x & y)
    }

    // The trucks in this set or the other.
    pub fn union(self, other: TruckSet) -> TruckSet
        ensures { held result.words ≡ union (held self.words) (held other.words) }
    {
        self.combined(other, |x, y| x | y)
    }

    // The trucks in this set and not in the other.
    pub fn difference(self, other: TruckSet) -> TruckSet
        ensures { held result.words ≡ difference (held self.words) (held other.words) }
    {
        self.combined(other, |x, y| x & !y)
    }

    // The trucks in just one of the sets.
    pub fn symmetric_difference(self, other: TruckSet) -> TruckSet
        ensures { held result.words ≡ symmetric_difference (held self.words) (held other.words) }
    {
        self.combined(other, |x, y| x ^ y)
    }
}

// The set of the trucks on a tape. (A loop of its own, with the `let .. else` of document 01: see `ticket::totals`.)
fn set_on(plain: &[u8]) -> Result<TruckSet, Refusal>
    ensures { words_reply result ≡ map_reply set_words (plain_truck_set plain.now) }
{
    if !is_tickets_length(plain.len()) {
        return Err(Refusal::WrongLength);
    }
    let mut set = TruckSet::empty();
    for packed in plain.chunks_exact(TICKET_LENGTH) {
        let Ok(t) = unpack_ticket(packed) else {
            return Err(Refusal::TicketUnreadable);
        };
        let truck = t.truck as usize;
        set.words[truck / 64] |= 1 << (truck % 64);
    }
    Ok(set)
}

// How many different trucks are on a tape, and their set, in one pass over its tickets.
pub fn truck_set_of(plain: &[u8]) -> FoundTrucks
    ensures answer_value { as_reply result.answer ≡ plain_trucks plain.now }
    ensures words_value { result.set.words ≡ set_words (set_or_empty (plain_truck_set plain.now)) }
{
    match set_on(plain) {
        Ok(set) => FoundTrucks {
            answer: Ok(set.count()),
            set,
        },
        Err(refusal) => FoundTrucks {
            answer: Err(refusal),
            set: TruckSet::empty(),
        },
    }
}

// How many different trucks are on a tape.
pub fn trucks(plain: &[u8]) -> Result<u32, Refusal>
    ensures { as_reply result ≡ plain_trucks plain.now }
{
    Ok(set_on(plain)?.count())
}

// How many different trucks are on both of two tapes, on either and on just one. 2 is tried on both tapes before 8.
pub fn trucks_of_two(first: &[u8], second: &[u8]) -> Result<TrucksOfTwo, Refusal>
    ensures { as_reply result ≡ plain_trucks_of_two first.now second.now }
{
    if !(is_tickets_length(first.len()) & is_tickets_length(second.len())) {
        return Err(Refusal::WrongLength);
    }
    let a = set_on(first)?;
    let b = set_on(second)?;
    Ok(TrucksOfTwo {
        both: a.intersection(b).count(),
        either: a.union(b).count(),
        just_one: a.symmetric_difference(b).count(),
    })
}
