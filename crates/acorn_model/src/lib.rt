// What code and specification share: the kinds and phases of a session, and the lengths of its strings and stretches.
#![tactic(auto)]

#[derive(Clone, Copy, Debug, PartialEq, Eq)]
pub enum Kind {
    Sealing,
    Checking,
}

#[derive(Clone, Copy, Debug, PartialEq, Eq)]
pub enum Phase {
    Fresh,
    Data,
    Text,
    Closed,
}

// Bytes of a key, a nonce and a full tag; the fewest bytes of a tag; the most bytes of data, and the most of text.
pub const KEY_LENGTH: usize = 16;

pub const NONCE_LENGTH: usize = 16;

pub const TAG_LENGTH: usize = 16;

pub const LEAST_TAG_LENGTH: usize = 8;

pub const BYTE_LIMIT: usize = 65536;

// Steps of start, of the data end, and of text end and final together.
pub const START_STEPS: u64 = 1792;

pub const DATA_END_STEPS: u64 = 256;

pub const CLOSE_STEPS: u64 = 1024;
