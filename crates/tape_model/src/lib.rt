// Tickets and heads by value, the phases of a tape's writer, the totals of tickets, and the lengths that tapes are made of.
#![tactic(auto)]

#[repr(C)]
#[derive(Clone, Copy, Debug, Default, PartialEq, Eq)]
pub struct Ticket {
    // A number, and no enum: C hands in any number, and a ticket of another form than 1 and 2 is one that `ticket_rule` refuses.
    pub form: u8,
    pub truck: u16,
    pub shovel: u8,
    pub tip: u8,
    pub grade: u8,
    pub loaded: u32,
    pub tipped: u32,
    pub gross: u32,
    pub tare: u32,
}

#[repr(C)]
#[derive(Clone, Copy, Debug, Default, PartialEq, Eq)]
pub struct Head {
    pub device: u32,
    pub shift: u32,
    pub sheet: u32,
}

#[derive(Clone, Copy, Debug, PartialEq, Eq)]
pub enum WriterPhase {
    Fresh,
    Open,
    Closed,
}

// What plain bytes come to: the number of their tickets, and the total net.
#[derive(Clone, Copy, Debug, PartialEq, Eq)]
pub struct Totals {
    pub tickets: usize,
    pub net: u64,
}

// Bytes of a packed head, of a packed ticket, of a tape's tag, and of a tape without tickets; the most tickets on a tape.
pub const HEAD_LENGTH: usize = 9;

pub const TICKET_LENGTH: usize = 13;

pub const TAPE_TAG_LENGTH: usize = 16;

pub const EMPTY_TAPE_LENGTH: usize = 25;

pub const TICKET_LIMIT: usize = 5000;
