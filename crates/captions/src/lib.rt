// The answers of the calls on a sheet. What the calls mean is defined in specs/, and what holds of lists of them is proved in proofs/.
#![tactic(auto)]

use faults::Fault;

// What of an altered slot differs: its check, or else the first opened byte at or past the length that isn't zero.
#[derive(Clone, Copy, Debug, PartialEq, Eq)]
pub enum Change {
    Check,
    Byte(u8),
}

// Why a call is refused. An unfit sheet comes with its first fault, an altered slot with its number and what differs.
#[derive(Clone, Copy, Debug, PartialEq, Eq)]
pub enum Refusal {
    WrongKey,
    TwinKeys,
    WrongSpan,
    UnfitSheet(Fault),
    OtherKeyClass,
    NoSuchSlot,
    Overlong,
    Worn,
    Blank,
    Altered(u16, Change),
    OtherKeys,
    BrokenText,
}

// What a call answers: the length of the caption that was read, and 0 for any other call.
pub type Answer = Result<u16, Refusal>;

// A pair of keys: one seals captions, the other checks them.
#[derive(Clone, Copy)]
pub struct Keys<'a> {
    pub sealing: &'a [u8],
    pub checking: &'a [u8],
}
