// The answers of read, write and dated read as numbers: the refusal's, and the rule, slot and place that it points at.
#![tactic(auto)]

ghost use Rattle.std.specs.Prelude.{◌≡◌, Err};
ghost use Rattle.faults.specs.Faults.{point, header_point, mark_point, fault_point};
ghost use Rattle.captions.specs.Answers.{change_point};
ghost use Rattle.points.specs.Pointed.{made, pointed_at, answer_pointed, dated_pointed};

use captions::{Answer, Change, Refusal};
use dated::{DatedAnswer, DatedRefusal};
use faults::{Fault, HeaderRule, MarkRule};

#[repr(C)]
#[derive(Clone, Copy, Debug, PartialEq, Eq)]
pub struct Pointed {
    pub number: u8,
    pub rule: u8,
    pub length: u16,
    pub slot: u16,
    pub place: u16,
}

fn at(number: u8, rule: u8, slot: u16, place: u16) -> Pointed
    ensures { result ≡ pointed_at number (point rule slot place) }
{
    Pointed {
        number,
        rule,
        length: 0,
        slot,
        place,
    }
}

fn accepted(length: u16) -> Pointed
    ensures { result ≡ made 0 length (point 0 0 0) }
{
    Pointed {
        number: 0,
        rule: 0,
        length,
        slot: 0,
        place: 0,
    }
}

impl From<HeaderRule> for Pointed {
    ghost from_gives = { λ r p. p ≡ pointed_at 4 (header_point r) };

    #[tactic(auto, unfolding(faults::specs::Faults::header_point))]
    fn from(r: HeaderRule) -> Pointed {
        match r {
            HeaderRule::Short => at(4, 1, 0, 0),
            HeaderRule::Count => at(4, 2, 0, 0),
            HeaderRule::Class => at(4, 3, 0, 0),
            HeaderRule::Edition => at(4, 4, 0, 0),
            HeaderRule::Zero(place) => at(4, 5, 0, u16::from(place)),
            HeaderRule::Length => at(4, 6, 0, 0),
        }
    }
}

#[tactic(auto, unfolding(faults::specs::Faults::mark_point))]
fn mark_pointed(slot: u16, r: MarkRule) -> Pointed
    ensures { result ≡ pointed_at 4 (mark_point slot r) }
{
    match r {
        MarkRule::Number => at(4, 7, slot, 0),
        MarkRule::Length => at(4, 8, slot, 0),
        MarkRule::Zero(place) => at(4, 9, slot, u16::from(place)),
    }
}

impl From<Fault> for Pointed {
    ghost from_gives = { λ f p. p ≡ pointed_at 4 (fault_point f) };

    #[tactic(auto, unfolding(faults::specs::Faults::fault_point))]
    fn from(f: Fault) -> Pointed {
        match f {
            Fault::Header(r) => Pointed::from(r),
            Fault::Mark(slot, r) => mark_pointed(slot, r),
        }
    }
}

#[tactic(auto, unfolding(captions::specs::Answers::change_point))]
fn change_pointed(slot: u16, c: Change) -> Pointed
    ensures { result ≡ pointed_at 10 (change_point slot c) }
{
    match c {
        Change::Check => at(10, 10, slot, 0),
        Change::Byte(place) => at(10, 11, slot, u16::from(place)),
    }
}

impl From<Refusal> for Pointed {
    ghost from_gives = { λ r p. p ≡ answer_pointed (Err r) };

    #[tactic(auto, unfolding(crate::specs::Pointed::answer_pointed, captions::specs::Answers::answer_number, captions::specs::Answers::answer_length, captions::specs::Answers::answer_point))]
    fn from(r: Refusal) -> Pointed {
        match r {
            Refusal::WrongKey => at(1, 0, 0, 0),
            Refusal::TwinKeys => at(2, 0, 0, 0),
            Refusal::WrongSpan => at(3, 0, 0, 0),
            Refusal::UnfitSheet(f) => Pointed::from(f),
            Refusal::OtherKeyClass => at(5, 0, 0, 0),
            Refusal::NoSuchSlot => at(6, 0, 0, 0),
            Refusal::Overlong => at(7, 0, 0, 0),
            Refusal::Worn => at(8, 0, 0, 0),
            Refusal::Blank => at(9, 0, 0, 0),
            Refusal::Altered(slot, c) => change_pointed(slot, c),
            Refusal::OtherKeys => at(14, 0, 0, 0),
            Refusal::BrokenText => at(15, 0, 0, 0),
        }
    }
}

impl From<Answer> for Pointed {
    ghost from_gives = { λ a p. p ≡ answer_pointed a };

    #[tactic(auto, unfolding(crate::specs::Pointed::answer_pointed, captions::specs::Answers::answer_number, captions::specs::Answers::answer_length, captions::specs::Answers::answer_point))]
    fn from(a: Answer) -> Pointed {
        match a {
            Ok(length) => accepted(length),
            Err(r) => Pointed::from(r),
        }
    }
}

impl From<DatedRefusal> for Pointed {
    ghost from_gives = { λ r p. p ≡ dated_pointed (Err r) };

    #[tactic(auto, unfolding(crate::specs::Pointed::answer_pointed, crate::specs::Pointed::dated_pointed, dated::specs::Calls::dated_number, dated::specs::Calls::dated_length, dated::specs::Calls::dated_point))]
    fn from(r: DatedRefusal) -> Pointed {
        match r {
            DatedRefusal::Read(r) => Pointed::from(r),
            DatedRefusal::UnfitTerms => at(4, 12, 0, 0),
            DatedRefusal::NoSuchDate => at(11, 0, 0, 0),
            DatedRefusal::NotOnShow => at(12, 0, 0, 0),
        }
    }
}

impl From<DatedAnswer> for Pointed {
    ghost from_gives = { λ a p. p ≡ dated_pointed a };

    #[tactic(auto, unfolding(crate::specs::Pointed::dated_pointed, dated::specs::Calls::dated_number, dated::specs::Calls::dated_length, dated::specs::Calls::dated_point, captions::specs::Answers::answer_number, captions::specs::Answers::answer_length, captions::specs::Answers::answer_point))]
    fn from(a: DatedAnswer) -> Pointed {
        match a {
            Ok(length) => accepted(length),
            Err(r) => Pointed::from(r),
        }
    }
}
