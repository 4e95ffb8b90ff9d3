// The first rule of the layout that a sheet breaks. It is looked for where a sheet has been refused; whether it is fit is found faster by `layout::fit_sheet`.
#![tactic(auto)]

ghost use Rattle.std.specs.Prelude.{◌≡◌, false, ◌+◌, ◌≤◌, ◌<◌, length};
ghost use Rattle.layout.specs.Layout.{edition_of, slots, last_write, fit_slot};
ghost use Rattle.layout.specs.Shape.{SlotIn, SheetOf};
ghost use Rattle.faults.specs.Faults.{first_set, edition_known, first_fault};
ghost use Rattle.faults.specs.Inner.{zero_place, slots_fault, size_fault, mark_fault};

use layout::Shape;

// The rules of a header, in the order of its bytes; the last is that of the sheet's length.
#[derive(Clone, Copy, Debug, PartialEq, Eq)]
pub enum HeaderRule {
    Short,
    Count,
    Class,
    Edition,
    Zero(u8),
    Length,
}

// The rules of a written slot's mark, in the order of its bytes.
#[derive(Clone, Copy, Debug, PartialEq, Eq)]
pub enum MarkRule {
    Number,
    Length,
    Zero(u8),
}

// The rule that a sheet breaks first, with the slot where it is a mark's.
#[derive(Clone, Copy, Debug, PartialEq, Eq)]
pub enum Fault {
    Header(HeaderRule),
    Mark(u16, MarkRule),
}

// The place of the first of n bytes from a that isn't zero, of those that s has.
pub fn first_set(s: &[u8], a: usize, n: usize) -> usize
    requires { (a ≤ 192) × (n ≤ 192) }
    ensures { result ≡ first_set s.now a n }
{
    for i in a..a + n {
        if s.len() <= i {
            return i;
        }
        if s[i] != 0 {
            return i;
        }
    }
    a + n
}

#[tactic(auto, unfolding(crate::specs::Faults::edition_known))]
fn edition_known(v: usize) -> bool
    ensures { result ≡ edition_known v }
{
    matches!(v, 1 | 2 | 3)
}

// The first of the header's zero bytes that isn't, of those that s has.
fn zero_place(s: &[u8]) -> Option<u8>
    requires { 8 ≤ length s.now }
    ensures { result ≡ zero_place s.now }
{
    if octets::byte(s, 3) != 2 {
        return None;
    }
    let z = first_set(s, 10, 6);
    if z < s.len().min(16) {
        return Some(z as u8);
    }
    None
}

// The rule that a slot breaks which is neither blank nor written.
#[tactic(auto, unfolding(layout::specs::Layout::sheet_size, layout::specs::Layout::mark_at))]
fn mark_rule(s: &[u8], h: Shape, w: usize, i: usize) -> MarkRule
    requires { SlotIn s.now h i × (w ≡ last_write s.now) × (fit_slot (edition_of s.now) s.now i ≡ false) }
    ensures { mark_fault i result ≡ slots_fault s.now i }
{
    let a = layout::mark_at(h, i);
    let x = octets::number::<4>(s, a);
    if x == 0 {
        return MarkRule::Number;
    }
    if w < x {
        return MarkRule::Number;
    }
    if 192 < octets::number::<2>(s, a + 4) {
        return MarkRule::Length;
    }
    if octets::byte(s, a + 6) != 0 {
        return MarkRule::Zero(6);
    }
    MarkRule::Zero(7)
}

// The first fault of the slots of a sheet whose header has none.
fn slots_fault(s: &[u8], h: Shape, w: usize) -> Option<Fault>
    requires { SheetOf s.now h × (w ≡ last_write s.now) }
    ensures { result ≡ slots_fault s.now 0 }
{
    for i in 0..h.slots {
        if !layout::fit_slot(s, h, w, i) {
            let r = mark_rule(s, h, w, i);
            return Some(Fault::Mark(i as u16, r));
        }
    }
    None
}

// The rule of the length, and then the slots.
fn size_fault(s: &[u8]) -> Option<Fault>
    requires { 8 ≤ length s.now }
    ensures { result ≡ size_fault s.now }
{
    if !layout::fit_size(s) {
        return Some(Fault::Header(HeaderRule::Length));
    }
    slots_fault(s, layout::sheet_shape(s), layout::last_write(s))
}

pub fn first_fault(s: &[u8]) -> Option<Fault>
    ensures { result ≡ first_fault s.now }
{
    if s.len() < 8 {
        return Some(Fault::Header(HeaderRule::Short));
    }
    if !layout::slot_count(octets::number::<2>(s, 0)) {
        return Some(Fault::Header(HeaderRule::Count));
    }
    if !layout::class_rule(s) {
        return Some(Fault::Header(HeaderRule::Class));
    }
    if !edition_known(octets::byte(s, 3)) {
        return Some(Fault::Header(HeaderRule::Edition));
    }
    if let Some(z) = zero_place(s) {
        return Some(Fault::Header(HeaderRule::Zero(z)));
    }
    size_fault(s)
}
