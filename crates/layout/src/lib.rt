// The layout of a sheet: its shape, the test that it meets every rule, and the stores of whole slots and header fields.
#![tactic(auto)]

ghost use Rattle.std.specs.Prelude.{◌≡◌, ◌&&◌, ◌≤◌, ◌<◌, eqb, length};
ghost use Rattle.octets.specs.Bytes.{zeros, all_below};
ghost use Rattle.layout.specs.Layout.{edition_of, new_edition, slots, key_class, last_write, slot_count, sheet_size, mark_at, field_at, blank_slot, fit_slot, fit, store_slot, store_last, blank_sheet};
ghost use Rattle.layout.specs.Shape.{has_serial, shape_of, SlotIn, SheetOf};
ghost use Rattle.layout.specs.Marks.{blank_after, written_after};

#[derive(Clone, Copy)]
pub struct Shape {
    pub header: usize,
    pub slots: usize,
    pub class: usize,
    pub tail: usize,
}

// The size of the header of edition 1.
const HEADER_1: usize = 8;

// The size of the header from edition 2 on.
const HEADER_2: usize = 16;

#[tactic(auto, unfolding(crate::specs::Layout::slot_count))]
pub fn slot_count(n: usize) -> bool
    ensures { result ≡ slot_count n }
{
    matches!(n, 1..=256)
}

pub fn last_write(s: &[u8]) -> usize
    requires { 8 ≤ length s.now }
    ensures { (result ≡ last_write s.now) × (result < 4294967296) }
{
    octets::number::<4>(s, 4)
}

// Whether an edition's header has a serial.
#[tactic(auto, unfolding(crate::specs::Shape::has_serial))]
fn has_serial(v: usize) -> bool
    ensures { result ≡ has_serial v }
{
    matches!(v, 2 | 3)
}

// The size of the header of the sheet's edition.
fn header_size(s: &[u8]) -> usize
    requires { 8 ≤ length s.now }
    ensures { result ≡ (edition_of s.now).header }
{
    if has_serial(octets::byte(s, 3)) {
        HEADER_2
    } else {
        HEADER_1
    }
}

// The last two bytes of the block that is encrypted to make a start block: the serial, or zero in edition 1.
fn start_tail(s: &[u8]) -> usize
    requires { (edition_of s.now).header ≤ length s.now }
    ensures { result ≡ (edition_of s.now).tail s.now }
{
    if has_serial(octets::byte(s, 3)) {
        octets::number::<2>(s, 8)
    } else {
        0
    }
}

pub fn sheet_shape(s: &[u8]) -> Shape
    requires { (edition_of s.now).header ≤ length s.now }
    ensures { result ≡ shape_of s.now }
{
    Shape {
        header: header_size(s),
        slots: octets::number::<2>(s, 0),
        class: octets::byte(s, 2),
        tail: start_tail(s),
    }
}

// Whether byte 2 names a class of the sheet's edition; an unknown edition has those of edition 1.
pub fn class_rule(s: &[u8]) -> bool
    requires { 8 ≤ length s.now }
    ensures { result ≡ (edition_of s.now).classes (key_class s.now) }
{
    let t = octets::byte(s, 2);
    if octets::byte(s, 3) == 3 {
        cipher::class_known(t)
    } else {
        cipher::mcrypton_class(t)
    }
}

// The rule of the sheet's edition on its header.
fn header_rule(s: &[u8]) -> bool
    requires { (edition_of s.now).header ≤ length s.now }
    ensures { result ≡ (edition_of s.now).rule s.now }
{
    let edition = octets::byte(s, 3);
    class_rule(s)
        && match edition {
            1 | 3 => true,
            2 => octets::all_zero(&s[10..16]),
            _ => false,
        }
}

// Whether the sheet has the size that its header says.
pub fn fit_size(s: &[u8]) -> bool
    requires { 8 ≤ length s.now }
    ensures { result ≡ slot_count (slots s.now) && eqb (length s.now) (sheet_size (edition_of s.now).header (slots s.now)) }
{
    let n = octets::number::<2>(s, 0);
    slot_count(n) && s.len() == sheet_size(header_size(s), n)
}

// The size of a sheet of n slots.
pub fn sheet_size(header: usize, n: usize) -> usize
    requires { (header ≤ 16) × (n ≤ 256) }
    ensures { result ≡ sheet_size header n }
{
    header + 208 * n
}

// The place of the mark of slot i.
pub fn mark_at(h: Shape, i: usize) -> usize
    requires { (h.header ≤ 16) × (h.slots ≤ 256) × (i < h.slots) }
    ensures { result ≡ mark_at h.header i }
{
    h.header + 16 * i
}

// The place of the sealed field of slot i.
pub fn field_at(h: Shape, i: usize) -> usize
    requires { (h.header ≤ 16) × (h.slots ≤ 256) × (i < h.slots) }
    ensures { result ≡ field_at h.header h.slots i }
{
    h.header + 16 * h.slots + 192 * i
}

pub fn blank_slot(s: &[u8], h: Shape, i: usize) -> bool
    requires { SlotIn s.now h i }
    ensures { result ≡ blank_slot (edition_of s.now) s.now i }
{
    let a = mark_at(h, i);
    let b = field_at(h, i);
    octets::all_zero(&s[a..a + 16]) && octets::all_zero(&s[b..b + 192])
}

// Whether a slot is blank whose write number is 0; rest is the number in bytes 4 to 7 of its mark.
fn blank_after(s: &[u8], h: Shape, i: usize, rest: usize) -> bool
    requires { SlotIn s.now h i }
    ensures { result ≡ blank_after s.now h i rest }
{
    let a = mark_at(h, i) + 8;
    let b = field_at(h, i);
    rest == 0 && octets::all_zero(&s[a..a + 8]) && octets::all_zero(&s[b..b + 192])
}

// Whether a slot is written whose write number is not 0.
fn written_after(number: usize, rest: usize, w: usize) -> bool
    ensures { result ≡ written_after w number rest }
{
    number <= w && rest <= 192 * 65536 && rest % 65536 == 0
}

// A mark's numbers are read once: the write number says which of the two a slot can be.
pub fn fit_slot(s: &[u8], h: Shape, w: usize, i: usize) -> bool
    requires slot_in { SlotIn s.now h i }
    requires w_value { w ≡ last_write s.now }
    ensures { result ≡ fit_slot (edition_of s.now) s.now i }
{
    let a = mark_at(h, i);
    let number = octets::number::<4>(s, a);
    let rest = octets::number::<4>(s, a + 4);
    if number == 0 {
        blank_after(s, h, i, rest)
    } else {
        written_after(number, rest, w)
    }
}

fn fit_slots(s: &[u8], h: Shape, w: usize) -> bool
    requires sheet_of { SheetOf s.now h }
    requires w_value { w ≡ last_write s.now }
    ensures { result ≡ all_below (slots s.now) (fit_slot (edition_of s.now) s.now) }
{
    (0..h.slots).all(|i| fit_slot(s, h, w, i))
}

pub fn fit_sheet(s: &[u8]) -> bool
    ensures { result ≡ fit s.now }
{
    s.len() >= 8 && fit_size(s) && header_rule(s) && fit_slots(s, sheet_shape(s), last_write(s))
}

// The size of a blank sheet of n slots.
pub fn blank_size(n: usize) -> usize
    requires { n ≤ 256 }
    ensures { result ≡ sheet_size new_edition.header n }
{
    sheet_size(HEADER_2, n)
}

// A blank sheet of edition 3 with n slots, keys of class t, a serial and a key mark.
pub fn put_blank(sheet: &mut [u8], n: usize, t: usize, serial: u16, mark: [u8; 6])
    requires sheet_len { length sheet.old ≡ sheet_size new_edition.header n }
    requires n_bound { (n ≤ 256) × (t < 256) }
    ensures { sheet.new ≡ blank_sheet n t serial mark }
{
    octets::fill_zero(sheet);
    octets::copy_part(sheet, 0, &octets::bytes::<2>(n));
    sheet[2] = t as u8;
    sheet[3] = 3;
    octets::copy_part(sheet, 8, &serial.to_be_bytes());
    octets::copy_part(sheet, 10, &mark);
}

// All 208 bytes of slot i become zero.
pub fn zero_slot(sheet: &mut [u8], h: Shape, i: usize)
    requires { SlotIn sheet.old h i }
    ensures { sheet.new ≡ store_slot (edition_of sheet.old) sheet.old i (zeros 16) (zeros 192) }
{
    octets::zero_part(sheet, field_at(h, i), 192);
    octets::zero_part(sheet, mark_at(h, i), 16);
}

// The last write number becomes w.
pub fn put_last(sheet: &mut [u8], w: usize)
    requires { 8 ≤ length sheet.old }
    ensures { sheet.new ≡ store_last sheet.old w }
{
    octets::copy_part(sheet, 4, &octets::bytes::<4>(w));
}
