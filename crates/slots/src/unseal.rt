// Opening a slot into a window.
ghost use Rattle.std.specs.Prelude.{◌≡◌, ◌+◌, ◌-◌, ◌≤◌, ◌<◌, length, drop, Err};
ghost use Rattle.octets.specs.Bytes.{part, zeros, same, all_zero};
ghost use Rattle.layout.specs.Layout.{edition_of, key_class, mark_at, field_at, mark_length, mark};
ghost use Rattle.layout.specs.Shape.{SlotIn};
ghost use Rattle.faults.specs.Faults.{first_set};
ghost use Rattle.captions.specs.Answers.{outcome};
ghost use Rattle.captions.specs.Captions.{pair, loaded_for, check_of, opened_field};
ghost use Rattle.slots.specs.Inner.{ciphers, left_in, slot_shown, Written, Placed};

use crate::seal::{check_at, start_block};
use captions::{Answer, Change, Keys, Refusal};
use layout::Shape;

// Whether the stored check is that of the field.
fn check_same(m: cipher::Key, sheet: &[u8], h: Shape, w: usize, i: usize, len: usize) -> bool
    requires { Placed (length sheet.now) h i }
    ensures { result ≡ same (check_of (ciphers m m) w i len (part sheet.now (field_at h.header h.slots i) 192)) (part sheet.now (mark_at h.header i + 8) 8) }
{
    let check = check_at(m, sheet, h, w, i, len);
    let a = layout::mark_at(h, i) + 8;
    octets::same_bytes(&check, &sheet[a..a + 8])
}

// The field of slot i, opened into the window.
fn open_field(k: cipher::Key, sheet: &[u8], h: Shape, w: usize, i: usize, window: &mut [u8])
    requires { Placed (length sheet.now) h i × (length window.old ≡ 192) }
    ensures { window.new ≡ opened_field (ciphers k k) h.tail w i (part sheet.now (field_at h.header h.slots i) 192) }
{
    let b = layout::field_at(h, i);
    let start = start_block(k, h.tail, w, i);
    modes::cbc_decrypt(k, start, &sheet[b..b + 192], window);
}

// Whether every byte at or past len is zero.
fn tail_zero(s: &[u8], len: usize) -> bool
    requires { len ≤ length s.now }
    ensures { result ≡ all_zero (drop len s.now) }
{
    octets::all_zero(&s[len..])
}

// The place of the first byte at or past len that isn't zero.
fn first_left(s: &[u8], len: usize) -> u8
    requires { len ≤ 192 }
    ensures { result ≡ first_set s.now len (192 - len) }
{
    let place = faults::first_set(s, len, 192 - len);
    place as u8
}

// Why an opened field is refused that isn't zero at or past len. The window becomes zero.
fn refuse_left(window: &mut [u8], i: usize, len: usize) -> Refusal
    requires { (i < 65536) × (len ≤ 192) }
    ensures { outcome (Err result) window.new ≡ left_in window.old i len }
{
    let place = first_left(window, len);
    octets::fill_zero(window);
    Refusal::Altered(i as u16, Change::Byte(place))
}

// Test 10 and the read of slot i with loaded keys, for a sheet whose shape is h. The window is all zero.
fn show_slot(
    k: cipher::Key,
    m: cipher::Key,
    sheet: &[u8],
    h: Shape,
    i: usize,
    window: &mut [u8],
) -> Answer
    requires { SlotIn sheet.now h i × (window.old ≡ zeros 192) × (mark_length (mark (edition_of sheet.now) sheet.now i) ≤ 192) }
    ensures { outcome result window.new ≡ slot_shown (ciphers k m) sheet.now i }
{
    let a = layout::mark_at(h, i);
    let w = octets::number::<4>(sheet, a);
    let len = octets::number::<2>(sheet, a + 4);
    if !check_same(m, sheet, h, w, i, len) {
        return Err(Refusal::Altered(i as u16, Change::Check));
    }
    open_field(k, sheet, h, w, i, window);
    if !tail_zero(window, len) {
        return Err(refuse_left(window, i, len));
    }
    Ok(len as u16)
}

// Test 10 and the read of a slot that isn't blank. The window is all zero.
pub fn show(keys: Keys, sheet: &[u8], slot: usize, window: &mut [u8]) -> Answer
    requires { Written sheet.now slot × (window.old ≡ zeros 192) }
    ensures { outcome result window.new ≡ slot_shown (loaded_for (key_class sheet.now) (pair keys.entry.sealing.now keys.entry.checking.now)) sheet.now slot }
{
    let h = layout::sheet_shape(sheet);
    let k = cipher::load(h.class, keys.sealing);
    let m = cipher::load(h.class, keys.checking);
    show_slot(k, m, sheet, h, slot, window)
}
