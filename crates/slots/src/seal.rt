// Sealing a caption into a slot.
ghost use Rattle.std.specs.Prelude.{◌≡◌, ◌≤◌, length};
ghost use Rattle.octets.specs.Bytes.{part, put};
ghost use Rattle.layout.specs.Layout.{edition_of, key_class, mark_at, field_at};
ghost use Rattle.layout.specs.Shape.{SlotIn, FitSlot};
ghost use Rattle.captions.specs.Captions.{pair, loaded_for, start_block, sealed_field, check_of, new_mark, stored_as, written};
ghost use Rattle.slots.specs.Inner.{ciphers, Placed, FieldPut};

use captions::Keys;
use layout::Shape;

pub fn start_block(k: cipher::Key, tail: usize, w: usize, i: usize) -> [u8; 8]
    ensures { result ≡ start_block (ciphers k k) tail w i }
{
    cipher::encrypt(k, octets::bytes4_2_2(w, i, tail))
}

// The sealed field of a caption, to out.
fn seal_caption(k: cipher::Key, tail: usize, w: usize, i: usize, caption: &[u8], out: &mut [u8])
    requires { (length caption.now ≤ 192) × (length out.old ≡ 192) }
    ensures { out.new ≡ sealed_field (ciphers k k) tail w i caption.now }
{
    let mut plain = [0u8; 192];
    octets::copy_part(&mut plain, 0, caption);
    modes::cbc_encrypt(k, start_block(k, tail, w, i), &plain, out);
}

// The sealed field of a caption, to its place in the sheet.
fn put_field(k: cipher::Key, sheet: &mut [u8], h: Shape, w: usize, i: usize, caption: &[u8])
    requires { (length caption.now ≤ 192) × Placed (length sheet.old) h i }
    ensures { FieldPut sheet.old (field_at h.header h.slots i) (sealed_field (ciphers k k) h.tail w i caption.now) sheet.new }
{
    let b = layout::field_at(h, i);
    seal_caption(k, h.tail, w, i, caption, &mut sheet[b..b + 192]);
}

// The check of the field of slot i, with the numbers before it, on the sheet's own bytes.
pub fn check_at(m: cipher::Key, sheet: &[u8], h: Shape, w: usize, i: usize, len: usize) -> [u8; 8]
    requires { Placed (length sheet.now) h i }
    ensures { result ≡ check_of (ciphers m m) w i len (part sheet.now (field_at h.header h.slots i) 192) }
{
    let b = layout::field_at(h, i);
    modes::mac_two(m, octets::bytes4_2_2(w, i, len), &sheet[b..b + 192])
}

fn put_mark(sheet: &mut [u8], h: Shape, w: usize, i: usize, len: usize, check: [u8; 8])
    requires { Placed (length sheet.old) h i }
    ensures { sheet.new ≡ put sheet.old (mark_at h.header i) (new_mark w len check) }
{
    let a = layout::mark_at(h, i);
    let head = octets::bytes4_2_2(w, len, 0);
    octets::copy_part(sheet, a, &head);
    octets::copy_part(sheet, a + 8, &check);
}

// Write number w: the field, the mark, and w in the header.
fn put_slot(
    k: cipher::Key,
    m: cipher::Key,
    sheet: &mut [u8],
    h: Shape,
    w: usize,
    i: usize,
    caption: &[u8],
)
    requires { (length caption.now ≤ 192) × SlotIn sheet.old h i }
    ensures { sheet.new ≡ stored_as (ciphers k m) (edition_of sheet.old) sheet.old w i caption.now }
{
    put_field(k, sheet, h, w, i, caption);
    let check = check_at(m, sheet, h, w, i, caption.len());
    put_mark(sheet, h, w, i, caption.len(), check);
    layout::put_last(sheet, w);
}

// The next write number, with the keys loaded for the sheet's class.
pub fn put_caption(keys: Keys, sheet: &mut [u8], slot: usize, caption: &[u8])
    requires { (length caption.now ≤ 192) × FitSlot sheet.old slot }
    ensures { sheet.new ≡ written (loaded_for (key_class sheet.old) (pair keys.entry.sealing.now keys.entry.checking.now)) (edition_of sheet.old) sheet.old slot caption.now }
{
    let h = layout::sheet_shape(sheet);
    let w = layout::last_write(sheet) + 1;
    let k = cipher::load(h.class, keys.sealing);
    let m = cipher::load(h.class, keys.checking);
    put_slot(k, m, sheet, h, w, slot, caption);
}
