// The key mark of a sheet, by which it knows the pair of keys that it was blanked with.
#![tactic(auto)]

ghost use Rattle.std.specs.Prelude.{◌≡◌, true};
ghost use Rattle.layout.specs.Layout.{edition_of, key_class, fit};
ghost use Rattle.captions.specs.Captions.{pair, loaded_for, mark_block, key_mark, other_keys};

use captions::Keys;

// The block that is encrypted to make a key mark: n, t, edition 3, the serial, two zero bytes.
fn mark_block(n: usize, t: usize, serial: usize) -> [u8; 8]
    ensures { result ≡ mark_block n t serial }
{
    let [n_high, n_low] = octets::bytes::<2>(n);
    let [serial_high, serial_low] = octets::bytes::<2>(serial);
    [
        n_high,
        n_low,
        (t % 256) as u8,
        3,
        serial_high,
        serial_low,
        0,
        0,
    ]
}

// The key mark of a pair of keys of class t.
pub fn key_mark(keys: Keys, n: usize, t: usize, serial: usize) -> [u8; 6]
    ensures { result ≡ key_mark (loaded_for t (pair keys.entry.sealing.now keys.entry.checking.now)) n t serial }
{
    let k = cipher::load(t, keys.sealing);
    let m = cipher::load(t, keys.checking);
    let sealed = cipher::encrypt(k, mark_block(n, t, serial));
    let c = modes::mac_one(m, sealed);
    [c[0], c[1], c[2], c[3], c[4], c[5]]
}

// Whether a sheet that meets the layout has a key mark, which edition 3 alone has, and it isn't that of the keys.
pub fn other_keys(keys: Keys, sheet: &[u8]) -> bool
    requires { fit sheet.now ≡ true }
    ensures { result ≡ other_keys (loaded_for (key_class sheet.now) (pair keys.entry.sealing.now keys.entry.checking.now)) (edition_of sheet.now) sheet.now }
{
    if octets::byte(sheet, 3) != 3 {
        return false;
    }
    let h = layout::sheet_shape(sheet);
    let mark = key_mark(keys, h.slots, h.class, h.tail);
    !octets::same_bytes(&mark, &sheet[10..16])
}
