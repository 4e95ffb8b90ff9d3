// Caption sheets: blanking, writing, clearing and reading.
#![tactic(auto)]

ghost use Rattle.std.specs.Prelude.{◌≡◌};
ghost use Rattle.captions.specs.Answers.{outcome};
ghost use Rattle.captions.specs.Captions.{pair};
ghost use Rattle.captions.specs.Calls.{writing, clearing, reading, blanking};

use captions::{Answer, Keys};

// Stores a blank sheet of n slots for a pair of keys: n, t, the edition, w = 0, the serial, the key mark and zeros.
pub fn blank(
    sheet: &mut [u8],
    n: usize,
    t: usize,
    serial: u16,
    sealing: &[u8],
    checking: &[u8],
) -> Answer
    ensures { outcome result sheet.new ≡ blanking (pair sealing.now checking.now) sheet.old n t serial }
{
    let keys = Keys { sealing, checking };
    verdicts::blank_verdict(keys, sheet, n, t)?;
    let mark = key_mark::key_mark(keys, n, t, usize::from(serial));
    layout::put_blank(sheet, n, t, serial, mark);
    Ok(0)
}

// Seals a caption into a slot.
pub fn write(
    sealing: &[u8],
    checking: &[u8],
    sheet: &mut [u8],
    slot: usize,
    caption: &[u8],
) -> Answer
    ensures { outcome result sheet.new ≡ writing (pair sealing.now checking.now) sheet.old slot caption.now }
{
    let keys = Keys { sealing, checking };
    verdicts::write_verdict(keys, sheet, slot, caption)?;
    slots::seal::put_caption(keys, sheet, slot, caption);
    Ok(0)
}

// Makes all 208 bytes of a slot zero.
pub fn clear(sheet: &mut [u8], slot: usize) -> Answer
    ensures { outcome result sheet.new ≡ clearing sheet.old slot }
{
    verdicts::clear_verdict(sheet, slot)?;
    let h = layout::sheet_shape(sheet);
    layout::zero_slot(sheet, h, slot);
    Ok(0)
}

// Opens a slot into the window; a refused read makes every byte of the window zero.
pub fn read(sealing: &[u8], checking: &[u8], sheet: &[u8], slot: usize, window: &mut [u8]) -> Answer
    ensures { outcome result window.new ≡ reading (pair sealing.now checking.now) sheet.now slot window.old }
{
    octets::fill_zero(window);
    let keys = Keys { sealing, checking };
    verdicts::read_verdict(keys, sheet, slot, window.len())?;
    slots::unseal::show(keys, sheet, slot, window)
}
