// The tests of each call on a sheet, in the order of its table, and the leaves that they are made of.
#![tactic(auto)]

ghost use Rattle.std.specs.Prelude.{◌≡◌, true, false, ◌&&◌, [], ◌∷◌, ◌≤◌, ◌<◌, eqb, length};
ghost use Rattle.layout.specs.Layout.{new_edition, edition_of, key_class, sheet_size, slot_count, fit};
ghost use Rattle.layout.specs.Shape.{FitSlot};
ghost use Rattle.faults.specs.Faults.{fault_of};
ghost use Rattle.captions.specs.declared.Refusal.TheVariants.{UnfitSheet};
ghost use Rattle.captions.specs.Answers.{first_of};
ghost use Rattle.captions.specs.Captions.{pair, loaded_for};
ghost use Rattle.captions.specs.Calls.{wrong_keys, key_tests, unfit_row, class_row, mark_row, slot_row, caption_tests, blank_row, blank_tests};
ghost use Rattle.verdicts.specs.Rows.{size_row, sheet_rows, write_rows, window_rows, open_rows, clear_rows};

use captions::{Keys, Refusal};

// Whether a key has a wrong length, or the two lengths differ.
fn wrong_keys(keys: Keys) -> bool
    ensures { result ≡ wrong_keys (pair keys.entry.sealing.now keys.entry.checking.now) }
{
    !cipher::sheet_key_length(keys.sealing.len())
        || !cipher::sheet_key_length(keys.checking.len())
        || keys.sealing.len() != keys.checking.len()
}

// Tests 1 and 2.
pub fn keys_verdict(keys: Keys) -> Result<(), Refusal>
    ensures { result ≡ first_of (key_tests (pair keys.entry.sealing.now keys.entry.checking.now)) }
{
    if wrong_keys(keys) {
        return Err(Refusal::WrongKey);
    }
    if octets::same_bytes(keys.sealing, keys.checking) {
        return Err(Refusal::TwinKeys);
    }
    Ok(())
}

// Why an unfit sheet is refused, with its fault. Two functions call it: inlined into one, the search would keep that one from being inlined.
fn unfit(sheet: &[u8]) -> Refusal
    requires { fit sheet.now ≡ false }
    ensures { result ≡ UnfitSheet (fault_of sheet.now) }
{
    let f = faults::first_fault(sheet).unwrap();
    Refusal::UnfitSheet(f)
}

// Test 4. The fault is looked for in an unfit sheet alone.
pub fn fit_verdict(sheet: &[u8]) -> Result<(), Refusal>
    ensures { result ≡ first_of (unfit_row (edition_of sheet.now) sheet.now ∷ []) }
{
    if !layout::fit_sheet(sheet) {
        return Err(unfit(sheet));
    }
    Ok(())
}

// Test 5: key bytes are those of class t. Of the keys only the length of the sealing key is looked at.
fn size_verdict(sealing: &[u8], t: usize) -> Result<(), Refusal>
    requires { t < 256 }
    ensures { result ≡ first_of (size_row sealing.now t ∷ []) }
{
    if sealing.len() != cipher::key_bytes(t) {
        return Err(Refusal::OtherKeyClass);
    }
    Ok(())
}

// Test 5 on a sheet that meets the layout.
pub fn class_verdict(keys: Keys, sheet: &[u8]) -> Result<(), Refusal>
    requires { fit sheet.now ≡ true }
    ensures { result ≡ first_of (class_row (pair keys.entry.sealing.now keys.entry.checking.now) sheet.now ∷ []) }
{
    let h = layout::sheet_shape(sheet);
    size_verdict(keys.sealing, h.class)
}

// Test 14 on a sheet that meets the layout.
pub fn mark_verdict(keys: Keys, sheet: &[u8]) -> Result<(), Refusal>
    requires { fit sheet.now ≡ true }
    ensures { result ≡ first_of (mark_row (loaded_for (key_class sheet.now) (pair keys.entry.sealing.now keys.entry.checking.now)) (edition_of sheet.now) sheet.now ∷ []) }
{
    if key_mark::other_keys(keys, sheet) {
        return Err(Refusal::OtherKeys);
    }
    Ok(())
}

// Test 6 on a sheet that meets the layout.
pub fn slot_verdict(sheet: &[u8], slot: usize) -> Result<(), Refusal>
    requires { fit sheet.now ≡ true }
    ensures { result ≡ first_of (slot_row sheet.now slot ∷ []) }
{
    let h = layout::sheet_shape(sheet);
    if h.slots <= slot {
        return Err(Refusal::NoSuchSlot);
    }
    Ok(())
}

// Tests 4, 5, 14 and 6.
pub fn sheet_verdict(keys: Keys, sheet: &[u8], slot: usize) -> Result<(), Refusal>
    ensures { result ≡ first_of (sheet_rows (pair keys.entry.sealing.now keys.entry.checking.now) sheet.now slot) }
{
    fit_verdict(sheet)?;
    class_verdict(keys, sheet)?;
    mark_verdict(keys, sheet)?;
    slot_verdict(sheet, slot)
}

// Tests 7, 15 and 8.
pub fn caption_verdict(sheet: &[u8], caption: &[u8]) -> Result<(), Refusal>
    requires { 8 ≤ length sheet.now }
    ensures { result ≡ first_of (caption_tests sheet.now caption.now) }
{
    if 192 < caption.len() {
        return Err(Refusal::Overlong);
    }
    if !text::well_formed(caption) {
        return Err(Refusal::BrokenText);
    }
    if layout::last_write(sheet) == 4294967295 {
        return Err(Refusal::Worn);
    }
    Ok(())
}

// Test 9 on a slot of a sheet that meets the layout.
pub fn written_verdict(sheet: &[u8], slot: usize) -> Result<(), Refusal>
    requires { FitSlot sheet.now slot }
    ensures { result ≡ first_of (blank_row (edition_of sheet.now) sheet.now slot ∷ []) }
{
    if layout::blank_slot(sheet, layout::sheet_shape(sheet), slot) {
        return Err(Refusal::Blank);
    }
    Ok(())
}

// Tests 1, 2, 4, 5, 14, 6, 7, 15 and 8.
pub fn write_verdict(keys: Keys, sheet: &[u8], slot: usize, caption: &[u8]) -> Result<(), Refusal>
    ensures { result ≡ first_of (write_rows (pair keys.entry.sealing.now keys.entry.checking.now) sheet.now slot caption.now) }
{
    keys_verdict(keys)?;
    sheet_verdict(keys, sheet, slot)?;
    caption_verdict(sheet, caption)
}

// Tests 1 to 5, 14 and 6, for a window of n bytes.
fn window_verdict(keys: Keys, sheet: &[u8], slot: usize, n: usize) -> Result<(), Refusal>
    ensures { result ≡ first_of (window_rows (pair keys.entry.sealing.now keys.entry.checking.now) sheet.now slot n) }
{
    keys_verdict(keys)?;
    if n != 192 {
        return Err(Refusal::WrongSpan);
    }
    sheet_verdict(keys, sheet, slot)
}

// Tests 1 to 5, 14, 6 and 9, for a window of n bytes.
pub fn read_verdict(keys: Keys, sheet: &[u8], slot: usize, n: usize) -> Result<(), Refusal>
    ensures { result ≡ first_of (open_rows (pair keys.entry.sealing.now keys.entry.checking.now) sheet.now slot n) }
{
    window_verdict(keys, sheet, slot, n)?;
    written_verdict(sheet, slot)
}

// Tests 4 and 6.
pub fn clear_verdict(sheet: &[u8], slot: usize) -> Result<(), Refusal>
    ensures { result ≡ first_of (clear_rows sheet.now slot) }
{
    if !layout::fit_sheet(sheet) {
        return Err(unfit(sheet));
    }
    slot_verdict(sheet, slot)
}

// Whether a blank sheet of n slots has the length of this one.
fn blank_span(sheet: &[u8], n: usize) -> bool
    ensures { result ≡ slot_count n && eqb (length sheet.now) (sheet_size new_edition.header n) }
{
    layout::slot_count(n) && sheet.len() == layout::blank_size(n)
}

// Tests 1, 2, 3 and 5 of blanking; t is tested before the keys, and both give 1.
pub fn blank_verdict(keys: Keys, sheet: &[u8], n: usize, t: usize) -> Result<(), Refusal>
    ensures { result ≡ first_of (blank_tests (pair keys.entry.sealing.now keys.entry.checking.now) sheet.now n t) }
{
    if !cipher::class_known(t) {
        return Err(Refusal::WrongKey);
    }
    keys_verdict(keys)?;
    if !blank_span(sheet, n) {
        return Err(Refusal::WrongSpan);
    }
    size_verdict(keys.sealing, t)
}
