// The dated read: a caption is opened only on a day within its slot's term.
#![tactic(auto)]

ghost use Rattle.std.specs.Prelude.{◌≡◌, true};
ghost use Rattle.octets.specs.Bytes.{zeros};
ghost use Rattle.layout.specs.Layout.{slots, fit};
ghost use Rattle.captions.specs.Captions.{pair};
ghost use Rattle.terms.specs.Terms.{fit_terms};
ghost use Rattle.dated.specs.declared.DatedRefusal.TheVariants.{Read};
ghost use Rattle.dated.specs.Calls.{dated_outcome, dating};
ghost use Rattle.dated.specs.Inner.{dated_fit, dated_shown};

use captions::{Keys, Refusal};

// Why a dated read is refused: as the read is, or for one of the three reasons that a date brings.
#[derive(Clone, Copy, Debug, PartialEq, Eq)]
pub enum DatedRefusal {
    Read(Refusal),
    UnfitTerms,
    NoSuchDate,
    NotOnShow,
}

// What a dated read answers: the length of the caption that was read.
pub type DatedAnswer = Result<u16, DatedRefusal>;

impl From<Refusal> for DatedRefusal {
    ghost from_gives = { λ r e. e ≡ Read r };

    fn from(r: Refusal) -> DatedRefusal {
        DatedRefusal::Read(r)
    }
}

// Tests 6, 9, 12 and 10, with a sheet and terms that meet their layouts and a window of zeros.
fn read_shown(
    keys: Keys,
    sheet: &[u8],
    terms: &[u8],
    slot: usize,
    day: usize,
    window: &mut [u8],
) -> DatedAnswer
    requires { (fit sheet.now ≡ true) × (fit_terms (slots sheet.now) terms.now ≡ true) × (window.old ≡ zeros 192) }
    ensures { dated_outcome result window.new ≡ dated_shown (pair keys.entry.sealing.now keys.entry.checking.now) sheet.now terms.now slot day }
{
    verdicts::slot_verdict(sheet, slot)?;
    verdicts::written_verdict(sheet, slot)?;
    let h = layout::sheet_shape(sheet);
    if !terms::on_show(terms, h.slots, slot, day) {
        return Err(DatedRefusal::NotOnShow);
    }
    let len = slots::unseal::show(keys, sheet, slot, window)?;
    Ok(len)
}

// Tests 4, of the terms, 5, 11, 14 and the others, with a sheet that meets the layout and a window of zeros.
fn read_fit(
    keys: Keys,
    sheet: &[u8],
    terms: &[u8],
    slot: usize,
    day: usize,
    window: &mut [u8],
) -> DatedAnswer
    requires { (fit sheet.now ≡ true) × (window.old ≡ zeros 192) }
    ensures { dated_outcome result window.new ≡ dated_fit (pair keys.entry.sealing.now keys.entry.checking.now) sheet.now terms.now slot day }
{
    let h = layout::sheet_shape(sheet);
    if !terms::fit_terms(terms, h.slots) {
        return Err(DatedRefusal::UnfitTerms);
    }
    verdicts::class_verdict(keys, sheet)?;
    if terms::LAST_DAY < day {
        return Err(DatedRefusal::NoSuchDate);
    }
    verdicts::mark_verdict(keys, sheet)?;
    read_shown(keys, sheet, terms, slot, day, window)
}

// Opens a slot into the window on a day of its term; a refused read makes every byte of the window zero.
pub fn dated_read(
    sealing: &[u8],
    checking: &[u8],
    sheet: &[u8],
    terms: &[u8],
    slot: usize,
    day: usize,
    window: &mut [u8],
) -> DatedAnswer
    ensures { dated_outcome result window.new ≡ dating (pair sealing.now checking.now) sheet.now terms.now slot day window.old }
{
    octets::fill_zero(window);
    let keys = Keys { sealing, checking };
    verdicts::keys_verdict(keys)?;
    if window.len() != 192 {
        return Err(DatedRefusal::Read(Refusal::WrongSpan));
    }
    verdicts::fit_verdict(sheet)?;
    read_fit(keys, sheet, terms, slot, day, window)
}
