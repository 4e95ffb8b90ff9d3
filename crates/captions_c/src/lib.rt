// What C and Rust link: each call behind its C name, its answer as a number and a length, and where it points.
#![tactic(auto)]

ghost use Rattle.std.specs.Prelude.{◌≡◌, List, ℕ};
ghost use Rattle.text.specs.Place.{broken_at};
ghost use Rattle.octets.specs.BlockCalls.{block_outcome};
ghost use Rattle.mcrypton.specs.Calls.{encrypting, decrypting};
ghost use Rattle.present.specs.Calls.{encrypting as present_encrypting, decrypting as present_decrypting};
ghost use Rattle.chip_bench.specs.Calls.{bench_outcome, benching};
ghost use Rattle.modes.specs.Answers.{authenticating};
ghost use Rattle.panels.specs.Calls.{panel_outcome, panelling};
ghost use Rattle.captions.specs.Answers.{outcome};
ghost use Rattle.captions.specs.Captions.{pair};
ghost use Rattle.captions.specs.Calls.{blanking, writing, clearing, reading};
ghost use Rattle.calendar.specs.Answers.{day_outcome, date_outcome};
ghost use Rattle.calendar.specs.Calendar.{day_of_date, date_of_day};
ghost use Rattle.dated.specs.Calls.{dating};
ghost use Rattle.points.specs.Pointed.{pointed_outcome};
ghost use Rattle.listing.specs.Listing.{listed};
ghost use Rattle.running_order.specs.Calls.{order_outcome, ordering};
ghost use Rattle.captions_c.specs.Answer.{crossed, plain, day_crossed, date_crossed};

use chip_bench::BenchError;
use octets::BlockError;
use panels::PanelError;
use points::Pointed;

#[repr(C)]
#[derive(Clone, Copy)]
pub struct Answer {
    pub number: u8,
    pub length: u16,
}

#[repr(C)]
#[derive(Clone, Copy)]
pub struct Day {
    pub number: u8,
    pub day: u16,
}

#[repr(C)]
#[derive(Clone, Copy)]
pub struct Date {
    pub number: u8,
    pub year: u16,
    pub month: u8,
    pub day: u8,
}

// A number alone: the length is 0.
fn numbered(number: u8) -> Answer
    ensures { (result.number ≡ number) × (result.length ≡ 0) }
{
    Answer { number, length: 0 }
}

// Of a call on one block, whatever the cipher, and of the CMAC.
impl From<Result<(), BlockError>> for Answer {
    ghost from_gives = { λ a r. (x : List ℕ) → crossed r x ≡ block_outcome a x };

    #[tactic(auto, unfolding(octets::specs::BlockCalls::block_outcome))]
    fn from(a: Result<(), BlockError>) -> Answer {
        match a {
            Ok(()) => numbered(0),
            Err(BlockError::WrongKey) => numbered(1),
            Err(BlockError::WrongSpan) => numbered(3),
        }
    }
}

impl From<Result<(), BenchError>> for Answer {
    ghost from_gives = { λ a r. (x : List ℕ) → crossed r x ≡ bench_outcome a x };

    #[tactic(auto, unfolding(chip_bench::specs::Calls::bench_outcome))]
    fn from(a: Result<(), BenchError>) -> Answer {
        match a {
            Ok(()) => numbered(0),
            Err(BenchError::WrongKey) => numbered(1),
            Err(BenchError::WrongSpan) => numbered(3),
            Err(BenchError::NoSuchRound) => numbered(13),
        }
    }
}

impl From<Result<(), PanelError>> for Answer {
    ghost from_gives = { λ a r. (x : List ℕ) → crossed r x ≡ panel_outcome a x };

    #[tactic(auto, unfolding(panels::specs::Calls::panel_outcome))]
    fn from(a: Result<(), PanelError>) -> Answer {
        match a {
            Ok(()) => numbered(0),
            Err(PanelError::WrongKey) => numbered(1),
            Err(PanelError::WrongSpan) => numbered(3),
            Err(PanelError::Overlong) => numbered(7),
        }
    }
}

// Of blanking and clear: number and length. What a refused clear points at doesn't cross.
impl From<captions::Answer> for Answer {
    ghost from_gives = { λ a r. (x : List ℕ) → crossed r x ≡ plain (outcome a x) };

    fn from(a: captions::Answer) -> Answer {
        let p = Pointed::from(a);
        Answer {
            number: p.number,
            length: p.length,
        }
    }
}

// Of the running order: its length, or a wrong span where it doesn't fit.
#[tactic(auto, unfolding(running_order::specs::Calls::order_outcome))]
fn order_answer(a: Option<u16>) -> Answer
    ensures { (x : List ℕ) → crossed result x ≡ order_outcome a x }
{
    match a {
        Some(length) => Answer { number: 0, length },
        None => numbered(3),
    }
}

impl From<Option<u16>> for Day {
    ghost from_gives = { λ a r. day_crossed r ≡ day_outcome a };

    #[tactic(auto, unfolding(calendar::specs::Answers::day_outcome))]
    fn from(a: Option<u16>) -> Day {
        match a {
            Some(day) => Day { number: 0, day },
            None => Day { number: 11, day: 0 },
        }
    }
}

impl From<Option<calendar::Date>> for Date {
    ghost from_gives = { λ a r. date_crossed r ≡ date_outcome a };

    #[tactic(auto, unfolding(calendar::specs::Answers::date_outcome))]
    fn from(a: Option<calendar::Date>) -> Date {
        match a {
            Some(date) => Date {
                number: 0,
                year: date.year,
                month: date.month,
                day: date.day,
            },
            None => Date {
                number: 11,
                year: 0,
                month: 0,
                day: 0,
            },
        }
    }
}

#[unsafe(no_mangle)]
pub extern "C" fn captions_encrypt_block(
    key: &[u8],
    block: &[u8],
    path: u16,
    out: &mut [u8],
) -> Answer
    ensures { crossed result out.new ≡ encrypting path key.now block.now out.old }
{
    let a = mcrypton::encrypt_block(key, block, path, out);
    Answer::from(a)
}

#[unsafe(no_mangle)]
pub extern "C" fn captions_decrypt_block(
    key: &[u8],
    block: &[u8],
    path: u16,
    out: &mut [u8],
) -> Answer
    ensures { crossed result out.new ≡ decrypting path key.now block.now out.old }
{
    let a = mcrypton::decrypt_block(key, block, path, out);
    Answer::from(a)
}

#[unsafe(no_mangle)]
pub extern "C" fn captions_present_encrypt_block(key: &[u8], block: &[u8], out: &mut [u8]) -> Answer
    ensures { crossed result out.new ≡ present_encrypting key.now block.now out.old }
{
    let a = present::encrypt_block(key, block, out);
    Answer::from(a)
}

#[unsafe(no_mangle)]
pub extern "C" fn captions_present_decrypt_block(key: &[u8], block: &[u8], out: &mut [u8]) -> Answer
    ensures { crossed result out.new ≡ present_decrypting key.now block.now out.old }
{
    let a = present::decrypt_block(key, block, out);
    Answer::from(a)
}

#[unsafe(no_mangle)]
pub extern "C" fn captions_bench_block(
    key: &[u8],
    round: usize,
    wanted: &[u8],
    out: &mut [u8],
) -> Answer
    ensures { crossed result out.new ≡ benching key.now round wanted.now out.old }
{
    let a = chip_bench::bench_block(key, round, wanted, out);
    Answer::from(a)
}

#[unsafe(no_mangle)]
pub extern "C" fn captions_cmac(key: &[u8], message: &[u8], out: &mut [u8]) -> Answer
    ensures { crossed result out.new ≡ authenticating key.now message.now out.old }
{
    let a = modes::cmac(key, message, out);
    Answer::from(a)
}

#[unsafe(no_mangle)]
pub extern "C" fn captions_panel(key: &[u8], first: u64, panel: &[u8], out: &mut [u8]) -> Answer
    ensures { crossed result out.new ≡ panelling key.now first panel.now out.old }
{
    let a = panels::panel(key, first, panel, out);
    Answer::from(a)
}

#[unsafe(no_mangle)]
pub extern "C" fn captions_blank(
    sheet: &mut [u8],
    slots: usize,
    class: usize,
    serial: u16,
    sealing: &[u8],
    checking: &[u8],
) -> Answer
    ensures { crossed result sheet.new ≡ plain (blanking (pair sealing.now checking.now) sheet.old slots class serial) }
{
    let a = sheet::blank(sheet, slots, class, serial, sealing, checking);
    Answer::from(a)
}

#[unsafe(no_mangle)]
pub extern "C" fn captions_write(
    sealing: &[u8],
    checking: &[u8],
    sheet: &mut [u8],
    slot: usize,
    caption: &[u8],
) -> Pointed
    ensures { pointed_outcome result sheet.new ≡ writing (pair sealing.now checking.now) sheet.old slot caption.now }
{
    let a = sheet::write(sealing, checking, sheet, slot, caption);
    Pointed::from(a)
}

#[unsafe(no_mangle)]
pub extern "C" fn captions_clear(sheet: &mut [u8], slot: usize) -> Answer
    ensures { crossed result sheet.new ≡ plain (clearing sheet.old slot) }
{
    let a = sheet::clear(sheet, slot);
    Answer::from(a)
}

#[unsafe(no_mangle)]
pub extern "C" fn captions_read(
    sealing: &[u8],
    checking: &[u8],
    sheet: &[u8],
    slot: usize,
    window: &mut [u8],
) -> Pointed
    ensures { pointed_outcome result window.new ≡ reading (pair sealing.now checking.now) sheet.now slot window.old }
{
    let a = sheet::read(sealing, checking, sheet, slot, window);
    Pointed::from(a)
}

#[unsafe(no_mangle)]
pub extern "C" fn captions_day_of_date(year: usize, month: usize, day: usize) -> Day
    ensures { day_crossed result ≡ day_of_date year month day }
{
    let a = calendar::day_of_date(year, month, day);
    Day::from(a)
}

#[unsafe(no_mangle)]
pub extern "C" fn captions_date_of_day(day: usize) -> Date
    ensures { date_crossed result ≡ date_of_day day }
{
    let a = calendar::date_of_day(day);
    Date::from(a)
}

#[unsafe(no_mangle)]
pub extern "C" fn captions_dated_read(
    sealing: &[u8],
    checking: &[u8],
    sheet: &[u8],
    terms: &[u8],
    slot: usize,
    day: usize,
    window: &mut [u8],
) -> Pointed
    ensures { pointed_outcome result window.new ≡ (dating (pair sealing.now checking.now) sheet.now terms.now slot day window.old).outcome }
{
    let a = dated::dated_read(sealing, checking, sheet, terms, slot, day, window);
    Pointed::from(a)
}

// The place of the first byte at which no well-formed text can go on, or the length.
#[unsafe(no_mangle)]
pub extern "C" fn captions_broken_at(text: &[u8]) -> usize
    ensures { result ≡ broken_at text.now }
{
    text::broken_at(text)
}

// The bytes of the listing written; 0, and out as it was, where out is too small.
#[unsafe(no_mangle)]
pub extern "C" fn captions_list(sheet: &[u8], out: &mut [u8]) -> usize
    ensures { (result, out.new) ≡ listed sheet.now out.old }
{
    listing::list(sheet, out).unwrap_or(0)
}

// The running order of the day that the text of a date names.
#[unsafe(no_mangle)]
pub extern "C" fn captions_running_order(
    sheet: &[u8],
    terms: &[u8],
    date: &[u8],
    out: &mut [u8],
) -> Answer
    ensures { crossed result out.new ≡ ordering sheet.now terms.now date.now out.old }
{
    let a = running_order::order(sheet, terms, date, out);
    order_answer(a)
}
