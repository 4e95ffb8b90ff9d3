// The running order of a day: the captions on show, as lines of text.
#![tactic(auto)]

ghost use Rattle.std.specs.Prelude.{◌≡◌, [], map, ◌++◌, ◌+◌, ◌%◌, ◌≤◌, ◌<◌, length, take};
ghost use Rattle.layout.specs.Shape.{SheetOf, SlotIn};
ghost use Rattle.terms.specs.Terms.{opening};
ghost use Rattle.terms.specs.Inner.{TermsOf};
ghost use Rattle.dates.specs.DateText.{day_text};
ghost use Rattle.listing.specs.Listing.{decimal, space, ended};
ghost use Rattle.running_order.specs.Order.{shown, show_line, show_lines, order_number, shown_numbers, in_order, running_order};
ghost use Rattle.running_order.specs.Calls.{order_outcome, ordering};
ghost use Rattle.running_order.specs.Inner.{Holds, with_slot, Carry, OpenDays};

use layout::Shape;
use listing::Text;

const SPACE: u8 = b' ';

const LINE_FEED: u8 = b'\n';

// The bytes of the longest text: 256 lines of at most 34, since a number read from two bytes has up to five digits.
const LONGEST: usize = 8704;

// A date and a space.
#[inline]
fn put_date(text: &mut Text<LONGEST>, day: usize)
    requires { length text.old + 11 ≤ 8704 }
    ensures text { text.new ≡ text.old ++ ended (day_text day) space }
    ensures short { length text.new ≡ length text.old + 11 }
{
    text.bytes(&dates::day_text(day));
    text.byte(SPACE);
}

// The digits of a number below 1000, as every slot and every length of a fit sheet is: put without a loop.
fn put_three(text: &mut Text<LONGEST>, x: usize)
    requires room { length text.old + 3 ≤ 8704 }
    requires x_bound { x < 1000 }
    ensures { text.new ≡ text.old ++ decimal x }
{
    if x < 10 {
        text.byte(b'0' + x as u8);
    } else if x < 100 {
        text.byte(b'0' + (x / 10) as u8);
        text.byte(b'0' + (x % 10) as u8);
    } else {
        text.byte(b'0' + (x / 10 / 10) as u8);
        text.byte(b'0' + (x / 10 % 10) as u8);
        text.byte(b'0' + (x % 10) as u8);
    }
}

// A number of at most five digits and the byte after it.
#[inline]
fn put_short(text: &mut Text<LONGEST>, x: usize, end: u8)
    requires room { length text.old + 6 ≤ 8704 }
    requires x_bound { x < 100000 }
    ensures text { text.new ≡ text.old ++ ended (decimal x) end }
    ensures short { length text.new ≤ length text.old + 6 }
{
    if x < 1000 {
        put_three(text, x);
    } else {
        text.decimal(x);
    }
    text.byte(end);
}

// The line of slot i.
fn put_line(text: &mut Text<LONGEST>, sheet: &[u8], h: Shape, terms: &[u8], i: usize)
    requires slot_in { SlotIn sheet.now h i }
    requires terms_of { TermsOf terms.now h.slots }
    requires room { length text.old + 34 ≤ 8704 }
    ensures text { text.new ≡ text.old ++ show_line sheet.now terms.now i }
    ensures short { length text.new ≤ length text.old + 34 }
{
    let opening = terms::opening_day(terms, h.slots, i);
    let closing = terms::closing_day(terms, h.slots, i);
    let mark = layout::mark_at(h, i);
    let length = octets::number::<2>(sheet, mark + 4);
    put_short(text, i, SPACE);
    put_date(text, opening);
    put_date(text, closing);
    put_short(text, length, LINE_FEED);
}

// Whether slot i is written and on show.
fn is_shown(sheet: &[u8], h: Shape, terms: &[u8], i: usize, day: usize) -> bool
    requires slot_in { SlotIn sheet.now h i }
    requires terms_of { TermsOf terms.now h.slots }
    ensures { result ≡ shown sheet.now terms.now day i }
{
    !layout::blank_slot(sheet, h, i) && terms::on_show(terms, h.slots, i, day)
}

// The number by which slot i stands in the order; its low eight bits are the slot.
fn order_number(sheet: &[u8], h: Shape, terms: &[u8], i: usize) -> usize
    requires slot_in { SlotIn sheet.now h i }
    requires terms_of { TermsOf terms.now h.slots }
    requires i_bound { opening terms.now i ≤ 36524 }
    ensures { result ≡ order_number sheet.now terms.now i }
{
    terms::opening_day(terms, h.slots, i) * 256 + i
}

// The number of slot i put after the first n, where it is shown; answers how many they are then.
fn gather_slot(
    numbers: &mut [usize],
    n: usize,
    sheet: &[u8],
    h: Shape,
    terms: &[u8],
    day: usize,
    i: usize,
) -> usize
    requires slot_in { SlotIn sheet.now h i }
    requires terms_of { TermsOf terms.now h.slots }
    requires i_bound { opening terms.now i ≤ 36524 }
    requires numbers_len { (length numbers.old ≡ 256) × (n < 256) }
    ensures { Holds numbers.new result (with_slot sheet.now terms.now day i (take n numbers.old)) }
{
    if !is_shown(sheet, h, terms, i, day) {
        return n;
    }
    numbers[n] = order_number(sheet, h, terms, i);
    n + 1
}

// The numbers of all slots that are shown.
fn gather(numbers: &mut [usize], sheet: &[u8], h: Shape, terms: &[u8], day: usize) -> usize
    requires sheet_of { SheetOf sheet.now h }
    requires terms_of { TermsOf terms.now h.slots }
    requires open_days { OpenDays terms.now h.slots }
    requires numbers_len { length numbers.old ≡ 256 }
    ensures { Holds numbers.new result (shown_numbers sheet.now terms.now day h.slots) }
{
    let mut n = 0;
    for i in 0..h.slots {
        n = gather_slot(numbers, n, sheet, h, terms, day, i);
    }
    n
}

// The lines of the slots that up to 256 numbers carry.
fn put_lines(text: &mut Text<LONGEST>, sheet: &[u8], h: Shape, terms: &[u8], numbers: &[usize])
    requires sheet_of { SheetOf sheet.now h }
    requires terms_of { TermsOf terms.now h.slots }
    requires carry { Carry numbers.now h.slots }
    requires few { length numbers.now ≤ 256 }
    requires start { text.old ≡ [] }
    ensures { text.new ≡ show_lines sheet.now terms.now (map (λ k. k % 256) numbers.now) }
{
    for &number in numbers {
        put_line(text, sheet, h, terms, number % 256);
    }
}

// The lines of the slots that are shown on a day.
fn put_shown(text: &mut Text<LONGEST>, sheet: &[u8], h: Shape, terms: &[u8], day: usize)
    requires sheet_of { SheetOf sheet.now h }
    requires terms_of { TermsOf terms.now h.slots }
    requires open_days { OpenDays terms.now h.slots }
    requires start { text.old ≡ [] }
    ensures { text.new ≡ show_lines sheet.now terms.now (in_order sheet.now terms.now day) }
{
    let mut numbers = [0usize; 256];
    let n = gather(&mut numbers, sheet, h, terms, day);
    let mut spare = numbers;
    sorting::sort(&mut numbers[..n], &mut spare[..n]);
    put_lines(text, sheet, h, terms, &numbers[..n]);
}

// The whole running order.
fn put_order(text: &mut Text<LONGEST>, sheet: &[u8], terms: &[u8], date: &[u8])
    requires { text.old ≡ [] }
    ensures { text.new ≡ running_order sheet.now terms.now date.now }
{
    if !layout::fit_sheet(sheet) {
        text.bytes(b"unfit\n");
        return;
    }
    let h = layout::sheet_shape(sheet);
    if !terms::fit_terms(terms, h.slots) {
        text.bytes(b"unfit\n");
        return;
    }
    let Some(day) = dates::day_of_text(date) else {
        text.bytes(b"no such date\n");
        return;
    };
    put_shown(text, sheet, h, terms, usize::from(day));
}

// Puts the running order of a date at the start of out and answers how many bytes that is; where they do not fit, out stays as it was.
pub fn order(sheet: &[u8], terms: &[u8], date: &[u8], out: &mut [u8]) -> Option<u16>
    ensures { order_outcome result out.new ≡ ordering sheet.now terms.now date.now out.old }
{
    let mut text = Text::new();
    put_order(&mut text, sheet, terms, date);
    let text = text.as_slice();
    if out.len() < text.len() {
        return None;
    }
    octets::copy_part(out, 0, text);
    Some(text.len() as u16)
}
