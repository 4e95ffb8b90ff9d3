// The listing of a sheet as lines of text.
#![tactic(auto)]

ghost use Rattle.std.specs.Prelude.{◌≡◌, ℕ, List, [], ◌++◌, ◌+◌, ◌*◌, ◌≤◌, ◌<◌, length, take, unwrap_or, SomeIff};
ghost use Rattle.cipher.specs.Key.{key_bytes};
ghost use Rattle.layout.specs.Shape.{SheetOf, SlotIn};
ghost use Rattle.listing.specs.Listing.{decimal, space, ended, head_line, slot_line, slot_lines, listable, listing, listed};
ghost use Rattle.listing.specs.Appended.{Appended};

use layout::Shape;
use std::marker::Model;

const SPACE: u8 = b' ';

const LINE_FEED: u8 = b'\n';

// The bytes of the longest listing, that of 256 slots with numbers of ten digits.
const LONGEST: usize = 10553;

// The bytes of the largest sheet that is listed, 256 slots of edition 2 or 3.
const LARGEST: usize = 53264;

// The decimal digits of x from place `at`, the highest first; answers the place after them.
pub fn put_decimal(text: &mut [u8], at: usize, x: usize) -> usize
    requires { at + length (decimal x) ≤ length text.old }
    ensures { Appended (length (decimal x)) text.old at (decimal x) result text.new }
{
    if x < 10 {
        text[at] = b'0' + x as u8;
        return at + 1;
    }
    let last = put_decimal(text, at, x / 10);
    text[last] = b'0' + (x % 10) as u8;
    last + 1
}

// A text of at most N bytes, written from its start on. Clauses see the bytes written so far. The length stands first: a write into
// bytes that stood before it could be one to it, for all that LLVM sees.
#[derive(Drop)]
pub struct Text<const N: usize> {
    len: usize,
    bytes: [u8; N],
}

impl<const N: usize> Model for Text<N> {
    ghost Value = { List ℕ };

    ghost view = { λ t. take t.len t.bytes };

    ghost invariant = { λ t. t.len ≤ N };
}

impl<const N: usize> Text<N> {
    pub fn new() -> Self
        ensures { result ≡ [] }
    {
        Text {
            len: 0,
            bytes: [0; N],
        }
    }

    pub fn as_slice(&self) -> &[u8]
        ensures value { result.now ≡ self.now }
        ensures fits { length result.now ≤ N }
    {
        &self.bytes[..self.len]
    }

    pub fn byte(&mut self, b: u8)
        requires { length self.old < N }
        ensures { self.new ≡ ended self.old b }
    {
        self.bytes[self.len] = b;
        self.len += 1;
    }

    pub fn bytes(&mut self, b: &[u8])
        requires { length self.old + length b.now ≤ N }
        ensures { self.new ≡ self.old ++ b.now }
    {
        octets::copy_part(&mut self.bytes, self.len, b);
        self.len += b.len();
    }

    // The decimal digits of x, the highest first.
    pub fn decimal(&mut self, x: usize)
        requires { length self.old + length (decimal x) ≤ N }
        ensures { self.new ≡ self.old ++ decimal x }
    {
        self.len = put_decimal(&mut self.bytes, self.len, x);
    }

    // A word and the byte after it.
    fn word(&mut self, word: &[u8], end: u8)
        requires { length self.old + length word.now < N }
        ensures { self.new ≡ self.old ++ ended word.now end }
    {
        self.bytes(word);
        self.byte(end);
    }

    // A number and the byte after it. No number of a sheet has more than ten digits.
    fn number(&mut self, x: usize, end: u8)
        requires room { length self.old + 11 ≤ N }
        requires x_bound { x < 10000000000 }
        ensures text { self.new ≡ self.old ++ ended (decimal x) end }
        ensures short { length self.new ≤ length self.old + 11 }
    {
        self.decimal(x);
        self.byte(end);
    }

    // A word and a number, and the byte after them.
    fn field(&mut self, word: &[u8], x: usize, end: u8)
        requires room { length self.old + 19 ≤ N }
        requires word_len_bound { length word.now ≤ 7 }
        requires x_bound { x < 10000000000 }
        ensures text { self.new ≡ self.old ++ (ended word.now space ++ ended (decimal x) end) }
        ensures short { length self.new ≤ length self.old + 19 }
    {
        self.word(word, SPACE);
        self.number(x, end);
    }
}

// The first line: n slots, the bits of a key and the last write number.
fn put_head(text: &mut Text<LONGEST>, n: usize, bits: usize, last: usize)
    requires start { text.old ≡ [] }
    requires n_bound { (n < 10000000000) × (bits < 10000000000) × (last < 10000000000) }
    ensures text { text.new ≡ head_line n bits last }
    ensures short { length text.new ≤ 57 }
{
    text.field(b"slots", n, SPACE);
    text.field(b"key", bits, SPACE);
    text.field(b"last", last, LINE_FEED);
}

// The line of slot i.
fn put_slot(text: &mut Text<LONGEST>, sheet: &[u8], h: Shape, i: usize)
    requires slot_in { SlotIn sheet.now h i }
    requires room { length text.old + 41 ≤ 10553 }
    ensures text { text.new ≡ text.old ++ slot_line sheet.now i }
    ensures short { length text.new ≤ length text.old + 41 }
{
    text.number(i, SPACE);
    if layout::blank_slot(sheet, h, i) {
        text.word(b"blank", LINE_FEED);
    } else {
        let mark = layout::mark_at(h, i);
        let number = octets::number::<4>(sheet, mark);
        let len = octets::number::<2>(sheet, mark + 4);
        text.field(b"written", number, SPACE);
        text.number(len, LINE_FEED);
    }
}

// The lines of all slots.
fn put_slots(text: &mut Text<LONGEST>, sheet: &[u8], h: Shape)
    requires sheet_of { SheetOf sheet.now h }
    requires room { length text.old + 41 * 256 ≤ 10553 }
    ensures { text.new ≡ text.old ++ slot_lines sheet.now h.slots }
{
    for i in 0..h.slots {
        put_slot(text, sheet, h, i);
    }
}

// Whether a sheet is fit, and not above the largest.
fn can_list(sheet: &[u8]) -> bool
    ensures { result ≡ listable sheet.now }
{
    sheet.len() <= LARGEST && layout::fit_sheet(sheet)
}

// The bits of a key of a class.
#[tactic(auto, using(crate::proofs::Lengths::key_bytes_small))]
fn key_bits(class: usize) -> usize
    requires { class < 256 }
    ensures { (result ≡ 8 * key_bytes class) × (result < 10000000000) }
{
    8 * cipher::key_bytes(class)
}

// The whole listing.
fn put_listing(text: &mut Text<LONGEST>, sheet: &[u8])
    requires { text.old ≡ [] }
    ensures { text.new ≡ listing sheet.now }
{
    if !can_list(sheet) {
        text.word(b"unfit", LINE_FEED);
        return;
    }
    let h = layout::sheet_shape(sheet);
    put_head(text, h.slots, key_bits(h.class), layout::last_write(sheet));
    put_slots(text, sheet, h);
}

// Lists a sheet at the start of out and answers how many bytes that is; where they do not fit, out stays as it was.
pub fn list(sheet: &[u8], out: &mut [u8]) -> Option<usize>
    ensures outcome { (unwrap_or result 0, out.new) ≡ listed sheet.now out.old }
    ensures fits { SomeIff result (length (listing sheet.now) ≤ length out.old) (length (listing sheet.now)) }
{
    let mut text = Text::new();
    put_listing(&mut text, sheet);
    let text = text.as_slice();
    if out.len() < text.len() {
        return None;
    }
    octets::copy_part(out, 0, text);
    Some(text.len())
}
