// Prints calls on sheets of 3 slots, what each slot reads as, and the listings: what the second program prints as `vectors sheet`.
#![tactic(auto)]

ghost use Rattle.std.specs.Prelude.{◌≤◌, ◌<◌, length};

use captions::Answer;
use std::io;

// The number and the length of an answer.
fn answer<R: Print>(rt: &R, a: Answer) -> io::Result<()> {
    let p = points::Pointed::from(a);
    show::number(rt, usize::from(p.number))?;
    show::text(rt, b" ")?;
    show::number(rt, usize::from(p.length))?;
    show::text(rt, b" ")
}

// How many bytes of the checking key the CMAC of a line takes: all, but on a PRESENT sheet eight, since the CMAC is mCrypton's.
fn mac_bytes(checking: &[u8], sheet: &[u8]) -> usize
    ensures { result ≤ length checking.now }
{
    let n = checking.len();
    if sheet.len() >= 3 && sheet[2] >= 9 {
        n.min(8)
    } else {
        n
    }
}

// The line of a call: its name, its answer, and the CMAC of the whole sheet under the checking key.
fn line<R: Print>(rt: &R, name: &[u8], a: Answer, checking: &[u8], sheet: &[u8]) -> io::Result<()> {
    show::text(rt, name)?;
    answer(rt, a)?;
    let mut check = [0u8; 8];
    let n = mac_bytes(checking, sheet);
    let _ = modes::cmac(&checking[..n], sheet, &mut check);
    show::hex(rt, &check)?;
    show::text(rt, b"\n")
}

fn write<R: Print>(
    rt: &R,
    sealing: &[u8],
    checking: &[u8],
    sheet: &mut [u8],
    slot: usize,
    caption: &[u8],
) -> io::Result<()> {
    let a = sheet::write(sealing, checking, sheet, slot, caption);
    line(rt, b"write ", a, checking, sheet)
}

// A write with another checking key than that of the lines.
fn write_with<R: Print>(
    rt: &R,
    sealing: &[u8],
    other: &[u8],
    checking: &[u8],
    sheet: &mut [u8],
) -> io::Result<()> {
    let a = sheet::write(sealing, other, sheet, 0, b"abc");
    line(rt, b"write ", a, checking, sheet)
}

// Byte i becomes 32 + (53 * i + first) % 95: of the caption with number s, where first is 31 * s + 7.
fn spell(caption: &mut [u8], first: usize) {
    let mut x = first % 95;
    for b in caption.iter_mut() {
        *b = (32 + x) as u8;
        x = (x + 53) % 95;
    }
}

// Writes as many bytes as caption has, by that rule.
fn write_spelled<R: Print>(
    rt: &R,
    sealing: &[u8],
    checking: &[u8],
    sheet: &mut [u8],
    slot: usize,
    caption: &mut [u8],
    first: usize,
) -> io::Result<()> {
    spell(caption, first);
    write(rt, sealing, checking, sheet, slot, caption)
}

fn write_short<R: Print>(
    rt: &R,
    sealing: &[u8],
    checking: &[u8],
    sheet: &mut [u8],
) -> io::Result<()> {
    let mut caption = [0u8; 17];
    write_spelled(rt, sealing, checking, sheet, 1, &mut caption, 7)
}

fn write_longest<R: Print>(
    rt: &R,
    sealing: &[u8],
    checking: &[u8],
    sheet: &mut [u8],
) -> io::Result<()> {
    let mut caption = [0u8; 192];
    write_spelled(rt, sealing, checking, sheet, 2, &mut caption, 38)
}

fn write_overlong<R: Print>(
    rt: &R,
    sealing: &[u8],
    checking: &[u8],
    sheet: &mut [u8],
) -> io::Result<()> {
    let mut caption = [0u8; 193];
    write_spelled(rt, sealing, checking, sheet, 2, &mut caption, 38)
}

// The serial is 23040 + t.
fn blank<R: Print>(
    rt: &R,
    t: usize,
    sealing: &[u8],
    checking: &[u8],
    sheet: &mut [u8],
) -> io::Result<()>
    requires { t ≤ 24 }
{
    let a = sheet::blank(sheet, 3, t, (23040 + t) as u16, sealing, checking);
    line(rt, b"blank ", a, checking, sheet)
}

fn clear<R: Print>(rt: &R, checking: &[u8], sheet: &mut [u8], slot: usize) -> io::Result<()> {
    let a = sheet::clear(sheet, slot);
    line(rt, b"clear ", a, checking, sheet)
}

fn accepted_writes<R: Print>(
    rt: &R,
    sealing: &[u8],
    checking: &[u8],
    sheet: &mut [u8],
) -> io::Result<()> {
    write(rt, sealing, checking, sheet, 0, b"")?;
    write_short(rt, sealing, checking, sheet)?;
    write_longest(rt, sealing, checking, sheet)?;
    write(rt, sealing, checking, sheet, 1, b"abc")
}

fn refused_writes<R: Print>(
    rt: &R,
    sealing: &[u8],
    checking: &[u8],
    sheet: &mut [u8],
) -> io::Result<()> {
    write(rt, sealing, checking, sheet, 3, b"abc")?;
    write_overlong(rt, sealing, checking, sheet)
}

// Twin keys, and keys that differ in one bit.
fn alike_writes<R: Print>(
    rt: &R,
    sealing: &[u8],
    near: &[u8],
    checking: &[u8],
    sheet: &mut [u8],
) -> io::Result<()> {
    write_with(rt, sealing, sealing, checking, sheet)?;
    write_with(rt, sealing, near, checking, sheet)
}

fn calls<R: Print>(
    rt: &R,
    sealing: &[u8],
    near: &[u8],
    checking: &[u8],
    sheet: &mut [u8],
) -> io::Result<()> {
    accepted_writes(rt, sealing, checking, sheet)?;
    clear(rt, checking, sheet, 0)?;
    read(rt, sealing, checking, sheet, 0)?;
    refused_writes(rt, sealing, checking, sheet)?;
    alike_writes(rt, sealing, near, checking, sheet)
}

fn read<R: Print>(
    rt: &R,
    sealing: &[u8],
    checking: &[u8],
    sheet: &[u8],
    slot: usize,
) -> io::Result<()> {
    show::text(rt, b"read ")?;
    show::number(rt, slot)?;
    show::text(rt, b" ")?;
    let mut window = [0u8; 192];
    let a = sheet::read(sealing, checking, sheet, slot, &mut window);
    answer(rt, a)?;
    show::hex(rt, &window)?;
    show::text(rt, b"\n")
}

fn reads<R: Print>(rt: &R, sealing: &[u8], checking: &[u8], sheet: &[u8]) -> io::Result<()> {
    read(rt, sealing, checking, sheet, 0)?;
    read(rt, sealing, checking, sheet, 1)?;
    read(rt, sealing, checking, sheet, 2)?;
    read(rt, sealing, checking, sheet, 3)?;
    read(rt, sealing, sealing, sheet, 1)
}

fn list<R: Print>(rt: &R, sheet: &[u8]) -> io::Result<()> {
    let mut text = [0u8; 128];
    let n = listing::list(sheet, &mut text).unwrap_or(0);
    show::text(rt, &text[..n])
}

// The calls, reads and listing of a blank sheet.
fn lines<R: Print>(
    rt: &R,
    sealing: &[u8],
    near: &[u8],
    checking: &[u8],
    sheet: &mut [u8],
) -> io::Result<()> {
    calls(rt, sealing, near, checking, sheet)?;
    reads(rt, sealing, checking, sheet)?;
    list(rt, sheet)
}

// A sheet of edition 3, made by blanking.
fn new_sheet<R: Print>(
    rt: &R,
    t: usize,
    sealing: &[u8],
    near: &[u8],
    checking: &[u8],
) -> io::Result<()>
    requires { t ≤ 24 }
{
    let mut sheet = [0u8; 640];
    blank(rt, t, sealing, checking, &mut sheet)?;
    lines(rt, sealing, near, checking, &mut sheet)
}

// A sheet of edition 2, which is laid out here, with the serial 23040 + t.
fn serial_sheet<R: Print>(rt: &R, sealing: &[u8], near: &[u8], checking: &[u8]) -> io::Result<()>
    requires { length checking.now ≤ 16 }
{
    let mut sheet = [0u8; 640];
    sheet[1] = 3;
    sheet[2] = (checking.len() / 2) as u8;
    sheet[3] = 2;
    sheet[8] = 90;
    sheet[9] = (checking.len() / 2) as u8;
    line(rt, b"old ", Ok(0), checking, &sheet)?;
    lines(rt, sealing, near, checking, &mut sheet)
}

// A sheet of edition 1, which is laid out here.
fn old_sheet<R: Print>(rt: &R, sealing: &[u8], near: &[u8], checking: &[u8]) -> io::Result<()>
    requires { length checking.now ≤ 16 }
{
    let mut sheet = [0u8; 632];
    sheet[1] = 3;
    sheet[2] = (checking.len() / 2) as u8;
    sheet[3] = 1;
    line(rt, b"old ", Ok(0), checking, &sheet)?;
    lines(rt, sealing, near, checking, &mut sheet)
}

// The lines of a new sheet with keys of class t; near becomes the sealing key but for one bit.
fn new_lines<R: Print>(
    rt: &R,
    t: usize,
    sealing: &mut [u8],
    near: &mut [u8],
    checking: &mut [u8],
) -> io::Result<()>
    requires { (t ≤ 24) × (0 < length near.old) }
{
    show::pattern(sealing, 29, 71 * t + 13);
    show::pattern(near, 29, 71 * t + 13);
    near[0] = near[0] ^ 1;
    show::pattern(checking, 29, 71 * (t + 1) + 13);
    new_sheet(rt, t, sealing, near, checking)
}

// The lines of a sheet of each edition under keys of as many bytes as these have.
fn lines_of<R: Print>(
    rt: &R,
    sealing: &mut [u8],
    near: &mut [u8],
    checking: &mut [u8],
) -> io::Result<()>
    requires { (length sealing.old ≤ 16) × (0 < length near.old) × (length checking.old ≤ 16) }
{
    new_lines(rt, sealing.len() / 2, sealing, near, checking)?;
    serial_sheet(rt, sealing, near, checking)?;
    old_sheet(rt, sealing, near, checking)
}

fn main(rt: HostRuntime) -> io::Result<()> {
    let mut short = [0u8; 8];
    let mut near_short = [0u8; 8];
    let mut other_short = [0u8; 8];
    lines_of(&rt, &mut short, &mut near_short, &mut other_short)?;
    let mut middle = [0u8; 12];
    let mut near_middle = [0u8; 12];
    let mut other_middle = [0u8; 12];
    lines_of(&rt, &mut middle, &mut near_middle, &mut other_middle)?;
    let mut long = [0u8; 16];
    let mut near_long = [0u8; 16];
    let mut other_long = [0u8; 16];
    lines_of(&rt, &mut long, &mut near_long, &mut other_long)?;
    let mut ten = [0u8; 10];
    let mut near_ten = [0u8; 10];
    let mut other_ten = [0u8; 10];
    new_lines(&rt, 21, &mut ten, &mut near_ten, &mut other_ten)?;
    new_lines(&rt, 24, &mut long, &mut near_long, &mut other_long)
}
