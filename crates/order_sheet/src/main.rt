// Takes the names of a caption sheet and its term sheet and a date, and writes the running order of that day.
#![tactic(auto)]

ghost use Rattle.std.specs.Prelude.{◌≤◌, length, IfSome};

use std::fs::File;
use std::io::Read;
use std::rt::{Env, Files};

// Reads the file that argument i names into buf and answers how many bytes it has: none where there is no such argument or no such
// file, where its name is longer than any path or isn't UTF-8, as every path of std is, where it has more bytes than buf, or where a
// read fails. The last two show in the read after.
fn load<R: Env + Files>(rt: &R, i: usize, buf: &mut [u8]) -> Option<usize>
    ensures { IfSome result (λ n. n ≤ length buf.new) }
{
    let mut name = [0u8; 4096];
    let k = rt.arg(i, &mut name).ok()?;
    let path = str::from_utf8(&name[..k]).ok()?;
    let mut file = File::open(rt, path).ok()?;
    let n = show::fill(&mut file, buf);
    let mut more = [0u8; 1];
    match file.read(&mut more) {
        Ok(0) => Some(n),
        _ => None,
    }
}

// The largest sheet of each kind has 53264 and 1026 bytes, and no text is longer than 7570. A file that can't be read is no bytes,
// which no sheet is. A date that is missing, or longer than its place, is no bytes, and so no date's text.
fn main(rt: HostRuntime) {
    let mut sheet = [0u8; 53264];
    let n = load(&rt, 1, &mut sheet).unwrap_or(0);
    let mut terms = [0u8; 1026];
    let m = load(&rt, 2, &mut terms).unwrap_or(0);
    let mut date = [0u8; 10];
    let d = rt.arg(3, &mut date).unwrap_or(0);
    let mut text = [0u8; 7570];
    let Some(k) = running_order::order(&sheet[..n], &terms[..m], &date[..d], &mut text) else {
        return;
    };
    // The status is 0 whatever comes of it.
    match rt.write_all(&text[..usize::from(k)]) {
        Ok(()) | Err(_) => {}
    }
}
