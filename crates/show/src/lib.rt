// What the programs share: inputs by a rule, bytes as hex digits, and reading an input to its end.
#![tactic(auto)]

ghost use Rattle.std.specs.Prelude.{◌≡◌, ◌%◌, ◌<◌, ◌≤◌, length, take};
ghost use Rattle.std.specs.Io.KnownBytes.{Consumes};
ghost use Rattle.show.specs.Pattern.{patterned};

use std::io;
use std::io::Read;

// Byte i of out becomes first + step * i, modulo 256.
pub fn pattern(out: &mut [u8], step: u8, first: usize)
    ensures { out.new ≡ patterned step (first % 256) (length out.old) }
{
    let mut x = (first % 256) as u8;
    for b in out.iter_mut() {
        *b = x;
        x = x.wrapping_add(step);
    }
}

pub fn hex<R: Print>(rt: &R, s: &[u8]) -> io::Result<()> {
    for b in s {
        print!(rt; "{b:02x}")?;
    }
    Ok(())
}

pub fn number<R: Print>(rt: &R, n: usize) -> io::Result<()> {
    print!(rt; "{n}")
}

pub fn text<R: Print>(rt: &R, s: &[u8]) -> io::Result<()> {
    rt.write_all(s)
}

// Reads until buf is full, the input ends or a read fails, and answers how many bytes that put at the start of buf: those that the
// input had next, and no others are taken from it.
pub fn fill<F: Read>(input: &mut F, buf: &mut [u8]) -> usize
    ensures in_bounds { (result ≤ length buf.new) × (result ≡ length (take result buf.new)) }
    ensures bytes { Consumes (F.remaining input.old) (F.remaining input.new) (take result buf.new) }
{
    let mut done = 0;
    while done < buf.len() {
        match input.read(&mut buf[done..]) {
            Ok(0) | Err(_) => break,
            Ok(n) => done += n,
        }
    }
    done
}
