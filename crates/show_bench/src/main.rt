// Prints, for each round, a key, an array and the block that the bench finds for it: what the second program prints as `vectors bench`.
// The array is made anew from that block, round by round, by a path number that is another for each round.
#![tactic(auto)]

ghost use Rattle.std.specs.Prelude.{◌≡◌, ◌<◌};

use rounds::Direction;
use schedule::Register;
use std::io;

fn one_round(d: Direction, by_words: bool, k: [u16; 4], a: [u16; 4]) -> [u16; 4] {
    if by_words {
        rounds::word_round(d, k, a)
    } else {
        rounds::nibble_round(d, k, a)
    }
}

// The array after round r of the block b by the path number p: u is the register of round 0.
fn array_after(p: u16, u: Register, r: usize, b: [u16; 4]) -> [u16; 4]
    requires { (u.round ≡ 0) × (r < 13) }
{
    let mut v = u;
    let mut a = rounds::sigma(v.round_key(), b);
    for i in 0..r {
        let next = v.forward();
        let by_words = (p >> i) % 2 == 1;
        let array = one_round(Direction::Encrypt, by_words, next.round_key(), a);
        v = next;
        a = array;
    }
    a
}

// The same as bytes, under a key and by a path number that r chooses.
fn array_of(key: &[u8], r: usize, block: [u8; 8]) -> [u8; 8]
    requires { r < 13 }
{
    let path = (40503 * (r + 1) % 65536) as u16;
    let words = mcrypton::block_words(block);
    mcrypton::block_bytes(array_after(path, mcrypton::start(key), r, words))
}

// The line of a key and the array that r chooses.
fn line<R: Print>(rt: &R, key: &[u8], r: usize) -> io::Result<()>
    requires { r < 13 }
{
    let mut wanted = [0u8; 8];
    show::pattern(&mut wanted, 53, 31 * r + 7);
    let mut block = [0u8; 8];
    let _ = chip_bench::bench_block(key, r, &wanted, &mut block);
    let array = array_of(key, r, block);
    show::number(rt, key.len() / 2)?;
    show::text(rt, b" ")?;
    show::number(rt, r)?;
    show::text(rt, b" ")?;
    show::hex(rt, key)?;
    show::text(rt, b" ")?;
    show::hex(rt, &array)?;
    show::text(rt, b" ")?;
    show::hex(rt, &block)?;
    show::text(rt, b"\n")
}

// The lines of the first 13 keys of as many bytes as key has.
fn lines<R: Print>(rt: &R, key: &mut [u8]) -> io::Result<()> {
    for r in 0..13 {
        show::pattern(key, 29, 71 * r + 13);
        line(rt, key, r)?;
    }
    Ok(())
}

fn main(rt: HostRuntime) -> io::Result<()> {
    let mut short = [0u8; 8];
    lines(&rt, &mut short)?;
    let mut middle = [0u8; 12];
    lines(&rt, &mut middle)?;
    let mut long = [0u8; 16];
    lines(&rt, &mut long)
}
