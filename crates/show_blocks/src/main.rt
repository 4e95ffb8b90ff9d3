// Prints keys, blocks, and the blocks encrypted and decrypted by mixed paths: what the second program prints as `vectors blocks`.
#![tactic(auto)]

ghost use Rattle.std.specs.Prelude.{◌<◌};

use std::io;

// The line of a key and the block that s chooses.
fn line<R: Print>(rt: &R, key: &[u8], s: usize) -> io::Result<()>
    requires { s < 16 }
{
    let mut block = [0u8; 8];
    show::pattern(&mut block, 53, 31 * s + 7);
    let mut sealed = [0u8; 8];
    let mut opened = [0u8; 8];
    let _ = mcrypton::encrypt_block(key, &block, 0x5a5a, &mut sealed);
    let _ = mcrypton::decrypt_block(key, &block, 0x33cc, &mut opened);
    show::hex(rt, key)?;
    show::text(rt, b" ")?;
    show::hex(rt, &block)?;
    show::text(rt, b" ")?;
    show::hex(rt, &sealed)?;
    show::text(rt, b" ")?;
    show::hex(rt, &opened)?;
    show::text(rt, b"\n")
}

// The lines of the first 16 keys of as many bytes as key has.
fn lines<R: Print>(rt: &R, key: &mut [u8]) -> io::Result<()> {
    for s in 0..16 {
        show::pattern(key, 29, 71 * s + 13);
        line(rt, key, s)?;
    }
    Ok(())
}

fn main(rt: HostRuntime) -> io::Result<()> {
    let mut short = [0u8; 8];
    lines(&rt, &mut short)?;
    let mut middle = [0u8; 12];
    lines(&rt, &mut middle)?;
    let mut long = [0u8; 16];
    lines(&rt, &mut long)
}
