// Prints checks of messages of several lengths: what the second program prints as `vectors cmac`.
#![tactic(auto)]

ghost use Rattle.std.specs.Prelude.{◌≤◌, length};

use std::io;

// The line of the key and the message of as many bytes as key and message have; the message's length chooses the bytes.
fn line<R: Print>(rt: &R, key: &mut [u8], message: &mut [u8]) -> io::Result<()>
    requires { length message.old ≤ 200 }
{
    let n = message.len();
    show::pattern(key, 29, 71 * n + 13);
    show::pattern(message, 53, 31 * n + 7);
    let mut check = [0u8; 8];
    let _ = modes::cmac(key, message, &mut check);
    show::number(rt, key.len() / 2)?;
    show::text(rt, b" ")?;
    show::number(rt, n)?;
    show::text(rt, b" ")?;
    show::hex(rt, &check)?;
    show::text(rt, b"\n")
}

fn line_of<R: Print>(rt: &R, key: &mut [u8], n: usize) -> io::Result<()>
    requires { n ≤ 200 }
{
    let mut message = [0u8; 200];
    line(rt, key, &mut message[..n])
}

fn lines<R: Print>(rt: &R, key: &mut [u8]) -> io::Result<()> {
    for n in [0, 1, 7, 8, 9, 15, 16, 17, 24, 200] {
        line_of(rt, key, n)?;
    }
    Ok(())
}

fn main(rt: HostRuntime) -> io::Result<()> {
    let mut short = [0u8; 8];
    lines(&rt, &mut short)?;
    let mut middle = [0u8; 12];
    lines(&rt, &mut middle)?;
    let mut long = [0u8; 16];
    lines(&rt, &mut long)
}
