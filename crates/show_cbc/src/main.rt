// Prints texts of n blocks encrypted and decrypted by CBC: what the second program prints as `vectors cbc`.
#![tactic(auto)]

ghost use Rattle.std.specs.Prelude.{◌≡◌, ◌*◌, ◌≤◌, length};

use std::io;

// A text, or a dash where it is empty.
fn text_or_dash<R: Print>(rt: &R, s: &[u8]) -> io::Result<()> {
    if s.len() == 0 {
        show::text(rt, b"-")
    } else {
        show::hex(rt, s)
    }
}

// Both texts that come of plain, n blocks, by way of out.
fn texts<R: Print>(rt: &R, key: &[u8], plain: &[u8], n: usize, out: &mut [u8]) -> io::Result<()>
    requires plain_len { length plain.now ≡ 8 * n }
    requires out_len { length out.old ≡ 8 * n }
{
    let mut start = [0u8; 8];
    show::pattern(&mut start, 17, n);
    let k = cipher::load(key.len() / 2, key);
    modes::cbc_encrypt(k, start, plain, out);
    text_or_dash(rt, out)?;
    show::text(rt, b" ")?;
    modes::cbc_decrypt(k, start, plain, out);
    text_or_dash(rt, out)
}

// The line of the key of as many bytes as key has and the text of n blocks; n chooses the bytes.
fn line<R: Print>(
    rt: &R,
    key: &mut [u8],
    plain: &mut [u8],
    n: usize,
    out: &mut [u8],
) -> io::Result<()>
    requires n_bound { n ≤ 24 }
    requires plain_len { length plain.old ≡ 8 * n }
    requires out_len { length out.old ≡ 8 * n }
{
    show::pattern(key, 29, 71 * n + 13);
    show::pattern(plain, 53, 31 * n + 7);
    show::number(rt, key.len() / 2)?;
    show::text(rt, b" ")?;
    show::number(rt, n)?;
    show::text(rt, b" ")?;
    texts(rt, key, plain, n, out)?;
    show::text(rt, b"\n")
}

fn line_of<R: Print>(rt: &R, key: &mut [u8], n: usize) -> io::Result<()>
    requires { n ≤ 24 }
{
    let mut plain = [0u8; 192];
    let mut out = [0u8; 192];
    line(rt, key, &mut plain[..8 * n], n, &mut out[..8 * n])
}

fn lines<R: Print>(rt: &R, key: &mut [u8]) -> io::Result<()> {
    for n in [0, 1, 2, 3, 24] {
        line_of(rt, key, n)?;
    }
    Ok(())
}

fn main(rt: HostRuntime) -> io::Result<()> {
    let mut short = [0u8; 8];
    lines(&rt, &mut short)?;
    let mut middle = [0u8; 12];
    lines(&rt, &mut middle)?;
    let mut long = [0u8; 16];
    lines(&rt, &mut long)
}
