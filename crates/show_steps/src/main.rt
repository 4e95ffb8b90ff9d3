// Prints L, K1, K2, C_0 to C_n and T of CMAC for messages of several lengths: what the second program prints as `vectors steps`.
#![tactic(auto)]

ghost use Rattle.std.specs.Prelude.{◌≡◌, ◌++◌, ◌≤◌, length};
ghost use Rattle.octets.specs.Bytes.{zeros};
ghost use Rattle.cipher.specs.Key.{encrypted};
ghost use Rattle.modes.specs.Cmac.{chain_value};
ghost use Rattle.modes.specs.Steps.{TwoParts, BlocksIn};

use modes::SubkeySet;
use std::io;

fn start<R: Print>(rt: &R, key: &[u8], len: usize) -> io::Result<()> {
    show::number(rt, key.len() / 2)?;
    show::text(rt, b" ")?;
    show::number(rt, len)?;
    show::text(rt, b" ")
}

fn end<R: Print>(rt: &R, value: [u8; 8]) -> io::Result<()> {
    show::text(rt, b" ")?;
    show::hex(rt, &value)?;
    show::text(rt, b"\n")
}

fn named<R: Print>(rt: &R, key: &[u8], len: usize, name: &[u8], value: [u8; 8]) -> io::Result<()> {
    start(rt, key, len)?;
    show::text(rt, name)?;
    end(rt, value)
}

fn chained<R: Print>(rt: &R, key: &[u8], len: usize, i: usize, value: [u8; 8]) -> io::Result<()> {
    start(rt, key, len)?;
    show::text(rt, b"C")?;
    show::number(rt, i)?;
    end(rt, value)
}

// Step 6 on one part of the message, each value printed: C_to, made of C_from, which is begin. A value that can't be printed is passed over.
fn part<R: Print>(
    rt: &R,
    key: &[u8],
    len: usize,
    k: cipher::Key,
    head: &[u8],
    rest: &[u8],
    s: &[u8],
    from: usize,
    to: usize,
    begin: [u8; 8],
) -> [u8; 8]
    requires blocks_in { BlocksIn (head.now ++ rest.now) s.now from to }
    requires begin_value { begin ≡ chain_value (encrypted k) (zeros 8) (head.now ++ rest.now) from }
    ensures { result ≡ chain_value (encrypted k) (zeros 8) (head.now ++ rest.now) to }
{
    let mut c = begin;
    for j in from..to {
        let next = modes::chain_next(k, head, rest, j + 1, c, octets::block_at(s, 8 * (j - from)));
        c = next;
        let _ = chained(rt, key, len, j + 1, c);
    }
    c
}

// The steps of SP 800-38B to C_n, for the message head ‖ rest of len bytes: the library's functions in the order of its own CMAC.
fn steps<R: Print>(rt: &R, key: &[u8], len: usize, head: &[u8], rest: &[u8]) -> io::Result<()>
    requires { TwoParts head.now rest.now }
{
    let k = cipher::load(key.len() / 2, key);
    let SubkeySet { l, k1, k2 } = modes::generate_subkeys(k);
    named(rt, key, len, b"L", l)?;
    named(rt, key, len, b"K1", k1)?;
    named(rt, key, len, b"K2", k2)?;
    let n = modes::block_count(head, rest);
    let h = head.len() / 8;
    let a = 8 * (n - 1 - h);
    let last = modes::last_block(k1, k2, &rest[a..]);
    let c0 = modes::chain_start();
    chained(rt, key, len, 0, c0)?;
    let c_h = part(rt, key, len, k, head, rest, head, 0, h, c0);
    let c_before = part(rt, key, len, k, head, rest, rest, h, n - 1, c_h);
    chained(
        rt,
        key,
        len,
        n,
        modes::chain_next(k, head, rest, n, c_before, last),
    )
}

// A message whole, and T by the public CMAC.
fn whole<R: Print>(rt: &R, key: &mut [u8], message: &mut [u8]) -> io::Result<()>
    requires { length message.old ≤ 300 }
{
    let len = message.len();
    show::pattern(key, 29, 71 * len + 13);
    show::pattern(message, 53, 31 * len + 7);
    steps(rt, key, len, b"", message)?;
    let mut tag = [0u8; 8];
    let _ = modes::cmac(key, message, &mut tag);
    named(rt, key, len, b"T", tag)
}

// 200 bytes as the check of a sheet has them, a block and then a part of 192 bytes, and T by the check's CMAC.
fn in_two_parts<R: Print>(rt: &R, key: &mut [u8]) -> io::Result<()> {
    let mut message = [0u8; 200];
    show::pattern(key, 29, 71 * 200 + 13);
    show::pattern(&mut message, 53, 31 * 200 + 7);
    let first = octets::block_at(&message, 0);
    steps(rt, key, 200, &first, &message[8..])?;
    let tag = modes::mac_two(cipher::load(key.len() / 2, key), first, &message[8..]);
    named(rt, key, 200, b"T", tag)
}

fn whole_of<R: Print>(rt: &R, key: &mut [u8], len: usize) -> io::Result<()>
    requires { len ≤ 300 }
{
    let mut message = [0u8; 300];
    whole(rt, key, &mut message[..len])
}

fn lines<R: Print>(rt: &R, key: &mut [u8]) -> io::Result<()> {
    for len in [0, 1, 7, 8, 9, 16] {
        whole_of(rt, key, len)?;
    }
    in_two_parts(rt, key)?;
    whole_of(rt, key, 300)
}

fn main(rt: HostRuntime) -> io::Result<()> {
    let mut short = [0u8; 8];
    lines(&rt, &mut short)?;
    let mut middle = [0u8; 12];
    lines(&rt, &mut middle)?;
    let mut long = [0u8; 16];
    lines(&rt, &mut long)
}
