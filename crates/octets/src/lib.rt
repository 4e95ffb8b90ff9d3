// Bytes of slices: filled, copied, compared, and read and written as numbers with the high byte first; and why a call on one block is refused.
#![tactic(auto)]

ghost use Rattle.std.specs.Prelude.{◌≡◌, ◌++◌, ◌+◌, ◌^◌, ◌≤◌, ◌<◌, length, get_or, Ok};
ghost use Rattle.octets.specs.Bytes.{be, number, zeros, part, put, all_zero, same};
ghost use Rattle.octets.specs.BlockCalls.{block_outcome};

// Why a public call on one block is refused, whatever the cipher.
#[derive(Clone, Copy, Debug, PartialEq, Eq)]
pub enum BlockError {
    WrongKey,
    WrongSpan,
}

pub fn fill_zero(s: &mut [u8])
    ensures { s.new ≡ zeros (length s.old) }
{
    s.fill(0);
}

// The n bytes of s from place a become zero.
pub fn zero_part(s: &mut [u8], a: usize, n: usize)
    requires { a + n ≤ length s.old }
    ensures { s.new ≡ put s.old a (zeros n) }
{
    fill_zero(&mut s[a..a + n]);
}

// The bytes of s from place a become those of src.
pub fn copy_part(s: &mut [u8], a: usize, src: &[u8])
    requires { a + length src.now ≤ length s.old }
    ensures { s.new ≡ put s.old a src.now }
{
    s[a..a + src.len()].copy_from_slice(src);
}

// The bytes are gathered and tested once at the end, so that many can be taken at a time.
pub fn all_zero(s: &[u8]) -> bool
    ensures { result ≡ all_zero s.now }
{
    let mut x = 0u8;
    for b in s {
        x |= *b;
    }
    x == 0
}

// The comparison goes to the end whatever it finds.
pub fn same_bytes(a: &[u8], b: &[u8]) -> bool
    ensures { result ≡ same a.now b.now }
{
    if a.len() != b.len() {
        return false;
    }
    let mut x = 0u8;
    for (y, z) in a.iter().zip(b) {
        x |= *y ^ *z;
    }
    x == 0
}

// A byte as a wider number.
pub fn byte(s: &[u8], i: usize) -> usize
    requires { i < length s.now }
    ensures { (result ≡ get_or s.now i 0) × (result < 256) }
{
    usize::from(s[i])
}

// The number in the N bytes of s from place a.
pub fn number<const N: usize>(s: &[u8], a: usize) -> usize
    requires { (a + N ≤ length s.now) × (N ≤ 8) }
    ensures value { result ≡ number (part s.now a N) }
    ensures small { result < 256 ^ N }
{
    let mut x = 0;
    for b in &s[a..a + N] {
        x = x * 256 + usize::from(*b);
    }
    x
}

// The low N bytes of x.
pub fn bytes<const N: usize>(x: usize) -> [u8; N]
    requires { N ≤ 8 }
    ensures { result ≡ be N x }
{
    let mut s = [0u8; N];
    for (i, b) in s.iter_mut().enumerate() {
        *b = ((x >> (8 * (N - 1 - i))) % 256) as u8;
    }
    s
}

// A number of four bytes and two of two, one after the other.
pub fn bytes4_2_2(x: usize, y: usize, z: usize) -> [u8; 8]
    ensures { result ≡ be 4 x ++ (be 2 y ++ be 2 z) }
{
    let [a, b, c, d] = bytes::<4>(x);
    let [e, f] = bytes::<2>(y);
    let [g, h] = bytes::<2>(z);
    [a, b, c, d, e, f, g, h]
}

// The 8 bytes of s from place a.
pub fn block_at(s: &[u8], a: usize) -> [u8; 8]
    requires { a + 8 ≤ length s.now }
    ensures { result ≡ part s.now a 8 }
{
    let mut b = [0u8; 8];
    b.copy_from_slice(&s[a..a + 8]);
    b
}

// The output of an accepted call on one block.
pub fn put_block(b: [u8; 8], out: &mut [u8]) -> Result<(), BlockError>
    requires { length out.old ≡ 8 }
    ensures { block_outcome result out.new ≡ block_outcome (Ok tt) b }
{
    out.copy_from_slice(&b);
    Ok(())
}
