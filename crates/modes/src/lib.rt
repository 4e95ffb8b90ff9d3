// CBC of NIST SP 800-38A and CMAC of NIST SP 800-38B over a cipher with a block of 64 bits.
#![tactic(auto)]

ghost use Rattle.std.specs.Prelude.{◌≡◌, List, ◌++◌, ℕ, ◌+◌, ◌-◌, ◌*◌, ◌/◌, ◌≤◌, ◌<◌, eqb, length};
ghost use Rattle.octets.specs.Bytes.{put, zeros};
ghost use Rattle.octets.specs.BlockCalls.{block_outcome};
ghost use Rattle.cipher.specs.Key.{encrypted, decrypted};
ghost use Rattle.modes.specs.Xor.{xor_bytes};
ghost use Rattle.modes.specs.Cbc.{cbc_encrypt, cbc_decrypt};
ghost use Rattle.modes.specs.Cmac.{shift_left, double, L, K1, K2, block_count, last_block, message_block, chain_value, cmac};
ghost use Rattle.modes.specs.Steps.{TwoParts, BlocksIn};
ghost use Rattle.modes.specs.Answers.{authenticating};

use octets::BlockError;

pub fn xor_block(x: [u8; 8], y: [u8; 8]) -> [u8; 8]
    ensures { result ≡ xor_bytes x y }
{
    let mut z = x;
    for (i, b) in y.iter().enumerate() {
        z[i] ^= *b;
    }
    z
}

// CBC of whole blocks, from a start block.
pub fn cbc_encrypt(k: cipher::Key, start: [u8; 8], p: &[u8], out: &mut [u8])
    requires p_len { length p.now ≡ length out.old }
    requires p_len_2 { length p.now ≡ 8 * (length p.now / 8) }
    ensures { out.new ≡ cbc_encrypt (encrypted k) (length p.now / 8) start p.now }
{
    let n = p.len() / 8;
    let mut c = start;
    for j in 0..n {
        c = cipher::encrypt(k, xor_block(octets::block_at(p, 8 * j), c));
        octets::copy_part(out, 8 * j, &c);
    }
}

// A block of plain text at place a: d is the block decrypted, c what it is chained to.
fn put_plain(out: &mut [u8], a: usize, d: [u8; 8], c: [u8; 8])
    requires { a + 8 ≤ length out.old }
    ensures text { out.new ≡ put out.old a (xor_bytes d c) }
    ensures size { length (xor_bytes d c) ≡ 8 }
{
    let plain = xor_block(d, c);
    octets::copy_part(out, a, &plain);
}

// The first block of s, which is chained to c.
fn decrypt_one(k: cipher::Key, c: [u8; 8], s: &[u8], out: &mut [u8])
    requires { (8 ≤ length s.now) × (length out.old ≡ 8) }
    ensures { out.new ≡ cbc_decrypt (decrypted k) 1 c s.now }
{
    let d = cipher::decrypt(k, octets::block_at(s, 0));
    put_plain(out, 0, d, c);
}

// The first 24 blocks of s, a field, of which the first is chained to c.
fn decrypt_field(k: cipher::Key, c: [u8; 8], s: &[u8], out: &mut [u8])
    requires { (192 ≤ length s.now) × (length out.old ≡ 192) }
    ensures { out.new ≡ cbc_decrypt (decrypted k) 24 c s.now }
{
    let d = cipher::decrypt_blocks(k, s);
    let mut before = c;
    for (i, x) in d.iter().enumerate() {
        put_plain(out, 8 * i, *x, before);
        let next = octets::block_at(s, 8 * i);
        before = next;
    }
}

// As many fields as there are whole, and then the rest block by block.
pub fn cbc_decrypt(k: cipher::Key, start: [u8; 8], s: &[u8], out: &mut [u8])
    requires s_len { length s.now ≡ length out.old }
    requires s_len_2 { length s.now ≡ 8 * (length s.now / 8) }
    ensures { out.new ≡ cbc_decrypt (decrypted k) (length s.now / 8) start s.now }
{
    let n = s.len() / 8;
    let fields = n / 24;
    let mut before = start;
    for i in 0..fields {
        let a = 192 * i;
        decrypt_field(k, before, &s[a..], &mut out[a..a + 192]);
        let last = octets::block_at(s, a + 184);
        before = last;
    }
    for j in 24 * fields..n {
        let a = 8 * j;
        decrypt_one(k, before, &s[a..], &mut out[a..a + 8]);
        let last = octets::block_at(s, a);
        before = last;
    }
}

// ---- CMAC: the steps of SP 800-38B, 6.1 and 6.2, in their order and by their names. The message M is head ‖ rest, so that none of it is copied.

// X << 1 (SP 800-38B, 4.2).
fn shift_left(b: [u8; 8]) -> [u8; 8]
    ensures { result ≡ shift_left b }
{
    (u64::from_be_bytes(b) << 1).to_be_bytes()
}

// The next subkey (SP 800-38B, 6.1, steps 2 and 3): b << 1, and R_64 added where the top bit of b is 1.
fn double_block(b: [u8; 8]) -> [u8; 8]
    ensures { result ≡ double b }
{
    let s = shift_left(b);
    if b[0] < 128 {
        s
    } else {
        xor_block(s, [0, 0, 0, 0, 0, 0, 0, 0x1b])
    }
}

// What 6.1 makes of a key: L, and the subkeys K1 and K2.
#[derive(Clone, Copy)]
pub struct SubkeySet {
    pub l: [u8; 8],
    pub k1: [u8; 8],
    pub k2: [u8; 8],
}

// 6.1, subkey generation.
pub fn generate_subkeys(k: cipher::Key) -> SubkeySet
    ensures l { result.l ≡ L (encrypted k) }
    ensures k1 { result.k1 ≡ K1 (encrypted k) }
    ensures k2 { result.k2 ≡ K2 (encrypted k) }
{
    let l = cipher::encrypt(k, [0u8; 8]); // step 1: L = CIPH_K(0^64)
    let k1 = double_block(l); // step 2: K1, by the top bit of L
    let k2 = double_block(k1); // step 3: K2, by the top bit of K1
    SubkeySet { l, k1, k2 } // step 4
}

// 6.2, step 2: n, which is 1 for an empty message.
pub fn block_count(head: &[u8], rest: &[u8]) -> usize
    ensures { result ≡ block_count (head.now ++ rest.now) }
{
    let len = head.len() + rest.len();
    if len == 0 { 1 } else { (len - 1) / 8 + 1 }
}

// Whether s is a complete block.
fn is_complete(s: &[u8]) -> bool
    ensures { result ≡ eqb (length s.now) 8 }
{
    s.len() == 8
}

// 6.2, step 4: M_n, made of M_n*, which is s.
pub fn last_block(k1: [u8; 8], k2: [u8; 8], s: &[u8]) -> [u8; 8]
    requires { length s.now ≤ 8 }
    ensures { result ≡ last_block k1 k2 s.now }
{
    if is_complete(s) {
        return xor_block(k1, octets::block_at(s, 0)); // K1 ⊕ M_n*
    }
    let mut b = [0u8; 8];
    octets::copy_part(&mut b, 0, s);
    b[s.len()] = 0x80;
    xor_block(k2, b) // K2 ⊕ (M_n* ‖ 10^j)
}

// 6.2, step 5: C_0, of every message under every cipher.
pub fn chain_start() -> [u8; 8]
    ensures { (E : List ℕ → List ℕ) (m : List ℕ) → result ≡ chain_value E (zeros 8) m 0 }
{
    [0; 8]
}

// 6.2, step 6: C_i, made of C_{i-1}, which is c, and M_i, which is b. Head, rest and i are there for the contract alone: they say whose C_i it is.
pub fn chain_next(
    k: cipher::Key,
    head: &[u8],
    rest: &[u8],
    i: usize,
    c: [u8; 8],
    b: [u8; 8],
) -> [u8; 8]
    requires i_nonzero { (0 < i) × (b ≡ message_block (encrypted k) (head.now ++ rest.now) i) }
    requires c_value { c ≡ chain_value (encrypted k) (zeros 8) (head.now ++ rest.now) (i - 1) }
    ensures { result ≡ chain_value (encrypted k) (zeros 8) (head.now ++ rest.now) i }
{
    cipher::encrypt(k, xor_block(c, b))
}

// 6.2, step 6, on one part of the message: C_to, made of C_from, which is begin. M_{from+1} to M_to stand at the beginning of s.
fn chain_part(
    k: cipher::Key,
    head: &[u8],
    rest: &[u8],
    s: &[u8],
    from: usize,
    to: usize,
    begin: [u8; 8],
) -> [u8; 8]
    requires blocks_in { BlocksIn (head.now ++ rest.now) s.now from to }
    requires begin_value { begin ≡ chain_value (encrypted k) (zeros 8) (head.now ++ rest.now) from }
    ensures { result ≡ chain_value (encrypted k) (zeros 8) (head.now ++ rest.now) to }
{
    let mut c = begin;
    for j in from..to {
        let next = chain_next(k, head, rest, j + 1, c, octets::block_at(s, 8 * (j - from))); // step 6: C_{j+1}
        c = next;
    }
    c
}

// 6.2, MAC generation, with Tlen = 64. Head is whole blocks, and the last block lies in rest.
fn mac(k: cipher::Key, head: &[u8], rest: &[u8]) -> [u8; 8]
    requires { TwoParts head.now rest.now }
    ensures { result ≡ cmac (encrypted k) (head.now ++ rest.now) }
{
    let SubkeySet { k1, k2, .. } = generate_subkeys(k); // step 1: K1 and K2, by 6.1
    let n = block_count(head, rest); // step 2: n
    let h = head.len() / 8; // step 3: M_1 to M_h are head, M_{h+1} to M_{n-1} begin rest
    let a = 8 * (n - 1 - h); // step 3: and M_n* is rest from place a on
    let last = last_block(k1, k2, &rest[a..]); // step 4: M_n, by K1 or K2
    let c0 = chain_start(); // step 5: C_0
    let c_h = chain_part(k, head, rest, head, 0, h, c0); // step 6: C_1 to C_h
    let c_before = chain_part(k, head, rest, rest, h, n - 1, c_h); // step 6: C_{h+1} to C_{n-1}
    chain_next(k, head, rest, n, c_before, last) // step 6: C_n; steps 7 and 8: T = C_n
}

// CMAC of a block and then a message that is not empty, with no copy of either.
pub fn mac_two(k: cipher::Key, first: [u8; 8], m: &[u8]) -> [u8; 8]
    requires { 0 < length m.now }
    ensures { result ≡ cmac (encrypted k) (first ++ m.now) }
{
    mac(k, &first, m)
}

// CMAC of one block.
pub fn mac_one(k: cipher::Key, b: [u8; 8]) -> [u8; 8]
    ensures { result ≡ cmac (encrypted k) b }
{
    mac(k, b"", &b)
}

// CMAC of a message of any length, 0 too.
pub fn cmac(key: &[u8], message: &[u8], out: &mut [u8]) -> Result<(), BlockError>
    ensures { block_outcome result out.new ≡ authenticating key.now message.now out.old }
{
    if !mcrypton::key_length(key.len()) {
        return Err(BlockError::WrongKey);
    }
    if out.len() != 8 {
        return Err(BlockError::WrongSpan);
    }
    let k = cipher::load(key.len() / 2, key);
    octets::put_block(mac(k, b"", message), out)
}
