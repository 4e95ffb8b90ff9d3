// PRESENT (CHES 2007; ISO/IEC 29192-2): a block encrypted or decrypted by tables, with the key schedule on the fly, and the public calls on one block.
#![tactic(auto)]

ghost use Rattle.std.specs.Prelude.{◌≡◌, true, map, ◌*◌, ◌+◌, ◌<◌, ◌≤◌, get_or, length, List, ℕ, Err, MatchResult};
ghost use Rattle.std.specs.Int.Bits.{bit_xor};
ghost use Rattle.octets.specs.Bytes.{be, number};
ghost use Rattle.octets.specs.BlockCalls.{block_outcome, block_call};
ghost use Rattle.present_rounds.specs.Layers.{p_layer, inverse_sBox_layer, inverse_pLayer};
ghost use Rattle.present_schedule.specs.Registers.{keys_from};
ghost use Rattle.present.specs.Present.{encrypt, decrypt};
ghost use Rattle.present.specs.Bytes.{key_length};
ghost use Rattle.present.specs.Registers.{register_of, encrypt_words, decrypt_words, Spells};
ghost use Rattle.present.specs.Calls.{encrypting, decrypting};

use octets::BlockError;
use present_schedule::Register;

// A block encrypted: u holds the key.
fn encrypt_from(u: Register, b: u64) -> u64
    ensures { result ≡ encrypt (keys_from u) b }
{
    let mut v = u;
    let mut s = b;
    for r in 1..32 {
        s = present_rounds::both_layers(s ^ v.round_key());
        v = v.update(r);
    }
    s ^ v.round_key()
}

// A block decrypted: u holds the key. The state is kept as the inverse of pLayer leaves it, so that a round is eight
// lookups and the round key, moved in the same way, is added after them.
fn decrypt_from(u: Register, c: u64) -> u64
    ensures { result ≡ decrypt (keys_from u) c }
{
    let k = u.moved_keys();
    let mut s = present_rounds::inverse_p_layer(c) ^ k[31];
    for r in (0..31).rev() {
        s = present_rounds::inverse_layers(s) ^ k[r];
    }
    present_rounds::p_layer(s)
}

// ---- keys and blocks as bytes and words

fn four_words(a: u16, b: u16, c: u16, d: u16) -> u64
    ensures { result ≡ ((a * 65536 + b) * 65536 + c) * 65536 + d }
{
    ((u64::from(a) * 65536 + u64::from(b)) * 65536 + u64::from(c)) * 65536 + u64::from(d)
}

// The register of a key given as words: eight of them, or five and zeros.
fn key_register(wide: bool, w: [u16; 8]) -> Register
    ensures { result ≡ register_of wide w }
{
    let high = four_words(w[0], w[1], w[2], w[3]);
    if wide {
        Register::of_128(high, four_words(w[4], w[5], w[6], w[7]))
    } else {
        Register::of_80(high, w[4])
    }
}

// A block as a number, and back.
fn block_number(b: [u8; 8]) -> u64
    ensures { result ≡ number b }
{
    u64::from_be_bytes(b)
}

fn block_bytes(x: u64) -> [u8; 8]
    ensures { result ≡ be 8 x }
{
    x.to_be_bytes()
}

// A block encrypted and decrypted under a key given as words.
pub fn encrypt_words(wide: bool, w: [u16; 8], b: [u8; 8]) -> [u8; 8]
    ensures { result ≡ encrypt_words wide w b }
{
    block_bytes(encrypt_from(key_register(wide, w), block_number(b)))
}

pub fn decrypt_words(wide: bool, w: [u16; 8], b: [u8; 8]) -> [u8; 8]
    ensures { result ≡ decrypt_words wide w b }
{
    block_bytes(decrypt_from(key_register(wide, w), block_number(b)))
}

// ---- the 24 blocks of a field: the round keys are made once for all of them

// The state of each block before its first round.
fn first_all(k: u64, b: [[u8; 8]; 24]) -> [u64; 24]
    ensures { result ≡ map (λ x. bit_xor (inverse_pLayer (number x)) k) b }
{
    let mut a = [0u64; 24];
    for (i, x) in b.iter().enumerate() {
        a[i] = present_rounds::inverse_p_layer(block_number(*x)) ^ k;
    }
    a
}

// A round on each state, in its place.
fn round_all(k: u64, a: &mut [u64])
    ensures { a.new ≡ map (λ s. bit_xor (inverse_pLayer (inverse_sBox_layer s)) k) a.old }
{
    for s in a.iter_mut() {
        *s = present_rounds::inverse_layers(*s) ^ k;
    }
}

// The block of each state after its last round.
fn last_all(a: [u64; 24]) -> [[u8; 8]; 24]
    ensures { result ≡ map (λ s. be 8 (p_layer s)) a }
{
    let mut b = [[0u8; 8]; 24];
    for (i, s) in a.iter().enumerate() {
        b[i] = block_bytes(present_rounds::p_layer(*s));
    }
    b
}

pub fn decrypt_all(wide: bool, w: [u16; 8], b: [[u8; 8]; 24]) -> [[u8; 8]; 24]
    ensures { result ≡ map (decrypt_words wide w) b }
{
    let k = key_register(wide, w).moved_keys();
    let mut a = first_all(k[31], b);
    for r in (0..31).rev() {
        round_all(k[r], &mut a);
    }
    last_all(a)
}

// ---- the public calls on one block

// Whether a key has 10 or 16 bytes.
pub fn key_length(n: usize) -> bool
    ensures { result ≡ key_length n }
{
    matches!(n, 10 | 16)
}

// Word i of a key, and 0 past its end.
fn word_of(k: &[u8], i: usize) -> u16
    requires { i < 8 }
    ensures { 2 * i + 1 < length k.now → result ≡ get_or k.now (2 * i) 0 * 256 + get_or k.now (2 * i + 1) 0 }
{
    if 2 * i + 1 < k.len() {
        u16::from(k[2 * i]) * 256 + u16::from(k[2 * i + 1])
    } else {
        0
    }
}

// The words of a key, and zeros up to eight.
fn key_words(k: &[u8]) -> [u16; 8]
    requires { length k.now ≤ 16 }
    ensures { Spells result k.now }
{
    let mut w = [0u16; 8];
    for (i, x) in w.iter_mut().enumerate() {
        *x = word_of(k, i);
    }
    w
}

// The tests of a call on one block, in their order, and the block.
fn tested(key: &[u8], block: &[u8], out: &[u8]) -> Result<[u8; 8], BlockError>
    ensures { MatchResult result
        (λ b. (key_length (length key.now) ≡ true) × (b ≡ block.now) × (length block.now ≡ 8) × (length out.now ≡ 8))
        (λ e. (new : List ℕ) → block_outcome (Err e) out.now ≡ block_call key_length key.now block.now out.now new) }
{
    if !key_length(key.len()) {
        return Err(BlockError::WrongKey);
    }
    if block.len() != 8 || out.len() != 8 {
        return Err(BlockError::WrongSpan);
    }
    Ok(octets::block_at(block, 0))
}

pub fn encrypt_block(key: &[u8], block: &[u8], out: &mut [u8]) -> Result<(), BlockError>
    ensures { block_outcome result out.new ≡ encrypting key.now block.now out.old }
{
    let b = tested(key, block, out)?;
    octets::put_block(encrypt_words(key.len() == 16, key_words(key), b), out)
}

pub fn decrypt_block(key: &[u8], block: &[u8], out: &mut [u8]) -> Result<(), BlockError>
    ensures { block_outcome result out.new ≡ decrypting key.now block.now out.old }
{
    let c = tested(key, block, out)?;
    octets::put_block(decrypt_words(key.len() == 16, key_words(key), c), out)
}
