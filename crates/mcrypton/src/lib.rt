// mCrypton (document 000): a block encrypted or decrypted with the key schedule on the fly, and the public calls on one block.
#![tactic(auto)]

ghost use Rattle.std.specs.Prelude.{◌≡◌, ◌+◌, ◌/◌, ◌%◌, ◌<◌, [], ◌∷◌, get_or, map};
ghost use Rattle.rounds.specs.Array.{σ, φ, word_round};
ghost use Rattle.rounds.specs.declared.Direction.{Direction};
ghost use Rattle.rounds.specs.declared.Direction.TheVariants.{Encrypt, Decrypt};
ghost use Rattle.schedule.specs.Schedule.{eight_words, start as start_of};
ghost use Rattle.mcrypton.specs.Cipher.{path_round};
ghost use Rattle.mcrypton.specs.Registers.{encrypt_from, decrypt_from};
ghost use Rattle.mcrypton.specs.Walks.{step, walk_key, round_number, Reached, walked, TwoRounds, begun_by};
ghost use Rattle.mcrypton.specs.Bytes.{key_length, words_of, bytes_of};
ghost use Rattle.octets.specs.BlockCalls.{block_outcome};
ghost use Rattle.mcrypton.specs.Calls.{crypting, encrypting, decrypting};

use octets::BlockError;
use rounds::Direction;
use schedule::Register;

// The functions that take a direction are inlined where theirs is a literal, and the number of the round with it: then the compiler
// knows which lookup a round makes and the constant of its key.

// The number that a register has after r rounds.
#[inline(always)]
fn round_number(d: Direction, r: usize) -> usize
    requires { r < 13 }
    ensures { result ≡ round_number d r }
{
    match d {
        Direction::Encrypt => r,
        Direction::Decrypt => 12 - r,
    }
}

// The register after one more round than r.
#[inline(always)]
fn step(d: Direction, r: usize, v: Register) -> Register
    requires { Reached d r v × (r < 12) }
    ensures { (result ≡ step d v) × Reached d (r + 1) result }
{
    match d {
        Direction::Encrypt => v.forward(),
        Direction::Decrypt => v.backward(),
    }
}

// The key of round r. The register's round is said again, so that the compiler knows it where r is a literal.
#[inline(always)]
fn key(d: Direction, r: usize, v: Register) -> [u16; 4]
    requires { Reached d r v }
    ensures { result ≡ walk_key d v }
{
    let w = Register {
        round: round_number(d, r),
        ..v
    };
    match d {
        Direction::Encrypt => w.round_key(),
        Direction::Decrypt => rounds::phi(w.round_key()),
    }
}

// Round r by the path that bit r - 1 of the path number p chooses: 1 is the word path.
#[inline(always)]
fn path_round(d: Direction, p: u16, r: usize, k: [u16; 4], a: [u16; 4]) -> [u16; 4]
    requires { (0 < r) × (r < 13) }
    ensures { result ≡ path_round d p r k a }
{
    let bit = (p >> (r - 1)) % 2;
    if bit == 1 {
        rounds::word_round(d, k, a)
    } else {
        rounds::nibble_round(d, k, a)
    }
}

// A block encrypted or decrypted by the path number p: u is the register before the first round.
#[inline(always)]
fn by_path(d: Direction, p: u16, u: Register, b: [u16; 4]) -> [u16; 4]
    requires { Reached d 0 u }
    ensures { result ≡ walked d p u b }
{
    let mut v = u;
    let mut a = rounds::sigma(key(d, 0, u), b);
    for r in 0..12 {
        let next = step(d, r, v);
        let array = path_round(d, p, r + 1, key(d, r + 1, next), a);
        v = next;
        a = array;
    }
    rounds::phi(a)
}

// The two rounds after r, by words: any path number gives the same, and this spares the choice in each round. The register
// takes both steps first, so that its word count is asked for once in two.
#[inline(always)]
fn two_rounds(d: Direction, r: usize, v: Register, a: [u16; 4]) -> (Register, [u16; 4])
    requires { Reached d r v × (r < 11) }
    ensures { Reached d (r + 2) result.0 × TwoRounds d v a result.0 result.1 }
{
    let v1 = step(d, r, v);
    let v2 = step(d, r + 1, v1);
    let a1 = rounds::word_round(d, key(d, r + 1, v1), a);
    let a2 = rounds::word_round(d, key(d, r + 2, v2), a1);
    (v2, a2)
}

// A direction as a type: a function that is too large to be inlined takes it so, and there is one of it for each.
trait Way {
    ghost DIRECTION: { Direction };

    const DIRECTION: Direction;
}

struct ToEncrypt;

impl Way for ToEncrypt {
    ghost DIRECTION = { Encrypt };

    const DIRECTION: Direction = Direction::Encrypt;
}

struct ToDecrypt;

impl Way for ToDecrypt {
    ghost DIRECTION = { Decrypt };

    const DIRECTION: Direction = Direction::Decrypt;
}

// A block encrypted or decrypted by words alone. The rounds are written out, each with its number as a literal.
fn by_words<W: Way>(u: Register, b: [u16; 4]) -> [u16; 4]
    requires { Reached W.DIRECTION 0 u }
    ensures { result ≡ walked W.DIRECTION 0 u b }
{
    let d = W::DIRECTION;
    let a0 = rounds::sigma(key(d, 0, u), b);
    let (v2, a2) = two_rounds(d, 0, u, a0);
    let (v4, a4) = two_rounds(d, 2, v2, a2);
    let (v6, a6) = two_rounds(d, 4, v4, a4);
    let (v8, a8) = two_rounds(d, 6, v6, a6);
    let (v10, a10) = two_rounds(d, 8, v8, a8);
    let (_, a12) = two_rounds(d, 10, v10, a10);
    rounds::phi(a12)
}

// A block of bytes encrypted by words alone. The rounds are in `by_words::<ToEncrypt>`, which the compiler has once for all callers.
pub fn encrypt_bytes(u: Register, b: [u8; 8]) -> [u8; 8]
    requires { u.round ≡ 0 }
    ensures { result ≡ bytes_of (encrypt_from 0 u (words_of b)) }
{
    block_bytes(by_words::<ToEncrypt>(u, block_words(b)))
}

// A block decrypted by words alone.
pub fn decrypt_words(u: Register, b: [u16; 4]) -> [u16; 4]
    requires { u.round ≡ 12 }
    ensures { result ≡ decrypt_from 0 u b }
{
    by_words::<ToDecrypt>(u, b)
}

// σ, a round and φ on each array of a list, in its place.
pub fn sigma_all(k: [u16; 4], a: &mut [[u16; 4]])
    ensures { a.new ≡ map (σ k) a.old }
{
    for x in a.iter_mut() {
        *x = rounds::sigma(k, *x);
    }
}

#[inline(always)]
fn round_all(d: Direction, k: [u16; 4], a: &mut [[u16; 4]])
    ensures { a.new ≡ map (word_round d k) a.old }
{
    for x in a.iter_mut() {
        *x = rounds::word_round(d, k, *x);
    }
}

pub fn phi_all(a: &mut [[u16; 4]])
    ensures { a.new ≡ map φ a.old }
{
    for x in a.iter_mut() {
        *x = rounds::phi(*x);
    }
}

// Blocks encrypted or decrypted in one walk of the register, however many: a round key is made once for all of them.
#[inline(always)]
fn walk_all(d: Direction, u: Register, a: &mut [[u16; 4]])
    requires { Reached d 0 u }
    ensures { a.new ≡ map (walked d 0 u) a.old }
{
    let mut v = u;
    sigma_all(key(d, 0, u), a);
    for r in 0..12 {
        let next = step(d, r, v);
        round_all(d, key(d, r + 1, next), a);
        v = next;
    }
    phi_all(a);
}

pub fn encrypt_all(u: Register, a: &mut [[u16; 4]])
    requires { u.round ≡ 0 }
    ensures { a.new ≡ map (encrypt_from 0 u) a.old }
{
    walk_all(Direction::Encrypt, u, a);
}

pub fn decrypt_all(u: Register, a: &mut [[u16; 4]])
    requires { u.round ≡ 12 }
    ensures { a.new ≡ map (decrypt_from 0 u) a.old }
{
    walk_all(Direction::Decrypt, u, a);
}

// The path number decided once: words alone where all twelve bits that count are 1.
#[inline(always)]
fn chosen(d: Direction, p: u16, u: Register, b: [u8; 8]) -> [u8; 8]
    requires { Reached d 0 u }
    ensures { result ≡ bytes_of (walked d p u (words_of b)) }
{
    if p % 4096 != 4095 {
        return block_bytes(by_path(d, p, u, block_words(b)));
    }
    match d {
        Direction::Encrypt => encrypt_bytes(u, b),
        Direction::Decrypt => block_bytes(decrypt_words(u, block_words(b))),
    }
}

// Word i of a list of bytes, and 0 past its end.
fn word(s: &[u8], i: usize) -> u16
    requires { i < 8 }
    ensures { result ≡ get_or (words_of s.now) i 0 }
{
    if 2 * i + 1 < s.len() {
        return u16::from_be_bytes([s[2 * i], s[2 * i + 1]]);
    }
    0
}

// The words of a key, and zeros up to eight.
pub fn key_words(k: &[u8]) -> [u16; 8]
    ensures { result ≡ eight_words (words_of k.now) }
{
    [
        word(k, 0),
        word(k, 1),
        word(k, 2),
        word(k, 3),
        word(k, 4),
        word(k, 5),
        word(k, 6),
        word(k, 7),
    ]
}

// The register of round 0 of a key.
pub fn start(k: &[u8]) -> Register
    ensures { result ≡ start_of (words_of k.now) }
{
    Register {
        words: key_words(k),
        count: k.len() / 2,
        round: 0,
    }
}

// The four words of a block.
pub fn block_words(b: [u8; 8]) -> [u16; 4]
    ensures { result ≡ words_of b }
{
    [
        u16::from_be_bytes([b[0], b[1]]),
        u16::from_be_bytes([b[2], b[3]]),
        u16::from_be_bytes([b[4], b[5]]),
        u16::from_be_bytes([b[6], b[7]]),
    ]
}

// The two bytes of a word.
fn word_bytes(w: u16) -> [u8; 2]
    ensures { result ≡ w / 256 ∷ w % 256 ∷ [] }
{
    w.to_be_bytes()
}

// The 8 bytes of four words.
pub fn block_bytes(a: [u16; 4]) -> [u8; 8]
    ensures { result ≡ bytes_of a }
{
    let w = word_bytes(a[0]);
    let x = word_bytes(a[1]);
    let y = word_bytes(a[2]);
    let z = word_bytes(a[3]);
    [w[0], w[1], x[0], x[1], y[0], y[1], z[0], z[1]]
}

// Whether a key has 8, 12 or 16 bytes.
pub fn key_length(n: usize) -> bool
    ensures { result ≡ key_length n }
{
    matches!(n, 8 | 12 | 16)
}

// The register before the first round of a key.
#[inline(always)]
fn begin(d: Direction, key: &[u8]) -> Register
    ensures { (result ≡ begun_by d (words_of key.now)) × Reached d 0 result }
{
    let u = start(key);
    match d {
        Direction::Encrypt => u,
        Direction::Decrypt => u.backward_start(),
    }
}

// One block encrypted or decrypted by the path number.
#[inline(always)]
fn crypt(
    d: Direction,
    key: &[u8],
    block: &[u8],
    path: u16,
    out: &mut [u8],
) -> Result<(), BlockError>
    ensures { block_outcome result out.new ≡ crypting d path key.now block.now out.old }
{
    if !key_length(key.len()) {
        return Err(BlockError::WrongKey);
    }
    if block.len() != 8 {
        return Err(BlockError::WrongSpan);
    }
    if out.len() != 8 {
        return Err(BlockError::WrongSpan);
    }
    let b = octets::block_at(block, 0);
    octets::put_block(chosen(d, path, begin(d, key), b), out)
}

// One block encrypted by the path number.
pub fn encrypt_block(key: &[u8], block: &[u8], path: u16, out: &mut [u8]) -> Result<(), BlockError>
    ensures { block_outcome result out.new ≡ encrypting path key.now block.now out.old }
{
    crypt(Direction::Encrypt, key, block, path, out)
}

// One block decrypted by the path number.
pub fn decrypt_block(key: &[u8], block: &[u8], path: u16, out: &mut [u8]) -> Result<(), BlockError>
    ensures { block_outcome result out.new ≡ decrypting path key.now block.now out.old }
{
    crypt(Direction::Decrypt, key, block, path, out)
}
