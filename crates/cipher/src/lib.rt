// The block cipher under a loaded key: what the crates above know of mCrypton and of PRESENT. Its class chooses between them.
#![tactic(auto)]

ghost use Rattle.std.specs.Prelude.{◌≡◌, map, ◌<◌, ◌≤◌, length};
ghost use Rattle.cipher.specs.Key.{mcrypton_class, present_class, class_known, key_bytes, sheet_key_length, loaded, key_register, mcrypton_encrypted, mcrypton_decrypted, encrypted, decrypted};
ghost use Rattle.cipher.specs.Field.{blocks};
ghost use Rattle.mcrypton.specs.Bytes.{words_of, bytes_of};

use schedule::Register;

// A loaded key: its class and its words, with zeros after them.
#[derive(Clone, Copy)]
pub struct Key {
    pub class: usize,
    pub words: [u16; 8],
}

// Whether t is a class of mCrypton.
pub fn mcrypton_class(t: usize) -> bool
    ensures { result ≡ mcrypton_class t }
{
    matches!(t, 4 | 6 | 8)
}

// Whether t is a class of PRESENT.
pub fn present_class(t: usize) -> bool
    ensures { result ≡ present_class t }
{
    matches!(t, 21 | 24)
}

pub fn class_known(t: usize) -> bool
    ensures { result ≡ class_known t }
{
    mcrypton_class(t) || present_class(t)
}

// The bytes of a key of a class, which is below 256 since it stands in one byte.
pub fn key_bytes(t: usize) -> usize
    requires { t < 256 }
    ensures { result ≡ key_bytes t }
{
    match t {
        21 => 10,
        24 => 16,
        _ => 2 * t,
    }
}

// Whether some class has keys of n bytes.
pub fn sheet_key_length(n: usize) -> bool
    ensures { result ≡ sheet_key_length n }
{
    matches!(n, 8 | 10 | 12 | 16)
}

pub fn load(class: usize, key: &[u8]) -> Key
    ensures { result ≡ loaded class key.now }
{
    Key {
        class,
        words: mcrypton::key_words(key),
    }
}

fn register(k: Key) -> Register
    ensures { result ≡ key_register k }
{
    let words = k.words;
    Register {
        words,
        count: k.class,
        round: 0,
    }
}

fn encrypt_mcrypton(k: Key, b: [u8; 8]) -> [u8; 8]
    ensures { result ≡ mcrypton_encrypted k b }
{
    mcrypton::encrypt_bytes(register(k), b)
}

pub fn encrypt(k: Key, b: [u8; 8]) -> [u8; 8]
    ensures { result ≡ encrypted k b }
{
    if present_class(k.class) {
        present::encrypt_words(k.class == 24, k.words, b)
    } else {
        encrypt_mcrypton(k, b)
    }
}

fn decrypt_mcrypton(k: Key, b: [u8; 8]) -> [u8; 8]
    ensures { result ≡ mcrypton_decrypted k b }
{
    let words = mcrypton::block_words(b);
    mcrypton::block_bytes(mcrypton::decrypt_words(register(k).backward_start(), words))
}

pub fn decrypt(k: Key, b: [u8; 8]) -> [u8; 8]
    ensures { result ≡ decrypted k b }
{
    if present_class(k.class) {
        present::decrypt_words(k.class == 24, k.words, b)
    } else {
        decrypt_mcrypton(k, b)
    }
}

// The words of the 24 blocks of a field, and their bytes.
fn field_words(s: &[u8]) -> [[u16; 4]; 24]
    requires { 192 ≤ length s.now }
    ensures { result ≡ map words_of (blocks 24 s.now) }
{
    let mut a = [[0u16; 4]; 24];
    for (i, x) in a.iter_mut().enumerate() {
        *x = mcrypton::block_words(octets::block_at(s, 8 * i));
    }
    a
}

fn field_bytes(a: [[u16; 4]; 24]) -> [[u8; 8]; 24]
    ensures { result ≡ map bytes_of a }
{
    let mut b = [[0u8; 8]; 24];
    for (i, y) in b.iter_mut().enumerate() {
        *y = mcrypton::block_bytes(a[i]);
    }
    b
}

// The 24 blocks of a field decrypted, each by itself: what they share is the walk of the key's register.
fn decrypt_blocks_mcrypton(k: Key, s: &[u8]) -> [[u8; 8]; 24]
    requires { 192 ≤ length s.now }
    ensures { result ≡ map (mcrypton_decrypted k) (blocks 24 s.now) }
{
    let mut a = field_words(s);
    mcrypton::decrypt_all(register(k).backward_start(), &mut a);
    field_bytes(a)
}

// The 24 blocks of a field.
fn field_blocks(s: &[u8]) -> [[u8; 8]; 24]
    requires { 192 ≤ length s.now }
    ensures { result ≡ blocks 24 s.now }
{
    let mut b = [[0u8; 8]; 24];
    for (i, x) in b.iter_mut().enumerate() {
        *x = octets::block_at(s, 8 * i);
    }
    b
}

// The 24 blocks of a field decrypted by the cipher of the class.
pub fn decrypt_blocks(k: Key, s: &[u8]) -> [[u8; 8]; 24]
    requires { 192 ≤ length s.now }
    ensures { result ≡ map (decrypted k) (blocks 24 s.now) }
{
    if present_class(k.class) {
        present::decrypt_all(k.class == 24, k.words, field_blocks(s))
    } else {
        decrypt_blocks_mcrypton(k, s)
    }
}
