// One round of mCrypton (document 000, 2.1, 2.2 and 4.1) on the 4 by 4 array of nibbles, held as its four row words.
#![tactic(auto)]

ghost use Rattle.std.specs.Prelude.{◌≡◌, ◌+◌, ◌*◌, ◌<◌};
ghost use Rattle.std.specs.Int.Bits.{bit_and};
ghost use Rattle.rounds.specs.Word.{rotate as rotated, row, nibble as nibble_of, xor4};
ghost use Rattle.rounds.specs.Array.{sbox, offset, opposite as opposite_of, mask as mask_of, cell, γ, π, τ, σ, φ, nibble_round, inverse_round, entry, word_row, word_round};
ghost use Rattle.rounds.specs.declared.Direction.TheVariants.{Encrypt, Decrypt};

#[derive(Clone, Copy, Debug, PartialEq, Eq)]
pub enum Direction {
    Encrypt,
    Decrypt,
}

// The tables are statics, since each use of a constant array copies it.
static SBOXES: [[u16; 16]; 4] = [
    [4, 15, 3, 8, 13, 10, 12, 0, 11, 5, 7, 14, 2, 6, 1, 9],
    [1, 12, 7, 10, 6, 13, 5, 3, 15, 11, 2, 0, 8, 4, 9, 14],
    [7, 14, 12, 2, 0, 9, 13, 10, 3, 15, 5, 8, 6, 4, 11, 1],
    [11, 0, 10, 7, 13, 6, 4, 2, 12, 14, 3, 9, 1, 5, 15, 8],
];

static MASKS: [u16; 4] = [14, 13, 11, 7];

static WORD_TABLES: [[u16; 16]; 4] = [
    [
        0x4404, 0xedb7, 0x2133, 0x8880, 0xcd95, 0xa8a2, 0xcc84, 0x0000, 0xa9b3, 0x4515, 0x6537,
        0xeca6, 0x2022, 0x6426, 0x0111, 0x8991,
    ],
    [
        0x1110, 0xc84c, 0x5376, 0x8a2a, 0x4266, 0xd95c, 0x5154, 0x1332, 0xdb7e, 0x9b3a, 0x0222,
        0x0000, 0x8808, 0x4044, 0x9918, 0xca6e,
    ],
    [
        0x3765, 0xa6ec, 0x84cc, 0x2220, 0x0000, 0x9189, 0x95cd, 0xa2a8, 0x3321, 0xb7ed, 0x1545,
        0x8088, 0x2664, 0x0444, 0xb3a9, 0x1101,
    ],
    [
        0x3a9b, 0x0000, 0x2a8a, 0x7653, 0x5cd9, 0x6642, 0x4440, 0x2202, 0x4cc8, 0x6eca, 0x3213,
        0x1899, 0x1011, 0x5451, 0x7edb, 0x0888,
    ],
];

// A word rotated left by k bits.
pub fn rotate(w: u16, k: u16) -> u16
    requires { (0 < k) × (k < 16) }
    ensures { result ≡ rotated k w }
{
    (w << k) | (w >> (16 - k))
}

// Nibble i of a word, counted from the left.
pub fn nibble(w: u16, i: usize) -> u16
    requires { i < 4 }
    ensures value { result ≡ nibble_of w i }
    ensures small { result < 16 }
{
    (w >> (12 - 4 * i)) % 16
}

// The word of four nibbles.
pub fn pack(a: u16, b: u16, c: u16, d: u16) -> u16
    requires { (a < 16) × (b < 16) × (c < 16) × (d < 16) }
    ensures { result ≡ ((a * 16 + b) * 16 + c) * 16 + d }
{
    ((a * 16 + b) * 16 + c) * 16 + d
}

// Entry x of S-box s, s taken modulo 4.
fn sub(s: usize, x: u16) -> u16
    requires { x < 16 }
    ensures entry { result ≡ sbox s x }
    ensures small { result < 16 }
{
    SBOXES[s % 4][usize::from(x)]
}

// S0 of nibble i of a word.
pub fn sub_nibble(w: u16, i: usize) -> u16
    requires { i < 4 }
    ensures entry { result ≡ sbox 0 (nibble_of w i) }
    ensures small { result < 16 }
{
    sub(0, nibble(w, i))
}

// Row j of γ: nibble i of the row w goes through the S-box with index i + j + o.
fn gamma_row(o: usize, j: usize, w: u16) -> u16
    requires { (o < 3) × (j < 4) }
    ensures { result ≡ row (λ i. sbox (i + j + o) (nibble_of w i)) }
{
    pack(
        sub(0 + j + o, nibble(w, 0)),
        sub(1 + j + o, nibble(w, 1)),
        sub(2 + j + o, nibble(w, 2)),
        sub(3 + j + o, nibble(w, 3)),
    )
}

#[inline(always)]
fn index_offset(d: Direction) -> usize
    ensures { (result ≡ offset d) × (result < 3) }
{
    match d {
        Direction::Encrypt => 0,
        Direction::Decrypt => 2,
    }
}

// γ, or its inverse for decryption.
fn gamma(d: Direction, a: [u16; 4]) -> [u16; 4]
    ensures { result ≡ γ d a }
{
    let o = index_offset(d);
    [
        gamma_row(o, 0, a[0]),
        gamma_row(o, 1, a[1]),
        gamma_row(o, 2, a[2]),
        gamma_row(o, 3, a[3]),
    ]
}

fn mask(s: usize) -> u16
    ensures { result ≡ mask_of s }
{
    MASKS[s % 4]
}

// Nibble j of column i of π.
fn pi_cell(a: [u16; 4], j: usize, i: usize) -> u16
    requires { (i < 4) × (j < 4) }
    ensures value { result ≡ xor4 (λ k. bit_and (cell a k i) (mask_of (i + j + k))) }
    ensures small { result < 16 }
{
    ((nibble(a[0], i) & mask(i + j + 0)) ^ (nibble(a[1], i) & mask(i + j + 1)))
        ^ ((nibble(a[2], i) & mask(i + j + 2)) ^ (nibble(a[3], i) & mask(i + j + 3)))
}

fn pi_row(a: [u16; 4], j: usize) -> u16
    requires { j < 4 }
    ensures { result ≡ row (λ i. xor4 (λ k. bit_and (cell a k i) (mask_of (i + j + k)))) }
{
    pack(
        pi_cell(a, j, 0),
        pi_cell(a, j, 1),
        pi_cell(a, j, 2),
        pi_cell(a, j, 3),
    )
}

fn pi(a: [u16; 4]) -> [u16; 4]
    ensures { result ≡ π a }
{
    [pi_row(a, 0), pi_row(a, 1), pi_row(a, 2), pi_row(a, 3)]
}

fn tau_row(a: [u16; 4], j: usize) -> u16
    requires { j < 4 }
    ensures { result ≡ row (λ i. cell a i j) }
{
    pack(
        nibble(a[0], j),
        nibble(a[1], j),
        nibble(a[2], j),
        nibble(a[3], j),
    )
}

// τ exchanges rows and columns.
fn tau(a: [u16; 4]) -> [u16; 4]
    ensures { result ≡ τ a }
{
    [tau_row(a, 0), tau_row(a, 1), tau_row(a, 2), tau_row(a, 3)]
}

// σ: key word i is added to row i.
pub fn sigma(k: [u16; 4], a: [u16; 4]) -> [u16; 4]
    ensures { result ≡ σ k a }
{
    [a[0] ^ k[0], a[1] ^ k[1], a[2] ^ k[2], a[3] ^ k[3]]
}

// One round by nibbles.
pub fn nibble_round(d: Direction, k: [u16; 4], a: [u16; 4]) -> [u16; 4]
    ensures { result ≡ nibble_round d k a }
{
    sigma(k, tau(pi(gamma(d, a))))
}

fn opposite(d: Direction) -> Direction
    ensures { result ≡ opposite_of d }
{
    match d {
        Direction::Encrypt => Direction::Decrypt,
        Direction::Decrypt => Direction::Encrypt,
    }
}

// One round of a direction taken back.
pub fn inverse_round(d: Direction, k: [u16; 4], a: [u16; 4]) -> [u16; 4]
    ensures { result ≡ inverse_round d k a }
{
    gamma(opposite(d), pi(tau(sigma(k, a))))
}

// The masks m_i m_(i+2) m_i m_(i+2), as words.
static ROW_MASKS: [u16; 4] = [0xebeb, 0xd7d7, 0xbebe, 0x7d7d];

// Row i of φ: nibble j is the exclusive or over k of nibble k masked by m with index i + j + k.
// The four nibbles are taken at once, from four rotations of the word: this takes a third off decryption.
fn phi_row(w: u16, i: usize) -> u16
    requires { i < 4 }
    ensures { result ≡ row (λ j. xor4 (λ k. bit_and (nibble_of w k) (mask_of (i + j + k)))) }
{
    let p = (i + 1) % 4;
    let q = (i + 2) % 4;
    let r = (i + 3) % 4;
    ((w & ROW_MASKS[i]) ^ (rotate(w, 4) & ROW_MASKS[p]))
        ^ ((rotate(w, 8) & ROW_MASKS[q]) ^ (rotate(w, 12) & ROW_MASKS[r]))
}

pub fn phi(a: [u16; 4]) -> [u16; 4]
    ensures { result ≡ φ a }
{
    [
        phi_row(a[0], 0),
        phi_row(a[1], 1),
        phi_row(a[2], 2),
        phi_row(a[3], 3),
    ]
}

// The lookup of the word path: entry x of word table s, s taken modulo 4; for decryption the entry turned by 8 bits.
// A round by words is inlined whole, so that where its direction is a literal nothing is left of the choice.
#[inline(always)]
fn look_up(d: Direction, s: usize, x: u16) -> u16
    requires { x < 16 }
    ensures { result ≡ entry d s x }
{
    let e = WORD_TABLES[s % 4][usize::from(x)];
    match d {
        Direction::Encrypt => e,
        Direction::Decrypt => rotate(e, 8),
    }
}

// New row i by words: the exclusive or over k of the lookup, in table i + k for encryption and i + k + 2 for decryption,
// of the nibble in row k, column i.
#[inline(always)]
fn word_row(d: Direction, a: [u16; 4], i: usize) -> u16
    requires { i < 4 }
    ensures { result ≡ word_row d a i }
{
    let o = index_offset(d);
    (look_up(d, i + 0 + o, nibble(a[0], i)) ^ look_up(d, i + 1 + o, nibble(a[1], i)))
        ^ (look_up(d, i + 2 + o, nibble(a[2], i)) ^ look_up(d, i + 3 + o, nibble(a[3], i)))
}

// One round by words.
#[inline(always)]
pub fn word_round(d: Direction, k: [u16; 4], a: [u16; 4]) -> [u16; 4]
    ensures { result ≡ word_round d k a }
{
    [
        word_row(d, a, 0) ^ k[0],
        word_row(d, a, 1) ^ k[1],
        word_row(d, a, 2) ^ k[2],
        word_row(d, a, 3) ^ k[3],
    ]
}
