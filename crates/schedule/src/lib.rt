// The key schedule of mCrypton (document 000, 2.3): a register that is stepped forward or backward. No round key is stored.
#![tactic(auto)]

ghost use Rattle.std.specs.Prelude.{◌≡◌, ◌*◌, ◌<◌};
ghost use Rattle.std.specs.Int.Bits.{bit_xor};
ghost use Rattle.rounds.specs.Word.{nibble};
ghost use Rattle.schedule.specs.Schedule.{forward as forward_of, backward as backward_of, sub_word, last_word, round_key, back_start};

// A key register: up to eight 16-bit words, the word count and the round.
#[derive(Clone, Copy, Debug, PartialEq, Eq)]
pub struct Register {
    pub words: [u16; 8],
    pub count: usize,
    pub round: usize,
}

// The constants c_0 to c_12.
static CONSTANTS: [u16; 13] = [1, 2, 4, 8, 3, 6, 12, 11, 5, 10, 7, 14, 15];

// Nibble i of T, where w is word 0 of the register and c the constant of its round.
fn t_nibble(w: u16, c: u16, i: usize) -> u16
    requires { (c < 16) × (i < 4) }
    ensures value { result ≡ nibble (bit_xor (sub_word w) (c * 0x1111)) i }
    ensures small { result < 16 }
{
    rounds::sub_nibble(w, i) ^ c
}

impl Register {
    // The register of the next round.
    pub fn forward(self) -> Register
        requires { self.round < 12 }
        ensures { result ≡ forward_of self }
    {
        let u = self.words;
        let round = self.round + 1;
        let words = match self.count {
            4 => [u[1], u[2], u[3], rounds::rotate(u[0], 3), 0, 0, 0, 0],
            6 => [
                u[5],
                rounds::rotate(u[0], 3),
                u[1],
                u[2],
                rounds::rotate(u[3], 8),
                u[4],
                0,
                0,
            ],
            _ => [
                u[5],
                u[6],
                u[7],
                rounds::rotate(u[0], 3),
                u[1],
                u[2],
                u[3],
                rounds::rotate(u[4], 8),
            ],
        };
        Register {
            words,
            round,
            ..self
        }
    }

    // The register of the round before.
    pub fn backward(self) -> Register
        requires { 0 < self.round }
        ensures { result ≡ backward_of self }
    {
        let u = self.words;
        let round = self.round - 1;
        let words = match self.count {
            4 => [rounds::rotate(u[3], 13), u[0], u[1], u[2], 0, 0, 0, 0],
            6 => [
                rounds::rotate(u[1], 13),
                u[2],
                u[3],
                rounds::rotate(u[4], 8),
                u[5],
                u[0],
                0,
                0,
            ],
            _ => [
                rounds::rotate(u[3], 13),
                u[4],
                u[5],
                u[6],
                rounds::rotate(u[7], 8),
                u[0],
                u[1],
                u[2],
            ],
        };
        Register {
            words,
            round,
            ..self
        }
    }

    // The backward register that starts from the key: the register of round 12.
    pub fn backward_start(self) -> Register
        ensures { result ≡ back_start self }
    {
        let k = self.words;
        let words = match self.count {
            4 => [
                rounds::rotate(k[0], 9),
                rounds::rotate(k[1], 9),
                rounds::rotate(k[2], 9),
                rounds::rotate(k[3], 9),
                0,
                0,
                0,
                0,
            ],
            6 => [
                rounds::rotate(k[0], 6),
                rounds::rotate(k[1], 6),
                rounds::rotate(k[2], 6),
                rounds::rotate(k[3], 6),
                rounds::rotate(k[4], 6),
                rounds::rotate(k[5], 6),
                0,
                0,
            ],
            _ => [
                rounds::rotate(k[4], 3),
                rounds::rotate(k[5], 14),
                rounds::rotate(k[6], 3),
                rounds::rotate(k[7], 14),
                rounds::rotate(k[0], 14),
                rounds::rotate(k[1], 3),
                rounds::rotate(k[2], 14),
                rounds::rotate(k[3], 3),
            ],
        };
        Register {
            words,
            round: 12,
            ..self
        }
    }

    // The word that the last round key word is made from.
    fn last(self) -> u16
        ensures { result ≡ last_word self }
    {
        let u = self.words;
        let count = self.count;
        if count == 4 { u[0] } else { u[4] }
    }

    // The round key.
    pub fn round_key(self) -> [u16; 4]
        requires { self.round < 13 }
        ensures { result ≡ round_key self }
    {
        let u = self.words;
        let x = CONSTANTS[self.round];
        let w = u[0];
        [
            u[1] ^ t_nibble(w, x, 0) * 4096,
            u[2] ^ t_nibble(w, x, 1) * 256,
            u[3] ^ t_nibble(w, x, 2) * 16,
            self.last() ^ t_nibble(w, x, 3) * 1,
        ]
    }
}
