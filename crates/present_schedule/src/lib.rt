// The key schedules of PRESENT, for 80 and for 128 bits.
#![tactic(auto)]

ghost use Rattle.std.specs.Prelude.{◌≡◌, ◌<◌, ◌≤◌, ◌^◌, ℕ, true, false};
ghost use Rattle.present_rounds.specs.Layers.{sbox};
ghost use Rattle.present_schedule.specs.Registers.{KeyRegister, rest, round_key, keys_from, Updated, MovedKeys};

use std::marker::Model;

// A key register of 128 bits, or of 80: the round key, and to its right the other 64 or 16 bits.
#[derive(Clone, Copy)]
pub struct Register {
    high: u64,
    low: u64,
    wide: bool,
}

impl Model for Register {
    ghost Value = { KeyRegister };

    ghost view = { λ r. record { high = r.high; low = r.low; wide = r.wide } };

    ghost invariant = { λ r. r.low < 2 ^ rest r.wide };

    ghost inverse = { λ r. record { high = r.high; low = r.low; wide = r.wide } };
}

// The S-box in one number: its nibble x is S[x].
const BOX: u64 = 0x21748fe3da09b65c;

fn box_at(x: u64) -> u64
    requires { x < 16 }
    ensures { (result ≡ sbox x) × (result < 16) }
{
    (BOX >> (4 * x)) % 16
}

impl Register {
    pub fn of_128(high: u64, low: u64) -> Register
        ensures { result ≡ record { high = high; low = low; wide = true } }
    {
        Register {
            high,
            low,
            wide: true,
        }
    }

    pub fn of_80(high: u64, low: u16) -> Register
        ensures { result ≡ record { high = high; low = low; wide = false } }
    {
        Register {
            high,
            low: u64::from(low),
            wide: false,
        }
    }

    pub fn round_key(self) -> u64
        ensures { result ≡ round_key self }
    {
        self.high
    }

    // The update with the round counter i. What the rotation brings to the left goes through the S-box before it is put there.
    pub fn update(self, i: u64) -> Register
        ensures { Updated i self result }
    {
        let h = self.high;
        let l = self.low;
        let wide = self.wide;
        if wide {
            let a = box_at(h % 8 * 2 + l / 0x8000000000000000);
            let b = box_at(l / 0x800000000000000 % 16);
            let x = a * 0x1000000000000000 + b * 0x100000000000000 + l / 8 % 0x100000000000000;
            let y = l % 8 * 0x2000000000000000 + h / 8;
            return Register {
                high: x ^ (i / 4),
                low: y ^ (i % 4 * 0x4000000000000000),
                wide,
            };
        }
        let c = box_at(h % 8 * 2 + l / 0x8000);
        let x = c * 0x1000000000000000 + l % 0x8000 * 0x200000000000 + h / 0x80000;
        let y = h / 8 % 0x10000;
        Register {
            high: x ^ (i / 2),
            low: y ^ (i % 2 * 0x8000),
            wide,
        }
    }

    // The round keys as decryption takes them: the inverse of pLayer on K_1 to K_32.
    pub fn moved_keys(self) -> [u64; 32]
        ensures keys { MovedKeys self result }
        ensures below { (i : ℕ) → i ≤ 32 → keys_from self i < 2 ^ 64 }
    {
        // The proof knows the invariant of self once the body has read a field.
        let _ = &self.high;
        let mut k = [0u64; 32];
        let mut v = self;
        for (i, x) in k.iter_mut().enumerate() {
            *x = present_rounds::inverse_p_layer(v.round_key());
            v = v.update(i as u64 + 1);
        }
        k
    }
}
