// The layers of a round of PRESENT (CHES 2007; ISO/IEC 29192-2), by tables.
#![tactic(auto)]

mod tables;

ghost use Rattle.std.specs.Prelude.{◌≡◌, ◌<◌, get_or};
ghost use Rattle.present_rounds.specs.Layers.{sbox, s_box_layer, p_layer, inverse_sBox_layer, inverse_pLayer};
ghost use Rattle.present_rounds.specs.Tables.{spreads, gather as gather_of, byte, Below};

// Byte i of the state, counted from the right.
fn byte_at(s: u64, i: u64) -> usize
    requires { i < 8 }
    ensures { result ≡ byte s i }
{
    ((s >> (8 * i)) % 256) as usize
}

// The entry of byte i of the state. The bounds are those of the two kinds of tables, so that the sums below fit.
fn spread_entry(s: u64, i: u64) -> u64
    requires { i < 8 }
    ensures { (result ≡ get_or (spreads sbox) (byte s i) 0) × (result < 0x0003000300030004) }
{
    tables::SPREAD_BOX[byte_at(s, i)]
}

fn gather_entry(t: &[u32; 256], s: u64, i: u64) -> u64
    requires { (Below 0x11111112 t.now) × (i < 8) }
    ensures { (result ≡ get_or t.now (byte s i) 0) × (result < 0x11111112) }
{
    u64::from(t[byte_at(s, i)])
}

// sBoxLayer and then pLayer, both at once.
pub fn both_layers(s: u64) -> u64
    ensures { result ≡ p_layer (s_box_layer s) }
{
    let a = spread_entry(s, 0) + spread_entry(s, 1) * 4;
    let b = spread_entry(s, 2) * 16 + spread_entry(s, 3) * 64;
    let c = spread_entry(s, 4) * 256 + spread_entry(s, 5) * 1024;
    let d = spread_entry(s, 6) * 4096 + spread_entry(s, 7) * 16384;
    (a + b) + (c + d)
}

// A box layer and the inverse of pLayer at once, by the table t.
fn gather(t: &[u32; 256], s: u64) -> u64
    requires { Below 0x11111112 t.now }
    ensures { result ≡ gather_of t.now s }
{
    let a = gather_entry(t, s, 0) + gather_entry(t, s, 1) * 0x100000000;
    let b = gather_entry(t, s, 2) * 2 + gather_entry(t, s, 3) * 0x200000000;
    let c = gather_entry(t, s, 4) * 4 + gather_entry(t, s, 5) * 0x400000000;
    let d = gather_entry(t, s, 6) * 8 + gather_entry(t, s, 7) * 0x800000000;
    (a + b) + (c + d)
}

// The inverses of both layers, in the order in which one table does both.
pub fn inverse_layers(s: u64) -> u64
    ensures { result ≡ inverse_pLayer (inverse_sBox_layer s) }
{
    gather(&tables::GATHER_BOX, s)
}

pub fn inverse_p_layer(s: u64) -> u64
    ensures { result ≡ inverse_pLayer s }
{
    gather(&tables::GATHER, s)
}

// pLayer alone: its inverse done twice.
pub fn p_layer(s: u64) -> u64
    ensures { result ≡ p_layer s }
{
    inverse_p_layer(inverse_p_layer(s))
}
