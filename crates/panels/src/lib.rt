// Wall panels (document 02, request 8): counter mode of NIST SP 800-38A with mCrypton.
#![tactic(auto)]

ghost use Rattle.std.specs.Prelude.{◌≡◌, ◌*◌, ◌≤◌, length, take};
ghost use Rattle.mcrypton.specs.Bytes.{words_of};
ghost use Rattle.modes.specs.Xor.{xor_bytes};
ghost use Rattle.panels.specs.Ctr.{T, joined, ctr};
ghost use Rattle.panels.specs.Steps.{Counters, encrypted_from, block_of};
ghost use Rattle.panels.specs.Calls.{panel_outcome, panelling};

use schedule::Register;

// Why a panel is refused.
#[derive(Clone, Copy, Debug, PartialEq, Eq)]
pub enum PanelError {
    WrongKey,
    WrongSpan,
    Overlong,
}

// The words of a counter block, high byte first.
fn counter_words(x: u64) -> [u16; 4]
    ensures { result ≡ words_of (T x) }
{
    mcrypton::block_words(x.to_be_bytes())
}

// The words of n counter blocks, from c on. The counter wraps at 64 bits.
fn counter_blocks(c: u64, n: usize) -> [[u16; 4]; 32]
    requires { n ≤ 32 }
    ensures { Counters c n result }
{
    let mut a = [[0u16; 4]; 32];
    let mut t = c;
    for x in a[..n].iter_mut() {
        *x = counter_words(t);
        t = t.wrapping_add(1);
    }
    a
}

// The bytes of the first n blocks, one after the other.
fn joined_blocks(a: [[u16; 4]; 32], n: usize) -> [u8; 256]
    requires { n ≤ 32 }
    ensures { take (8 * n) result ≡ joined (block_of a) n }
{
    let mut s = [0u8; 256];
    for i in 0..n {
        let y = mcrypton::block_bytes(a[i]);
        octets::copy_part(&mut s, 8 * i, &y);
    }
    s
}

// p added to the leading bytes of s.
fn add_bytes(p: &[u8], s: &[u8], out: &mut [u8])
    requires { (length p.now ≤ length s.now) × (length out.old ≡ length p.now) }
    ensures { out.new ≡ xor_bytes p.now s.now }
{
    for (i, x) in out.iter_mut().enumerate() {
        *x = p[i] ^ s[i];
    }
}

// At most one block, for which a walk would be slow.
fn seal_block(u: Register, c: u64, p: &[u8], out: &mut [u8])
    requires { (u.round ≡ 0) × (length p.now ≤ 8) × (length out.old ≡ length p.now) }
    ensures { out.new ≡ ctr (encrypted_from u) c p.now }
{
    let o = mcrypton::encrypt_bytes(u, mcrypton::block_bytes(counter_words(c)));
    add_bytes(p, &o, out);
}

// At most 32 blocks, of which the last may be a part.
fn seal_part(u: Register, c: u64, p: &[u8], out: &mut [u8])
    requires { (u.round ≡ 0) × (length p.now ≤ 256) × (length out.old ≡ length p.now) }
    ensures { out.new ≡ ctr (encrypted_from u) c p.now }
{
    let n = (p.len() + 7) / 8;
    let mut a = counter_blocks(c, n);
    mcrypton::encrypt_all(u, &mut a[..n]);
    let s = joined_blocks(a, n);
    add_bytes(p, &s, out);
}

// Counter mode: 32 blocks a walk, and the rest.
fn counter_mode(u: Register, first: u64, p: &[u8], out: &mut [u8])
    requires { (u.round ≡ 0) × (length out.old ≡ length p.now) }
    ensures { out.new ≡ ctr (encrypted_from u) first p.now }
{
    let n = p.len() / 256;
    let mut c = first;
    for i in 0..n {
        let a = 256 * i;
        seal_part(u, c, &p[a..a + 256], &mut out[a..a + 256]);
        c = c.wrapping_add(32);
    }
    let a = 256 * n;
    if p.len() - a <= 8 {
        seal_block(u, c, &p[a..], &mut out[a..]);
        return;
    }
    seal_part(u, c, &p[a..], &mut out[a..]);
}

// A panel sealed, and with the same key and first number opened.
pub fn panel(key: &[u8], first: u64, panel: &[u8], out: &mut [u8]) -> Result<(), PanelError>
    ensures { panel_outcome result out.new ≡ panelling key.now first panel.now out.old }
{
    if !mcrypton::key_length(key.len()) {
        return Err(PanelError::WrongKey);
    }
    if out.len() != panel.len() {
        return Err(PanelError::WrongSpan);
    }
    if 65536 < panel.len() {
        return Err(PanelError::Overlong);
    }
    counter_mode(mcrypton::start(key), first, panel, out);
    Ok(())
}
