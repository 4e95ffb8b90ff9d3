// The bench for tag chips (document 02, request 4): the one block that leads to a wanted array after a round.
#![tactic(auto)]

ghost use Rattle.std.specs.Prelude.{◌≡◌, ◌<◌};
ghost use Rattle.schedule.specs.Schedule.{forward, times};
ghost use Rattle.chip_bench.specs.Bench.{taken_back, leading_block};
ghost use Rattle.chip_bench.specs.Calls.{bench_outcome, benching};

use rounds::Direction;
use schedule::Register;

// Why the bench refuses a call.
#[derive(Clone, Copy, Debug, PartialEq, Eq)]
pub enum BenchError {
    WrongKey,
    WrongSpan,
    NoSuchRound,
}

// The register at round r: u is that of round 0.
fn register_at(u: Register, r: usize) -> Register
    requires { (u.round ≡ 0) × (r < 13) }
    ensures { result ≡ times r forward u }
{
    let mut v = u;
    for _i in 0..r {
        let next = v.forward();
        v = next;
    }
    v
}

// From the array a after the round of the register v: the rounds from there to round 1 taken back, the register with them, then the first
// key addition.
fn take_back(v: Register, a: [u16; 4]) -> [u16; 4]
    requires { v.round < 13 }
    ensures { result ≡ taken_back v.round v a }
{
    let mut u = v;
    let mut x = a;
    for _i in 0..v.round {
        let y = rounds::inverse_round(Direction::Encrypt, u.round_key(), x);
        let before = u.backward();
        u = before;
        x = y;
    }
    rounds::sigma(u.round_key(), x)
}

// The block that leads to the array a after round r.
fn leading_block(key: &[u8], r: usize, a: [u8; 8]) -> [u8; 8]
    requires { r < 13 }
    ensures { result ≡ leading_block key.now r a }
{
    let v = register_at(mcrypton::start(key), r);
    mcrypton::block_bytes(take_back(v, mcrypton::block_words(a)))
}

// The one block whose array after the round is the wanted one.
pub fn bench_block(
    key: &[u8],
    round: usize,
    wanted: &[u8],
    out: &mut [u8],
) -> Result<(), BenchError>
    ensures { bench_outcome result out.new ≡ benching key.now round wanted.now out.old }
{
    if !mcrypton::key_length(key.len()) {
        return Err(BenchError::WrongKey);
    }
    if wanted.len() != 8 {
        return Err(BenchError::WrongSpan);
    }
    if out.len() != 8 {
        return Err(BenchError::WrongSpan);
    }
    if 12 < round {
        return Err(BenchError::NoSuchRound);
    }
    let b = leading_block(key, round, octets::block_at(wanted, 0));
    octets::copy_part(out, 0, &b);
    Ok(())
}
