// Reads a sheet from standard input and writes its listing. One byte more than the largest sheet has is read, so that a longer input is seen to be too long.
#![tactic(auto)]

fn main(rt: HostRuntime) {
    let mut sheet = [0u8; 53265];
    let n = show::fill(&mut rt.stdin(), &mut sheet);
    let mut text = [0u8; 10553];
    let k = listing::list(&sheet[..n], &mut text).unwrap_or(0);
    // The status is 0 whatever comes of it.
    match rt.write_all(&text[..k]) {
        Ok(()) | Err(_) => {}
    }
}
