// Reads a stored list from standard input and writes it as text, or the number of its refusal.
#![tactic(auto)]

use std::io;

// The text of the longest form that is shown fits: 16,380 lines of operations, 16 bytes at most, a first line and the order's.
fn main(rt: HostRuntime) -> io::Result<()> {
    let mut form = [0u8; 65537];
    let n = reading::read_full(&mut rt.reader(), &mut form)?;
    let mut list = [0u64; 16384];
    let mut order = [0usize; 256];
    let mut out = [0u8; 270000];
    let k = shown::show(&form[..n], &mut list, &mut order, &mut out);
    if let Some(text) = out.get(..k) {
        rt.write_all(text)?;
    }
    Ok(())
}
