// Shows forms of the most bytes that are taken and past them: how long the text is, and each of its lines after how often it stands in a row.
#![tactic(auto)]

ghost use Rattle.std.specs.Prelude.{◌≤◌, ◌<◌, length};

use std::io;

// The form of 16,380 operations, all alike, with no order: 65,534 bytes.
fn fill_long(form: &mut [u8; 65534]) {
    form[..13].copy_from_slice(&[0, 0, 255, 250, 1, 0, 2, 0, 1, 0, 0, 63, 252]);
    for op in form[13..65533].chunks_exact_mut(4) {
        op.copy_from_slice(&[1, 0, 1, 0]);
    }
}

// Where the line that begins at a place ends, after its newline.
fn line_end(text: &[u8], from: usize) -> usize
    requires { from < length text.now }
    ensures { (from < result) × (result ≤ length text.now) }
{
    match text[from..].iter().position(|c| *c == b'\n') {
        Some(k) => from + k + 1,
        None => text.len(),
    }
}

// A line, after how often it stands in a row.
fn put_run(rt: &impl Print, times: usize, line: &[u8]) -> io::Result<()> {
    print!(rt; "{times} ")?;
    rt.write_all(line)
}

// Each line of a text, after how often it stands in a row.
fn put_runs(rt: &impl Print, text: &[u8]) -> io::Result<()> {
    if text.is_empty() {
        return Ok(());
    }
    let mut from = 0;
    let mut at = 0;
    let mut times = 0;
    while at < text.len() {
        let first = line_end(text, from);
        let end = line_end(text, at);
        if text[from..first] == text[at..end] {
            times += 1;
        } else {
            put_run(rt, times, &text[from..first])?;
            from = at;
            times = 1;
        }
        at = end;
    }
    put_run(rt, times, &text[from..line_end(text, from)])
}

fn show_once(rt: &impl Print, form: &[u8]) -> io::Result<()> {
    let mut list = [0u64; 16384];
    let mut order = [0usize; 256];
    let mut out = [0u8; 270000];
    let k = shown::show(form, &mut list, &mut order, &mut out);
    println!(rt; "{k} bytes")?;
    put_runs(rt, out.get(..k).unwrap_or(&[]))
}

fn show_zeros(rt: &impl Print) -> io::Result<()> {
    let form = [0u8; 65537];
    show_once(rt, &form[0..65536])?;
    show_once(rt, &form)
}

fn show_long(rt: &impl Print) -> io::Result<()> {
    let mut form = [0u8; 65534];
    fill_long(&mut form);
    show_once(rt, &form)
}

fn main(rt: HostRuntime) -> io::Result<()> {
    show_zeros(&rt)?;
    show_long(&rt)
}
