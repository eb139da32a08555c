// Numbers out of the input, one after the other.
ghost use Rattle.std.specs.Prelude.{◌≡◌, ◌%◌, ◌≤◌, ◌<◌, length};

// An entry, and where the input goes on.
#[derive(Clone, Copy)]
pub struct Entry<T> {
    pub value: T,
    pub next: usize,
}

// How many entries were read, and where the input goes on.
#[derive(Clone, Copy)]
pub struct Filled {
    pub count: usize,
    pub next: usize,
}

// The place of the first digit from at on, or the input's end.
pub(crate) fn seek(text: &[u8], at: usize) -> usize
    ensures { at ≤ result }
{
    let from = at.min(text.len());
    match text[from..].iter().position(|c| c.is_ascii_digit()) {
        Some(skipped) => at + skipped,
        None => at.max(text.len()),
    }
}

// A number with one digit more, of which the last eighteen are kept.
fn longer(value: u64, c: u8) -> u64 {
    value % 100000000000000000 * 10 + digit(c)
}

fn digit(c: u8) -> u64
    ensures { result < 16 }
{
    u64::from(c % 16)
}

// The first number from at on.
pub(crate) fn read(text: &[u8], at: usize) -> Entry<u64>
    ensures { at ≤ result.next }
{
    let first = seek(text, at);
    let mut value: u64 = 0;
    for i in first..text.len() {
        if !text[i].is_ascii_digit() {
            return Entry { value, next: i };
        }
        value = longer(value, text[i]);
    }
    Entry {
        value,
        next: first.max(text.len()),
    }
}

// An operation's word, out of kind, dest, src and scalar.
pub(crate) fn word(text: &[u8], at: usize) -> Entry<u64> {
    let kind = read(text, at);
    let dest = read(text, kind.next);
    let src = read(text, dest.next);
    let scalar = read(text, src.next);
    Entry {
        value: kind.value % 256 * 1099511627776
            + scalar.value % 256 * 4294967296
            + dest.value % 65536 * 65536
            + src.value % 65536,
        next: scalar.next,
    }
}

// The number, or the most that is asked for.
pub(crate) fn at_most(value: u64, most: usize) -> usize
    ensures { result ≤ most }
{
    // `usize` has no `From<u64>`.
    most.min(value as usize)
}

// The low eight digits of a number.
fn narrow(value: u64) -> u8
    ensures { result ≡ value % 256 }
{
    // The last byte; there is no `From<u64>`.
    (value % 256) as u8
}

// A row of an order.
pub(crate) fn row(text: &[u8], at: usize) -> Entry<usize> {
    let w = read(text, at);
    Entry {
        value: at_most(w.value, 65535),
        next: w.next,
    }
}

// A byte of a slab.
pub(crate) fn byte(text: &[u8], at: usize) -> Entry<u8> {
    let w = read(text, at);
    Entry {
        value: narrow(w.value),
        next: w.next,
    }
}

// Reads how many entries there are, and each of them.
pub(crate) fn fill<T: Copy, F: Fn(&[u8], usize) -> Entry<T>>(
    text: &[u8],
    at: usize,
    entries: &mut [T],
    read_entry: F,
) -> Filled
    requires { F.IsAlwaysCallable read_entry }
    ensures { result.count ≤ length entries.new }
{
    let first = read(text, at);
    let count = at_most(first.value, entries.len());
    let mut next = first.next;
    for entry in entries[..count].iter_mut() {
        let e = read_entry(text, next);
        *entry = e.value;
        next = e.next;
    }
    Filled { count, next }
}
