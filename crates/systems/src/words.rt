// Lines and numbers of a text.
ghost use Rattle.std.specs.Prelude.{◌≡◌, ◌+◌, ◌≤◌, length, drop};
ghost use Rattle.systems.specs.Text.{end_of, digits_of, number_of};

// Where the line ends that begins at `from`.
pub fn line_end(text: &[u8], from: usize) -> usize
    requires { from ≤ length text.now }
    ensures { result ≡ from + end_of (drop from text.now) }
{
    let rest = &text[from..];
    from + rest.iter().position(|b| *b == b'\n').unwrap_or(rest.len())
}

// The number that the digits up to a space or the line's end say, and where the line goes on.
fn read_digits(line: &[u8], from: usize) -> Option<(usize, usize)>
    requires { from ≤ length line.now }
    ensures { result ≡ digits_of 0 from (drop from line.now) }
{
    let mut value = 0;
    for i in from..line.len() {
        match line[i] {
            b' ' => return Some((value, i + 1)),
            c @ b'0'..=b'9' if value < 1000000 => value = value * 10 + usize::from(c - b'0'),
            _ => return None,
        }
    }
    Some((value, line.len() + 1))
}

// The number from a place of a line on, and where the line goes on.
pub fn read_number(line: &[u8], from: usize) -> Option<(usize, usize)>
    ensures { result ≡ number_of from (drop from line.now) }
{
    if line.len() <= from || line[from] == b' ' {
        return None;
    }
    read_digits(line, from)
}
