// Prints what the leaves of the solver answer: every product and quotient of octets, the row operations, the parameters. What the
// published Rust answers stands in `stdout`; docs/notes says how it was made.
#![tactic(auto)]

ghost use Rattle.std.specs.Prelude.{◌≤◌};

use octet::{Octet, ZeroDivisor};
use params::BadCount;
use std::io;
use std::io::{ErrorKind, Write};

// Room for the longest line: a name, and two digits for each of 1,280 bytes.
const LINE_ROOM: usize = 4096;

// Holds a line until it ends, and passes it on by one write: `BufWriter` would take its room from the heap.
#[derive(Drop)]
struct Lines<W> {
    out: W,
    line: [u8; LINE_ROOM],
    used: usize,
    ghost in_room: { used ≤ 4096 },
}

impl<W: Write> Lines<W> {
    // The two hexadecimal digits of x, without the detour of `write!`: most of the text is such digits.
    fn put_hex(&mut self, x: u8) -> io::Result<()> {
        if LINE_ROOM - self.used < 2 {
            return Err(io::Error::from(ErrorKind::WriteZero));
        }
        self.line[self.used] = digit(x / 16);
        self.line[self.used + 1] = digit(x);
        self.used += 2;
        Ok(())
    }

    fn end_line(&mut self) -> io::Result<()> {
        writeln!(self)?;
        self.flush()
    }
}

impl<W: Write> Write for Lines<W> {
    fn write(&mut self, text: &[u8]) -> io::Result<usize> {
        let n = text.len().min(LINE_ROOM - self.used);
        self.line[self.used..self.used + n].copy_from_slice(&text[..n]);
        self.used += n;
        Ok(n)
    }

    fn flush(&mut self) -> io::Result<()> {
        let used = self.used;
        self.used = 0;
        self.out.write_all(&self.line[..used])?;
        self.out.flush()
    }
}

// The hexadecimal digit of a number's last four bits.
fn digit(x: u8) -> u8 {
    let d = x % 16;
    if d < 10 { b'0' + d } else { b'a' - 10 + d }
}

// Every product and every quotient of two octets, a line for each octet.

// x times each octet.
fn print_products<W: Write>(out: &mut Lines<W>, x: u8) -> io::Result<()> {
    write!(out, "mul {x}:")?;
    for y in 0..=255 {
        let product = Octet { value: x }.mul(Octet { value: y });
        out.put_hex(product.value)?;
    }
    out.end_line()
}

// Each octet over x.
fn print_quotients<W: Write>(out: &mut Lines<W>, x: u8) -> io::Result<()> {
    write!(out, "div {x}:")?;
    for y in 0..=255 {
        match (Octet { value: y }).div(Octet { value: x }) {
            Ok(quotient) => out.put_hex(quotient.value)?,
            Err(ZeroDivisor) => write!(out, " refused 3")?,
        }
    }
    out.end_line()
}

fn print_octets<W: Write>(out: &mut Lines<W>) -> io::Result<()> {
    for x in 0..=255 {
        print_products(out, x)?;
        print_quotients(out, x)?;
    }
    Ok(())
}

// The row operations at eight lengths and with seven scalars, always on the same two rows.

type Row = [u8; 1280];

// Begins with `first`; each byte is `step` more than the one before, modulo 256, and the step grows by `growth` each time.
fn made(first: u8, step: u8, growth: u8) -> Row {
    let mut row = [0u8; 1280];
    let mut x = first;
    let mut more = step;
    for place in row.iter_mut() {
        *place = x;
        x = x.wrapping_add(more);
        more = more.wrapping_add(growth);
    }
    row
}

// At place i: (7 i + 3) mod 256.
fn dest() -> Row {
    made(3, 7, 0)
}

// At place i: (i i + 11 i + 5) mod 256.
fn src() -> Row {
    made(5, 12, 2)
}

fn print_row<W: Write>(out: &mut Lines<W>, row: &[u8]) -> io::Result<()> {
    write!(out, ":")?;
    for x in row {
        out.put_hex(*x)?;
    }
    out.end_line()
}

fn print_added<W: Write>(out: &mut Lines<W>, n: usize) -> io::Result<()>
    requires { n ≤ 1280 }
{
    let mut row = dest();
    octets::add(&mut row[..n], &src()[..n]);
    write!(out, "add {n}")?;
    print_row(out, &row[..n])
}

fn print_scaled<W: Write>(out: &mut Lines<W>, n: usize, scalar: u8) -> io::Result<()>
    requires { n ≤ 1280 }
{
    let mut row = dest();
    octets::scale(&mut row[..n], Octet { value: scalar });
    write!(out, "scale {n} {scalar}")?;
    print_row(out, &row[..n])
}

fn print_multiple_added<W: Write>(out: &mut Lines<W>, n: usize, scalar: u8) -> io::Result<()>
    requires { n ≤ 1280 }
{
    let mut row = dest();
    octets::fma(&mut row[..n], &src()[..n], Octet { value: scalar });
    write!(out, "fma {n} {scalar}")?;
    print_row(out, &row[..n])
}

fn print_at<W: Write>(out: &mut Lines<W>, n: usize) -> io::Result<()>
    requires { n ≤ 1280 }
{
    print_added(out, n)?;
    for scalar in [0, 1, 2, 3, 29, 142, 255] {
        print_scaled(out, n, scalar)?;
        print_multiple_added(out, n, scalar)?;
    }
    Ok(())
}

fn print_rows<W: Write>(out: &mut Lines<W>) -> io::Result<()> {
    for n in [0, 1, 7, 8, 9, 255, 256, 1280] {
        print_at(out, n)?;
    }
    Ok(())
}

// The parameters at every count from 0 to 230, at the last of the table and past it.

fn print_sizes<W: Write>(out: &mut Lines<W>, k: usize) -> io::Result<()> {
    write!(out, "params {k}:")?;
    match params::params(k) {
        Ok(z) => write!(
            out,
            " {} {} {} {} {} {} {}",
            z.k, z.j, z.s, z.h, z.w, z.l, z.p
        )?,
        Err(BadCount) => write!(out, " refused 1")?,
    }
    out.end_line()
}

fn print_params<W: Write>(out: &mut Lines<W>) -> io::Result<()> {
    for k in (0..231).chain([56403, 56404]) {
        print_sizes(out, k)?;
    }
    Ok(())
}

fn main(rt: HostRuntime) -> io::Result<()> {
    let mut out = Lines {
        out: io::writer(&rt),
        line: [0; LINE_ROOM],
        used: 0,
    };
    print_octets(&mut out)?;
    print_rows(&mut out)?;
    print_params(&mut out)
}
