// The lines of a case, one by one.
ghost use Rattle.std.specs.Prelude.{◌≡◌, ◌-◌, ◌<◌};
ghost use Rattle.systems.specs.Digits.{is_row, is_bytes};
ghost use Rattle.systems.specs.Lined.{columns_of, head_of, filled, bits_on, octets_on, slab_on, buffers, turned, line_of};

use crate::digits;
use crate::told::{System, Turn};
use crate::words::read_number;

// L of the table for K, or 0.
fn columns(k: usize) -> usize
    ensures { result ≡ columns_of k }
{
    match params::params(k) {
        Ok(g) => g.l,
        Err(_) => 0,
    }
}

// `sys` and four numbers.
pub fn read_head(line: &[u8]) -> Option<System>
    ensures { result ≡ head_of line.now }
{
    if !line.starts_with(b"sys ") {
        return None;
    }
    let (k, h_at) = read_number(line, 4)?;
    let (h, m_at) = read_number(line, h_at)?;
    let (m, t_at) = read_number(line, m_at)?;
    let (t, end) = read_number(line, t_at)?;
    if end <= line.len() || 1 < h {
        return None;
    }
    Some(System {
        k,
        octet: h == 1,
        m,
        t,
        l: columns(k),
        bits: 0,
        octets: 0,
        slab: 0,
        due: true,
    })
}

// Whether digits are those of a row of l bits: zeros after them up to a whole byte.
#[tactic(auto, using(std::proofs::lemmas::Bool::Decides::nat_tests), unfolding(crate::specs::Digits::is_row))]
fn is_row(digits: &[u8], l: usize) -> bool
    requires { l < 9223372036854775808 }
    ensures { result ≡ is_row l digits.now }
{
    digits.len() == (l + 7) / 8 * 2 && digits::are_digits(digits) && digits::is_clear(digits, l)
}

// Whether digits are those of n bytes.
#[tactic(auto, using(std::proofs::lemmas::Bool::Decides::nat_tests), unfolding(crate::specs::Digits::is_bytes))]
fn is_bytes(digits: &[u8], n: usize) -> bool
    requires { n < 9223372036854775808 }
    ensures { result ≡ is_bytes n digits.now }
{
    digits.len() == 2 * n && digits::are_digits(digits)
}

// A row of the binary matrix. Rows say nothing where K has no table entry.
fn read_bits(digits: &[u8], s: System, bits: &mut [u8]) -> Option<System>
    ensures { filled result bits.new ≡ bits_on digits.now s bits.old }
{
    if s.l == 0 {
        return Some(s);
    }
    if bits.len().saturating_sub(s.bits) < s.l {
        return None;
    }
    if !is_row(digits, s.l) {
        return None;
    }
    let end = s.bits + s.l;
    digits::fill_bits(digits, &mut bits[s.bits..end]);
    Some(System { bits: end, ..s })
}

// An octet row. A case without octet rows has no such line.
// Not one with `read_bits`: the digits are told, tested and put in another way.
fn read_octets(digits: &[u8], s: System, octets: &mut [u8]) -> Option<System>
    ensures { filled result octets.new ≡ octets_on digits.now s octets.old }
{
    if !s.octet {
        return None;
    }
    if s.l == 0 {
        return Some(s);
    }
    if octets.len().saturating_sub(s.octets) < s.l {
        return None;
    }
    if !is_bytes(digits, s.l) {
        return None;
    }
    let end = s.octets + s.l;
    digits::fill_bytes(digits, &mut octets[s.octets..end]);
    Some(System { octets: end, ..s })
}

// The slab's bytes. A case has one such line.
fn read_slab(digits: &[u8], s: System, slab: &mut [u8]) -> Option<System>
    ensures { filled result slab.new ≡ slab_on digits.now s slab.old }
{
    if !s.due {
        return None;
    }
    let n = digits.len() / 2;
    if slab.len() < n {
        return None;
    }
    if !is_bytes(digits, n) {
        return None;
    }
    digits::fill_bytes(digits, &mut slab[..n]);
    Some(System {
        slab: n,
        due: false,
        ..s
    })
}

// A line after the `sys` line, if it has a place there.
pub fn read_line(
    line: &[u8],
    s: System,
    bits: &mut [u8],
    octets: &mut [u8],
    slab: &mut [u8],
) -> Option<Turn>
    ensures { turned result (buffers bits.new octets.new slab.new) ≡ line_of line.now s (buffers bits.old octets.old slab.old) }
{
    if let Some(digits) = line.strip_prefix(b"b ") {
        return Some(Turn::On(read_bits(digits, s, bits)?));
    }
    if let Some(digits) = line.strip_prefix(b"o ") {
        return Some(Turn::On(read_octets(digits, s, octets)?));
    }
    if let Some(digits) = line.strip_prefix(b"s ") {
        return Some(Turn::On(read_slab(digits, s, slab)?));
    }
    if line == b"go".as_slice() {
        return Some(Turn::Go);
    }
    None
}
