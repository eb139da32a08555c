// Hexadecimal digits into bytes and bits.
ghost use Rattle.std.specs.Prelude.{◌≡◌, true, ◌+◌, ◌*◌, ◌≤◌, ◌<◌, length, get_or, take, drop, leb, is_some, MatchOption};
ghost use Rattle.systems.specs.Digits.{nibble_of, are_digits, bytes_of, bits_in, clear};

// The value of a digit. It does not ask whether the byte is one, so that a loop over it becomes vector code.
#[tactic(auto, using(std::proofs::lemmas::Bool::Decides::nat_tests), unfolding(crate::specs::Digits::nibble_of))]
fn digit_value(digit: u8) -> u8
    requires { nibble_of digit < 16 }
    ensures { result ≡ nibble_of digit }
{
    if digit <= b'9' {
        digit - b'0'
    } else {
        digit - b'a' + 10
    }
}

// The value of a digit, where it is one.
#[tactic(auto, using(std::proofs::lemmas::Bool::Decides::nat_tests), unfolding(crate::specs::Digits::nibble_of))]
fn nibble(c: u8) -> Option<u8>
    ensures is { is_some result ≡ leb (nibble_of c) 15 }
    ensures value { MatchOption result (nibble_of c ≡ 16) (λ d. (d ≡ nibble_of c) × (d < 16)) }
{
    match c {
        b'0'..=b'9' | b'a'..=b'f' => Some(digit_value(c)),
        _ => None,
    }
}

// Whether every byte is a digit.
pub fn are_digits(digits: &[u8]) -> bool
    ensures { result ≡ are_digits digits.now }
{
    digits.iter().all(|c| nibble(*c).is_some())
}

// The byte that two digits say.
fn byte(high: u8, low: u8) -> u8
    requires { (nibble_of high < 16) × (nibble_of low < 16) }
    ensures { result ≡ nibble_of high * 16 + nibble_of low }
{
    digit_value(high) * 16 + digit_value(low)
}

// The bytes of twice as many digits.
pub fn fill_bytes(digits: &[u8], out: &mut [u8])
    requires { (are_digits digits.now ≡ true) × (length digits.now ≡ 2 * length out.old) }
    ensures { out.new ≡ bytes_of digits.now }
{
    for (i, x) in out.iter_mut().enumerate() {
        *x = byte(digits[2 * i], digits[2 * i + 1]);
    }
}

// Bit i of the digits, from the top.
fn bit(digits: &[u8], i: usize) -> u8
    requires { i < 4 * length digits.now }
    ensures { result ≡ get_or (bits_in digits.now) i 0 }
{
    let d = nibble(digits[i / 4]).unwrap_or(0);
    (d >> (3 - i % 4)) % 2
}

// The first bits of the digits, from the top.
pub fn fill_bits(digits: &[u8], out: &mut [u8])
    requires { length out.old ≤ 4 * length digits.now }
    ensures { out.new ≡ take (length out.old) (bits_in digits.now) }
{
    for (i, x) in out.iter_mut().enumerate() {
        *x = bit(digits, i);
    }
}

// Whether every bit from a place on is 0.
pub fn is_clear(digits: &[u8], from: usize) -> bool
    requires { 4 * length digits.now < 18446744073709551616 }
    ensures { result ≡ clear (drop from (bits_in digits.now)) }
{
    for i in from..4 * digits.len() {
        if bit(digits, i) != 0 {
            return false;
        }
    }
    true
}
