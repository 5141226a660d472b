// A u64 as text, in ASCII.
ghost use Rattle.std.specs.Prelude.{◌≡◌, ◌<◌, ◌≤◌, ◌%◌, ◌^◌, length, take, drop, SomeIff};
ghost use Rattle.std.specs.Str.Parse.{AllDigits, digits_value};
ghost use Rattle.text.specs.Digits.{last_digits, IsDigitCount, digit_code};

// Puts the decimal digits of n at the start of out, and answers how many there are.
pub fn decimal(n: u64, out: &mut [u8; 20]) -> usize
    ensures in_bounds { result ≤ length out.new }
    ensures len { IsDigitCount 10 1 n result }
    ensures digits { take result out.new ≡ last_digits 10 result n }
    ensures rest { drop result out.new ≡ drop result out.old }
{
    let k = digit_count(n);
    write_digits(n, 10, k, out);
    k
}

// How many decimal digits n takes, one at least.
fn digit_count(n: u64) -> usize
    ensures fewest { IsDigitCount 10 1 n result }
    ensures most { result ≤ 20 }
{
    match n.checked_ilog10() {
        Some(k) => k as usize + 1,
        None => 1,
    }
}

// Puts the last k digits of n in base at the start of out.
fn write_digits(n: u64, base: u64, k: usize, out: &mut [u8])
    requires base_nonzero { 0 < base }
    requires base_small { base ≤ 16 }
    requires in_bounds { k ≤ length out.old }
    ensures digits { take k out.new ≡ last_digits base k n }
    ensures rest { drop k out.new ≡ drop k out.old }
{
    let mut rest = n;
    for i in (0..k).rev() {
        out[i] = digit_code_of(rest % base);
        rest /= base;
    }
}

fn digit_code_of(d: u64) -> u8
    requires { d < 16 }
    ensures { result ≡ digit_code d }
{
    if d < 10 {
        b'0' + d as u8
    } else {
        b'a' - 10 + d as u8
    }
}

// The value of hexadecimal digits, large or small, of which the last eight count; none where a byte is no digit.
pub fn hex_value(digits: &[u8]) -> Option<u32>
    ensures { SomeIff result (AllDigits 16 digits.now) (digits_value 16 digits.now % 2 ^ 32) }
{
    let mut value = 0u32;
    for b in digits {
        value = value % 0x1000_0000 * 16 + char::from(*b).to_digit(16)?;
    }
    Some(value)
}

// A word: eight hexadecimal digits, and nothing else.
pub fn hex_word(digits: &[u8]) -> Option<u32>
    ensures { SomeIff result ((length digits.now ≡ 8) × AllDigits 16 digits.now) (digits_value 16 digits.now % 2 ^ 32) }
{
    if digits.len() != 8 {
        return None;
    }
    hex_value(digits)
}
