//! Digits, and those of decimals.
ghost use Rattle.std.specs.Prelude.{◌≡◌, ◌<◌};
ghost use Rattle.cell_types.specs.Date.{four_digits as digits_of_four, two_digits as digits_of_two};
ghost use Rattle.cell_types.specs.Decimal.{six_digits as digits_of_six, without_last_zeros as without_last_zeros_of};

/// How many millionths are one.
pub const ONE: u64 = 1_000_000;

/// Returns a number in two digits.
#[inline(always)]
pub fn two_digits(number: u8) -> [u8; 2]
    requires { number < 100 }
    ensures { result ≡ digits_of_two number }
{
    [b'0' + number / 10, b'0' + number % 10]
}

/// Returns a number in four digits.
#[inline(always)]
pub fn four_digits(number: u64) -> [u8; 4]
    requires { number < 10_000 }
    ensures { result ≡ digits_of_four number }
{
    let [a, b] = two_digits((number / 100) as u8);
    let [c, d] = two_digits((number % 100) as u8);
    [a, b, c, d]
}

/// Returns a number in six digits.
#[inline(always)]
pub fn six_digits(number: u32) -> [u8; 6]
    requires { number < 1_000_000 }
    ensures { result ≡ digits_of_six number }
{
    let [a, b] = two_digits((number / 10_000) as u8);
    let [c, d, e, f] = four_digits(u64::from(number % 10_000));
    [a, b, c, d, e, f]
}

/// Returns the digits as far as the last that is not 0.
pub fn without_last_zeros(digits: &[u8]) -> &[u8]
    ensures { result.now ≡ without_last_zeros_of digits.now }
{
    let mut len = digits.len();
    while len > 0 && digits[len - 1] == b'0' {
        len -= 1;
    }
    &digits[..len]
}
