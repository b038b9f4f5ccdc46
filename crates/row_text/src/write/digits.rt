//! Numbers in a fixed number of digits.

ghost use Rattle.std.specs.Prelude.{◌≡◌, length};
ghost use Rattle.row_text.specs.Digits.{last_digits, two_digits, four_digits};

/// The last two digits of a number.
pub(crate) fn two_digits(number: u16) -> [u8; 2]
    ensures { result ≡ two_digits number }
{
    [b'0' + (number / 10 % 10) as u8, b'0' + (number % 10) as u8]
}

/// The last four digits of a number.
pub(crate) fn four_digits(number: u16) -> [u8; 4]
    ensures { result ≡ four_digits number }
{
    let [a, b] = two_digits(number / 100);
    let [c, d] = two_digits(number);
    [a, b, c, d]
}

/// Fills the bytes with the last digits of a number.
pub(crate) fn write_last_digits(number: u128, out: &mut [u8])
    ensures { out.new ≡ last_digits (length out.old) number }
{
    let mut left = number;
    for count in 0..out.len() {
        let at = out.len() - 1 - count;
        out[at] = b'0' + (left % 10) as u8;
        left /= 10;
    }
}
