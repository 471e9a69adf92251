ghost use Rattle.std.specs.Prelude.{◌≡◌, ◌<◌};
ghost use Rattle.init_table.specs.TableText.{number_of, negative_of, magnitude_of};

/// The number that a word writes, or None where it writes none from -128 to 127.
pub(crate) fn number(word: &[u8]) -> Option<i8>
    ensures { result ≡ number_of word.now }
{
    match word {
        [b'-', digits @ ..] => negative(magnitude(digits)?),
        digits => i8::try_from(magnitude(digits)?).ok(),
    }
}

/// The negative of a number, if it is at least -128.
fn negative(magnitude: u16) -> Option<i8>
    requires { magnitude < 1000 }
    ensures { result ≡ negative_of magnitude }
{
    i8::try_from(-i32::from(magnitude)).ok()
}

/// The value of one to three digits.
fn magnitude(digits: &[u8]) -> Option<u16>
    ensures { result ≡ magnitude_of digits.now }
{
    if digits.is_empty() || digits.len() > 3 {
        return None;
    }
    let mut value = 0;
    for byte in digits {
        if !byte.is_ascii_digit() {
            return None;
        }
        value = 10 * value + u16::from(byte - b'0');
    }
    Some(value)
}
