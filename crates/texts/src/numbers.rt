// Numbers as they are written in a text.
ghost use Rattle.std.specs.Prelude.{◌≤◌};

// A number in digits of a base, of at least one digit.
fn digits(text: &[u8], base: u32) -> Option<u32>
    requires low { 2 ≤ base }
    requires high { base ≤ 36 }
{
    if text.is_empty() {
        return None;
    }
    text.iter().try_fold(0u32, |value, byte| {
        let digit = char::from(*byte).to_digit(base)?;
        value.checked_mul(base)?.checked_add(digit)
    })
}

// A number in decimal digits, or in hexadecimal ones behind 0x: no `FromStr` of the library reads both.
fn number(text: &[u8]) -> Option<u32> {
    match text {
        [b'0', b'x', rest @ ..] => digits(rest, 16),
        _ => digits(text, 10),
    }
}

// A number without a sign, if the type can hold it.
pub(crate) fn unsigned<N: TryFrom<u32>>(text: &[u8]) -> Option<N>
where
    N::Error: Drop,
{
    N::try_from(number(text)?).ok()
}

// A value of a cell, with a minus sign in front where it is below zero.
pub(crate) fn signed(text: &[u8]) -> Option<i16> {
    match text {
        [b'-', rest @ ..] => i16::try_from(-i64::from(number(rest)?)).ok(),
        _ => unsigned(text),
    }
}
