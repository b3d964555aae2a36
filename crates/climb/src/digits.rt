// Numbers that digits write.
ghost use Rattle.std.specs.Prelude.{◌≡◌, ◌≤◌, ◌<◌};
ghost use Rattle.climb.specs.Digits.{digit_value, is_decimal, is_digit, is_pattern, value_of};
ghost use Rattle.climb.specs.Inside.{is_number, number_if};

// The value of a digit, 0 to 9 or a to f; none where the byte is no digit in that base.
fn digit_value(b: u8, base: u32) -> Option<u32>
    requires { base ≤ 16 }
    ensures { result ≡ number_if (is_digit base b) (digit_value b) }
{
    let value = match b {
        b'0'..=b'9' => b - b'0',
        b'a'..=b'f' => b - b'a' + 10,
        _ => return None,
    };
    let value = u32::from(value);
    if value < base { Some(value) } else { None }
}

// The number below 2^32 that digits write in a base.
fn value_of(digits: &[u8], base: u32) -> Option<u32>
    requires { (0 < base) × (base ≤ 16) }
    ensures { result ≡ number_if (is_number base digits.now) (value_of base digits.now) }
{
    let mut value: u32 = 0;
    for &b in digits {
        let digit = digit_value(b, base)?;
        value = value.checked_mul(base)?.checked_add(digit)?;
    }
    Some(value)
}

// A decimal without leading zeros.
pub(crate) fn decimal(field: &[u8]) -> Option<u32>
    ensures { result ≡ number_if (is_decimal field.now) (value_of 10 field.now) }
{
    if field.is_empty() || field[0] == b'0' && 1 < field.len() {
        return None;
    }
    value_of(field, 10)
}

// A bit pattern: 8 hexadecimal digits.
pub(crate) fn pattern(field: &[u8]) -> Option<u32>
    ensures { result ≡ number_if (is_pattern field.now) (value_of 16 field.now) }
{
    if field.len() != 8 {
        return None;
    }
    value_of(field, 16)
}
