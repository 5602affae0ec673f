// Numbers that a field spells in digits. Letters are digits in either case.
ghost use Rattle.std.specs.Prelude.{◌≡◌, ◌^◌, ◌<◌, ◌≤◌, Bool, length, IfSome};
ghost use Rattle.text.specs.Number.{number_from, number_of, decimal_of, hex_byte_of, hex_word_of};
ghost use Rattle.text.specs.Spelled.{plain_text, decimal_text, hex_text, byte_text, ReadsBack};

// The number that digits of a base spell, without the sign that `u32::from_str_radix` takes. Eight digits fit 32 bits.
fn digits(base: u32, field: &[u8]) -> Option<u32>
    requires { (2 ≤ base) × ((base ≤ 16) × (length field.now ≤ 8)) }
    ensures value { result ≡ number_from base 0 field.now }
    ensures small { IfSome result (λ n. n < base ^ length field.now) }
{
    let mut n = 0;
    for b in field {
        n = n * base + char::from(*b).to_digit(base)?;
    }
    Some(n)
}

// The same, of `least` to `most` digits only.
fn number(base: u32, least: usize, most: usize, field: &[u8]) -> Option<u32>
    requires { (2 ≤ base) × ((base ≤ 16) × (most ≤ 8)) }
    ensures value { result ≡ number_of base least most field.now }
    ensures small { IfSome result (λ n. n < base ^ most) }
{
    if (least..=most).contains(&field.len()) {
        digits(base, field)
    } else {
        None
    }
}

// One to three decimal digits and nothing else. Every number below 1000 is read as it is usually written.
pub fn decimal(field: &[u8]) -> Option<u16>
    ensures value { result ≡ decimal_of field.now }
    ensures back { ReadsBack decimal_of decimal_text 1000 }
{
    u16::try_from(number(10, 1, 3, field)?).ok()
}

// Exactly two hexadecimal digits. Every byte is read as it is usually written.
pub fn hex_byte(field: &[u8]) -> Option<u8>
    ensures value { result ≡ hex_byte_of field.now }
    ensures back { (capitals : Bool) → ReadsBack hex_byte_of (byte_text capitals) (2 ^ 8) }
{
    u8::try_from(number(16, 2, 2, field)?).ok()
}

// One to eight hexadecimal digits. Every number of 32 bits is read as it is usually written.
pub fn hex_word(field: &[u8]) -> Option<u32>
    ensures value { result ≡ hex_word_of field.now }
    ensures back { (capitals : Bool) → ReadsBack hex_word_of (hex_text capitals) (2 ^ 32) }
{
    number(16, 1, 8, field)
}
