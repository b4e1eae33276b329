//! Decimal numbers of a text.

ghost use Rattle.std.specs.Prelude.{◌≡◌, ℕ, ◌+◌, ◌-◌, ◌*◌, ◌<◌, true, List, IfSome};
ghost use Rattle.std.specs.Option.{IsSomeAnd, SomeIff};
ghost use Rattle.flow_check.specs.internal.Heading.{BeginsWithNumber, is_further};

/// The number that one more digit makes, where `value` is the number before it, if it has `started`. `None` for a byte
/// that is no digit, a digit after a leading zero, or a number of 2^64 and more.
fn with_digit(value: u64, started: bool, byte: u8) -> Option<u64>
    ensures { SomeIff result (is_further value started byte ≡ true) (value * 10 + (byte - 48)) }
{
    if !byte.is_ascii_digit() || (started && value == 0) {
        return None;
    }
    value.checked_mul(10)?.checked_add(u64::from(byte - b'0'))
}

/// The decimal number with which a text begins, and the text after the byte that ends it. `None` where the text does
/// not begin with a number below 2^64, without leading zeros, and that byte.
pub(crate) fn read_number(text: &[u8], end: u8) -> Option<(u64, &[u8])>
    requires { end < 48 }
    ensures found { IfSome result (λ r. BeginsWithNumber text.now end r.0 r.1.now) }
    ensures only { (n : ℕ) (rest : List ℕ) → BeginsWithNumber text.now end n rest →
        IsSomeAnd result (λ r. (r.0 ≡ n) × (r.1.now ≡ rest)) }
{
    let mut value: u64 = 0;
    for (index, &byte) in text.iter().enumerate() {
        if index > 0 && byte == end {
            return Some((value, &text[index + 1..]));
        }
        value = with_digit(value, index > 0, byte)?;
    }
    None
}
