//! One line of a text: where it ends, what stands behind its first blanks, and its numbers.

ghost use Rattle.std.specs.Prelude.{◌≡◌, ◌+◌, ◌*◌, ◌<◌, ◌≤◌, ◌∷◌, true, false, length, IsTrue, None, Some};
ghost use Rattle.std.specs.Prelude.{MatchOption};
ghost use Rattle.std.specs.Char.{digit_value};
ghost use Rattle.std.specs.Option.{SomeIff};
ghost use Rattle.flow_text.specs.Lines.{lines_of, is_blank, is_digit, is_plain, after_blanks};
ghost use Rattle.flow_text.specs.StartText.{behind, ends_word};
ghost use Rattle.flow_text.specs.internal.TextWalk.{line_numbers, Gives};
ghost use Rattle.flow_limits.specs.Limits.{greatest_number};
ghost use Rattle.flow_text.specs.declared.text.fault.LineFault.TheVariants.{Byte, Number};

use crate::text::fault::LineFault;
use flow_limits::MAX_NUMBER;

/// Whether a byte is a space, a tab or a CR.
fn is_blank_byte(byte: u8) -> bool
    ensures { result ≡ is_blank byte }
{
    byte == b' ' || byte == b'\t' || byte == b'\r'
}

/// Whether a line has only digits and blanks.
fn is_plain_line(line: &[u8]) -> bool
    ensures { result ≡ is_plain line.now }
{
    line.iter()
        .all(|byte| byte.is_ascii_digit() || is_blank_byte(*byte))
}

/// The first line, without its LF, of a text that has bytes; and the text behind it.
pub(crate) fn first_line(text: &[u8]) -> (&[u8], &[u8])
    requires { 0 < length text.now }
    ensures lines { lines_of text.now ≡ result.0.now ∷ lines_of result.1.now }
    ensures shorter { length result.1.now < length text.now }
{
    for (i, byte) in text.iter().enumerate() {
        if *byte == b'\n' {
            let (line, rest) = text.split_at(i);
            return (line, &rest[1..]);
        }
    }
    text.split_at(text.len())
}

/// The line without the blanks at its front.
pub(crate) fn without_blanks(line: &[u8]) -> &[u8]
    ensures { result.now ≡ after_blanks line.now }
{
    for (i, byte) in line.iter().enumerate() {
        if !is_blank_byte(*byte) {
            return &line[i..];
        }
    }
    &line[line.len()..]
}

/// Whether nothing follows, or a blank first.
fn ends_word(rest: &[u8]) -> bool
    ensures { result ≡ ends_word rest.now }
{
    match rest.first() {
        Some(byte) => is_blank_byte(*byte),
        None => true,
    }
}

/// What stands behind a word, where the line begins with it after blanks, and a blank or the line's end follows.
pub(crate) fn behind_word<'a>(line: &'a [u8], word: &[u8]) -> Option<&'a [u8]>
    ensures { MatchOption result (behind word.now line.now ≡ None) (λ rest. behind word.now line.now ≡ Some rest.now) }
{
    match without_blanks(line).strip_prefix(word) {
        Some(rest) if ends_word(rest) => Some(rest),
        _ => None,
    }
}

/// The number with one more digit; `None` where that is above `MAX_NUMBER`.
fn with_digit(number: u32, byte: u8) -> Option<u32>
    requires { IsTrue (is_digit byte) }
    ensures { SomeIff result (number * 10 + digit_value byte ≤ greatest_number) (number * 10 + digit_value byte) }
{
    let wide = u64::from(number) * 10 + u64::from(byte - b'0');
    if wide <= u64::from(MAX_NUMBER) {
        Some(wide as u32)
    } else {
        None
    }
}

/// The fault of a line that has a number above `MAX_NUMBER`: `Byte` comes before `Number`.
fn fault_of_great(line: &[u8]) -> LineFault
    ensures plain { is_plain line.now ≡ true → result ≡ Number }
    ensures other { is_plain line.now ≡ false → result ≡ Byte }
{
    if is_plain_line(line) {
        LineFault::Number
    } else {
        LineFault::Byte
    }
}

/// Replaces `numbers` by the line's numbers.
#[tactic(auto, unfolding(crate::specs::internal::TextWalk::line_numbers))]
pub(crate) fn numbers_in(line: &[u8], numbers: &mut Vec<u32>) -> Result<(), LineFault>
    ensures { Gives LineFault.Memory (λ _. numbers.new.items) result (line_numbers line.now) }
{
    numbers.clear();
    let mut begun: Option<u32> = None;
    for byte in line {
        if is_blank_byte(*byte) {
            match begun {
                Some(number) => {
                    numbers.push(number)?;
                    begun = None;
                }
                None => {}
            }
        } else if byte.is_ascii_digit() {
            match with_digit(begun.unwrap_or(0), *byte) {
                Some(number) => begun = Some(number),
                None => return Err(fault_of_great(line)),
            }
        } else {
            return Err(LineFault::Byte);
        }
    }
    if let Some(number) = begun {
        numbers.push(number)?;
    }
    Ok(())
}
