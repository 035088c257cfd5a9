ghost use Rattle.std.specs.Prelude.{◌≡◌, ◌<◌, ◌≤◌, ◌^◌, length, SomeIff, IsTrue};
ghost use Rattle.std.specs.List.{list_all};
ghost use Rattle.std.specs.Char.{is_ascii_digit};
ghost use Rattle.std.specs.Str.Parse.{digits_value, digits_value_after};
ghost use Rattle.sel_text.specs.Number.{is_number, number_meaning};

use crate::fault::TextFault;

// As many decimal digits as fit 64 bits, whatever they are.
const WORD_DIGITS: usize = 19;

/// Reads a decimal number of at most `most`: one or more digits, with no leading zero unless the
/// text is `0`. A number of any length that passes `most` is `OutOfRange`, every other text that is
/// no number `NotInGrammar`. Takes no memory, and time in proportion to the text.
pub fn read_number(text: &[u8], most: u128) -> Result<u128, TextFault>
    ensures { result ≡ number_meaning most text.now }
{
    if !is_number_text(text) {
        return Err(TextFault::NotInGrammar);
    }
    match value_of(text) {
        Some(value) if value <= most => Ok(value),
        _ => Err(TextFault::OutOfRange),
    }
}

/// Reads a number of at most `most`, as `read_number` does.
pub fn read_byte(text: &[u8], most: u8) -> Result<u8, TextFault>
    ensures { result ≡ number_meaning most text.now }
{
    let number = read_number(text, u128::from(most))?;
    Ok(number as u8)
}

// Whether the text is a number of any size.
fn is_number_text(text: &[u8]) -> bool
    ensures { result ≡ is_number text.now }
{
    match text.first() {
        None => false,
        Some(b'0') => text.len() == 1,
        Some(_) => are_digits(text),
    }
}

// Whether each byte is a decimal digit.
fn are_digits(text: &[u8]) -> bool
    ensures { result ≡ list_all is_ascii_digit text.now }
{
    text.iter().all(u8::is_ascii_digit)
}

// The number that digits write, if 128 bits hold it.
fn value_of(digits: &[u8]) -> Option<u128>
    requires { IsTrue (list_all is_ascii_digit digits.now) }
    ensures { SomeIff result (digits_value 10 digits.now < 2 ^ 128) (digits_value 10 digits.now) }
{
    let (word, rest) = digits.split_at(digits.len().min(WORD_DIGITS));
    value_after(u128::from(word_value(word)), rest)
}

// The number that digits write when they follow those of a number, if 128 bits hold it.
fn value_after(number: u128, digits: &[u8]) -> Option<u128>
    requires { IsTrue (list_all is_ascii_digit digits.now) }
    ensures { SomeIff result (digits_value_after 10 number digits.now < 2 ^ 128)
        (digits_value_after 10 number digits.now) }
{
    let mut value = number;
    for digit in digits {
        value = value
            .checked_mul(10)?
            .checked_add(u128::from(*digit - b'0'))?;
    }
    Some(value)
}

// The number that at most nineteen digits write.
fn word_value(digits: &[u8]) -> u64
    requires few { length digits.now ≤ WORD_DIGITS }
    requires digits { IsTrue (list_all is_ascii_digit digits.now) }
    ensures { result ≡ digits_value 10 digits.now }
{
    let mut value = 0;
    for digit in digits {
        value = value * 10 + u64::from(*digit - b'0');
    }
    value
}
