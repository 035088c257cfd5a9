ghost use Rattle.std.specs.Prelude.{◌≡◌, ◌+◌, ◌<◌, ◌≤◌, ◌^◌, ◌/◌, ◌%◌, ◌∷◌, ◌++◌, []};
ghost use Rattle.std.specs.Char.{digit_char};
ghost use Rattle.arrayvec.specs.ArrayString.{array_string_len};
ghost use Rattle.sel_text.specs.Text.{four_text, group_text, six_text};

use arrayvec::ArrayString;
use itoa::Buffer;

// An address of IPv6 has 39 bytes, and one of IPv4 has fewer.
type AddressText = ArrayString<39>;

// Four numbers with dots between them.
pub fn text_of_four(address: u32) -> AddressText
    ensures { result.bytes ≡ four_text address }
{
    let [a, b, c, d] = address.to_be_bytes();
    let mut text = AddressText::new();
    let mut digits = Buffer::new();
    text.push_str(digits.format(a));
    text.push('.');
    text.push_str(digits.format(b));
    text.push('.');
    text.push_str(digits.format(c));
    text.push('.');
    text.push_str(digits.format(d));
    text
}

// Eight groups of four hexadecimal digits with `:` between them.
pub fn text_of_six(address: u128) -> AddressText
    ensures { result.bytes ≡ six_text address }
{
    let mut text = AddressText::new();
    push_group(&mut text, group_at(address, 7));
    for index in 1..8 {
        text.push(':');
        push_group(&mut text, group_at(address, 7 - index));
    }
    text
}

// A group by how many groups are below it.
fn group_at(address: u128, place: u32) -> u16
    requires { place < 8 }
    ensures { result ≡ address / 65536 ^ place % 65536 }
{
    (address >> (16 * place) & 0xffff) as u16
}

// Four hexadecimal digits.
fn push_group(text: &mut AddressText, group: u16)
    requires { array_string_len text.old + 4 ≤ 39 }
    ensures bytes { text.new.bytes ≡ text.old.bytes ++ group_text group }
    ensures len { array_string_len text.new ≡ array_string_len text.old + 4 }
{
    push_digit(text, group / 4096);
    push_digit(text, group / 256 % 16);
    push_digit(text, group / 16 % 16);
    push_digit(text, group % 16);
}

// The lower-case digit of a number below 16.
fn push_digit(text: &mut AddressText, value: u16)
    requires value { value < 16 }
    requires room { array_string_len text.old < 39 }
    ensures bytes { text.new.bytes ≡ text.old.bytes ++ digit_char value ∷ [] }
    ensures len { array_string_len text.new ≡ array_string_len text.old + 1 }
{
    let digit = char::from_digit(u32::from(value), 16).unwrap_or('0');
    text.push(digit);
}
