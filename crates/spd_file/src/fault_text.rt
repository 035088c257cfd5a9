ghost use Rattle.std.specs.Prelude.{◌≡◌, ◌≤◌, ◌++◌, [], codes, decimal};
ghost use Rattle.arrayvec.specs.ArrayString.{array_string_len};
ghost use Rattle.spd_file.specs.Fault.{policy_fault_text};

use crate::PolicyFault;
use arrayvec::ArrayString;
use itoa::Buffer;

// Room for the longest text.
type Text = ArrayString<64>;

impl PolicyFault {
    /// The text that is printed of it. It takes no memory.
    #[tactic(auto, using(crate::proofs::Shorts::short_texts))]
    pub fn text(self) -> ArrayString<64>
        ensures { result.bytes ≡ policy_fault_text self }
    {
        let mut text = ArrayString::new();
        match self {
            PolicyFault::Syntax => text.push_str("syntax"),
            PolicyFault::Top { key, why } => {
                text.push_str("top ");
                text.push_str(key.as_str());
                text.push_str(" ");
                text.push_str(why.as_str());
            }
            PolicyFault::TooManyLines => text.push_str("too many lines"),
            PolicyFault::Line { index, key, why } => {
                push_line(&mut text, index);
                text.push_str(key.as_str());
                text.push_str(" ");
                text.push_str(why.as_str());
            }
            PolicyFault::Rule { index, fault } => {
                push_line(&mut text, index);
                text.push_str(fault.as_str());
            }
            PolicyFault::DuplicateName { index } => {
                push_line(&mut text, index);
                text.push_str("duplicate name");
            }
            PolicyFault::NoMemory => text.push_str("out of memory"),
        }
        text
    }
}

// Begins an empty text with the number of a policy's line.
fn push_line(text: &mut Text, index: u32)
    requires { text.old.bytes ≡ [] }
    ensures bytes { text.new.bytes ≡ codes "line " ++ (decimal index ++ codes " ") }
    ensures len { array_string_len text.new ≤ 26 }
{
    let mut digits = Buffer::new();
    text.push_str("line ");
    text.push_str(digits.format(index));
    text.push_str(" ");
}
