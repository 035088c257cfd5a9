ghost use Rattle.std.specs.Prelude.{◌≡◌};
ghost use Rattle.std.specs.List.{list_all, list_any};
ghost use Rattle.toml.specs.View.{items_view, view};
ghost use Rattle.spd_file.specs.Flags.{flags_in, is_flag, is_flag_word, says};
ghost use Rattle.spd_file.specs.Values.{array_values};

use crate::Why;
use crate::items::are_texts;
use crate::value::KeyValue;
use spd_line::Pfp;
use toml::Value;

// No flag.
pub const NO_FLAGS: Pfp = Pfp {
    local: false,
    remote: false,
    protocol: false,
    local_port: false,
    remote_port: false,
};

// The flags of a line, none where the key doesn't stand.
impl KeyValue for Pfp {
    ghost use Rattle.spd_file.specs.Flags.{flags_of, no_flags};
    ghost use Rattle.spd_file.specs.Values.{optional};

    ghost meaning = { optional no_flags flags_of };

    fn read(value: Option<&Value>) -> Result<Pfp, Why> {
        match value {
            None => Ok(NO_FLAGS),
            Some(Value::Array(values)) => read_words(values.as_slice()),
            Some(_) => Err(Why::WrongKind),
        }
    }
}

// The flags that some values name.
#[tactic(auto, using(crate::proofs::Texts::flags_lemmas))]
fn read_words(values: &[Value]) -> Result<Pfp, Why>
    ensures { result ≡ flags_in (array_values (items_view values.now)) }
{
    if !are_texts(values) {
        return Err(Why::WrongKind);
    }
    if !are_flags(values) {
        return Err(Why::NotInGrammar);
    }
    Ok(Pfp {
        local: has_word(values, "local"),
        remote: has_word(values, "remote"),
        protocol: has_word(values, "protocol"),
        local_port: has_word(values, "local_port"),
        remote_port: has_word(values, "remote_port"),
    })
}

fn are_flags(values: &[Value]) -> bool
    ensures { result ≡ list_all (λ value. is_flag (view value)) values.now }
{
    values.iter().all(is_flag)
}

// Whether some value is the word.
fn has_word(values: &[Value], word: &str) -> bool
    ensures { result ≡ list_any (λ value. says word.now (view value)) values.now }
{
    values.iter().any(|value| says(word, value))
}

fn is_flag(value: &Value) -> bool
    ensures { result ≡ is_flag (view value.now) }
{
    matches!(value, Value::String(text) if is_flag_word(text.as_str()))
}

fn is_flag_word(text: &str) -> bool
    ensures { result ≡ is_flag_word text.now }
{
    matches!(
        text,
        "local" | "remote" | "protocol" | "local_port" | "remote_port"
    )
}

fn says(word: &str, value: &Value) -> bool
    ensures { result ≡ says word.now (view value.now) }
{
    matches!(value, Value::String(text) if text.as_str() == word)
}
