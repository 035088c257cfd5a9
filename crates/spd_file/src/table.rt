ghost use Rattle.std.specs.Prelude.{◌≡◌, ℕ, Bool, List, string_bytes};
ghost use Rattle.std.specs.BTreeMap.{keys};
ghost use Rattle.std.specs.List.{list_all};
ghost use Rattle.toml.specs.Data.{get_member};
ghost use Rattle.toml.specs.View.{table_view};
ghost use Rattle.spd_file.specs.Line.{only_keys};
ghost use Rattle.spd_file.specs.inner.Borrowed.{data_now};

use crate::{LineKey, TopKey};
use toml::{Table, Value};

// The keys of a line, in their order.
const LINE_KEYS: [LineKey; 13] = [
    LineKey::Name,
    LineKey::Action,
    LineKey::Direction,
    LineKey::Local,
    LineKey::Remote,
    LineKey::Protocol,
    LineKey::LocalPort,
    LineKey::RemotePort,
    LineKey::Pfp,
    LineKey::Ipsec,
    LineKey::Mode,
    LineKey::GateLocal,
    LineKey::GateRemote,
];

// The value at a key.
pub fn find<'a>(table: &'a Table, key: &str) -> Option<&'a Value>
    ensures { data_now result ≡ get_member key.now (table_view table.now) }
{
    table.get(key)
}

// The keys that a kind of table has.
pub trait Key {
    ghost is_key: { List ℕ → Bool };

    fn is_key(text: &str) -> bool
        ensures { result ≡ is_key text.now };
}

impl Key for TopKey {
    ghost use Rattle.spd_file.specs.Policy.{is_top_key};

    ghost is_key = { is_top_key };

    fn is_key(text: &str) -> bool {
        text == TopKey::Format.as_str() || text == TopKey::Line.as_str()
    }
}

impl Key for LineKey {
    ghost use Rattle.spd_file.specs.Line.{is_line_key};

    ghost is_key = { is_line_key };

    fn is_key(text: &str) -> bool {
        LINE_KEYS.iter().any(|known| text == known.as_str())
    }
}

// Whether the table has keys of its kind alone.
pub fn has_keys<K: Key>(table: &Table) -> bool
    ensures { result ≡ only_keys K.is_key (table_view table.now) }
{
    are_keys::<K>(table)
}

// The same, of the list of the keys.
fn are_keys<K: Key>(table: &Table) -> bool
    ensures { result ≡ list_all (λ key. K.is_key (string_bytes key)) (keys table.now) }
{
    table.keys().all(|key| K::is_key(key.as_str()))
}
