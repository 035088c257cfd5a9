ghost use Rattle.std.specs.Prelude.{◌≡◌, ◌≢◌, ◌≤◌, [], Ok, Err, IfOk, IfErr, length, map};
ghost use Rattle.toml.specs.View.{items_view, table_view, view};
ghost use Rattle.spd_line.specs.Policy.{IsPolicy, most_lines};
ghost use Rattle.spd_file.specs.declared.fault.PolicyFault.{PolicyFault};
ghost use Rattle.spd_file.specs.inner.Borrowed.{data_now};
ghost use Rattle.spd_file.specs.Policy.{at_top, format_of, lines_behind};
ghost use Rattle.spd_file.specs.Policy.{policy_lines, policy_meaning, policy_of};
ghost use Rattle.spd_file.specs.Values.{array_values, required};

use crate::line::read_value;
use crate::table::{find, has_keys};
use crate::{PolicyFault, TopKey, Why};
use spd_line::{LineList, MOST_LINES};
use std::alloc::Global;
use std::collections::BTreeSet;
use toml::{Table, Value};

/// Reads a policy file. Takes time by the length of the file and, for n lines, n log n comparisons
/// of names.
pub fn read_policy(alloc: Global, bytes: &[u8]) -> Result<LineList, PolicyFault>
    ensures lines { IfOk result (λ lines. policy_meaning bytes.now ≡ Ok lines) }
    ensures fault { IfErr result (λ fault. fault ≢ PolicyFault.NoMemory
        → policy_meaning bytes.now ≡ Err fault) }
    ensures policy { IfOk result IsPolicy }
{
    let Ok(text) = str::from_utf8(bytes) else {
        return Err(PolicyFault::Syntax);
    };
    match toml::table_from_str(alloc, text) {
        Ok(table) => read_table(alloc, &table),
        Err(error) if error.is_memory() => Err(PolicyFault::NoMemory),
        Err(_) => Err(PolicyFault::Syntax),
    }
}

fn read_table(alloc: Global, table: &Table) -> Result<LineList, PolicyFault>
    ensures lines { IfOk result (λ lines. policy_of (table_view table.now) ≡ Ok lines) }
    ensures fault { IfErr result (λ fault. fault ≢ PolicyFault.NoMemory
        → policy_of (table_view table.now) ≡ Err fault) }
    ensures policy { IfOk result IsPolicy }
{
    if !has_keys::<TopKey>(table) {
        return Err(PolicyFault::Top {
            key: TopKey::Unknown,
            why: Why::NotHere,
        });
    }
    at(
        TopKey::Format,
        read_format(find(table, TopKey::Format.as_str())),
    )?;
    match find(table, TopKey::Line.as_str()) {
        None => Ok(LineList::new(alloc)),
        Some(Value::Array(values)) => read_values(alloc, values.as_slice()),
        Some(_) => Err(PolicyFault::Top {
            key: TopKey::Line,
            why: Why::WrongKind,
        }),
    }
}

// Names the key of what is wrong with a value.
fn at<T>(key: TopKey, outcome: Result<T, Why>) -> Result<T, PolicyFault>
    ensures { result ≡ at_top key outcome }
{
    match outcome {
        Ok(value) => Ok(value),
        Err(why) => Err(PolicyFault::Top { key, why }),
    }
}

// The version of the form, which is 1.
fn read_format(value: Option<&Value>) -> Result<(), Why>
    ensures { result ≡ required format_of (data_now value.entry) }
{
    match value {
        None => Err(Why::Missing),
        Some(Value::Integer(1)) => Ok(()),
        Some(Value::Integer(_)) => Err(Why::OutOfRange),
        Some(_) => Err(Why::WrongKind),
    }
}

// The lines that some values are, no two of one name.
fn read_values(alloc: Global, values: &[Value]) -> Result<LineList, PolicyFault>
    ensures lines { IfOk result (λ lines.
        policy_lines (array_values (items_view values.now)) ≡ Ok lines) }
    ensures fault { IfErr result (λ fault. fault ≢ PolicyFault.NoMemory
        → policy_lines (array_values (items_view values.now)) ≡ Err fault) }
    ensures policy { IfOk result IsPolicy }
{
    if values.len() > MOST_LINES as usize {
        return Err(PolicyFault::TooManyLines);
    }
    read_each(alloc, values)
}

fn read_each(alloc: Global, values: &[Value]) -> Result<LineList, PolicyFault>
    requires { length values.now ≤ most_lines }
    ensures lines { IfOk result (λ lines. lines_behind [] (map view values.now) ≡ Ok lines) }
    ensures fault { IfErr result (λ fault. fault ≢ PolicyFault.NoMemory
        → lines_behind [] (map view values.now) ≡ Err fault) }
    ensures policy { IfOk result IsPolicy }
{
    let mut lines = LineList::new(alloc);
    let mut names = BTreeSet::new(alloc);
    for value in values {
        let index = lines.len() as u32 + 1;
        let line = read_value(alloc, index, value)?;
        let is_new = names.insert(line.parts().name)?;
        if !is_new {
            return Err(PolicyFault::DuplicateName { index });
        }
        lines.push(line)?;
    }
    Ok(lines)
}
