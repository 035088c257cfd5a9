ghost use Rattle.std.specs.Prelude.{◌≡◌, ◌≢◌, Ok, Err, IfOk, IfErr};
ghost use Rattle.toml.specs.View.{view};
ghost use Rattle.spd_line.specs.Policy.{final_name};
ghost use Rattle.spd_file.specs.declared.fault.PolicyFault.{PolicyFault};
ghost use Rattle.spd_file.specs.Line.{line_of_value, checked_by_rules, table_meaning};
ghost use Rattle.spd_file.specs.inner.ReadParts.{IsReady};

use crate::line_table::LineTable;
use crate::{LineKey, PolicyFault, Why};
use spd_line::{Line, LineParts, LineRefused};
use std::alloc::Global;
use toml::Value;

// The line of some parts, where they break no rule.
#[tactic(auto, unfolding(crate::specs::Line::checked_by_rules))]
fn make_line(index: u32, parts: LineParts) -> Result<Line, PolicyFault>
    requires { IsReady parts }
    ensures line { result ≡ checked_by_rules index parts }
    ensures parts { IfOk result (λ line. line ≡ parts) }
{
    match Line::new(parts) {
        Ok(line) => Ok(line),
        Err(LineRefused { fault, .. }) => Err(PolicyFault::Rule { index, fault }),
    }
}

// The line of that number that a value is.
pub fn read_value(alloc: Global, index: u32, value: &Value) -> Result<Line, PolicyFault>
    ensures line { IfOk result (λ line. line_of_value index (view value.now) ≡ Ok line) }
    ensures fault { IfErr result (λ fault. fault ≢ PolicyFault.NoMemory
        → line_of_value index (view value.now) ≡ Err fault) }
    ensures unreserved { IfOk result (λ line. line.name ≢ final_name) }
{
    let Value::Table(table) = value else {
        return Err(PolicyFault::Line {
            index,
            key: LineKey::Whole,
            why: Why::WrongKind,
        });
    };
    let table = LineTable { index, table };
    make_line(index, table.parts(alloc)?)
}

/// Reads one line from a text that is a TOML table by itself, such as `{ name = "a", action =
/// "bypass" }`, with the keys of a policy's lines. Nothing stands round the table, but a byte order
/// mark before it is passed over. The line is line 1 of its faults. Takes time by the length of the
/// text.
pub fn read_line(alloc: Global, text: &[u8]) -> Result<Line, PolicyFault>
    ensures line { IfOk result (λ line. table_meaning text.now ≡ Ok line) }
    ensures fault { IfErr result (λ fault. fault ≢ PolicyFault.NoMemory
        → table_meaning text.now ≡ Err fault) }
    ensures unreserved { IfOk result (λ line. line.name ≢ final_name) }
{
    let Ok(text) = str::from_utf8(text) else {
        return Err(PolicyFault::Syntax);
    };
    match Value::from_str(alloc, text) {
        Ok(value) => read_value(alloc, 1, &value),
        Err(error) if error.is_memory() => Err(PolicyFault::NoMemory),
        Err(_) => Err(PolicyFault::Syntax),
    }
}
