ghost use Rattle.std.specs.Prelude.{◌≡◌, ◌≤◌, ◌++◌, ℕ, false, length, IsTrue, OnOk, OnErr};
ghost use Rattle.sel_text.specs.declared.family.Family.{Family};
ghost use Rattle.sel_box.specs.Point.{PointFields, IsReal};
ghost use Rattle.ts_payload.specs.Selector.{AreSelectors};
ghost use Rattle.ts_span.specs.Span.{is_span, span_has};
ghost use Rattle.ts_span.specs.Spelling as spelling;

use crate::spanning::TsSpan;
use crate::table::{Spelling, field_table};
use sel_box::{FieldForm, form_of};
use ts_payload::{NoMemory, Ts, TsList};

// The last type of the Mobility Header, and its 256-fold.
const LAST_TYPE: u32 = 255;

const LAST_TYPE_PORT: u16 = 65_280;

/// Puts the selectors at the end that select what the span has: none, one or two. Where OPAQUE is
/// among the fields and numbers are too, but not all, a selector of its own is of OPAQUE; all
/// numbers without OPAQUE are two halves. Fields of the Mobility Header above 255 are no type, and
/// nothing is written of them. Where there is no memory, the list is unchanged.
///
/// The span can be written: its protocol is one number from 1 to 255, or it has all protocols and
/// all fields or OPAQUE alone.
pub fn spell(span: &TsSpan, selectors: &mut TsList) -> Result<(), NoMemory>
    requires span { IsTrue (is_span span.now) }
    requires writable { IsTrue (spelling.is_writable span.now) }
    ensures ok { OnOk result (selectors.new ≡ selectors.old ++ spelling.spelled span.now) }
    ensures err { OnErr result (selectors.new ≡ selectors.old) }
    ensures exact { (family : Family) (address protocol field : ℕ) →
        spelling.is_no_type protocol field ≡ false
        → spelling.some_selects (spelling.spelled span.now) family address protocol field
        ≡ span_has span.now family address protocol field }
    ensures real { (x : PointFields) → IsReal x
        → spelling.SelectsLike (spelling.spelled span.now) span.now x }
    ensures selectors { AreSelectors (spelling.spelled span.now) }
    ensures few { length (spelling.spelled span.now) ≤ 2 }
{
    put_spelled(span, selectors)
}

// Puts the selectors at the end that the table gives for the span.
fn put_spelled(span: &TsSpan, selectors: &mut TsList) -> Result<(), NoMemory>
    requires span { IsTrue (is_span span.now) }
    requires writable { IsTrue (spelling.is_writable span.now) }
    ensures ok { OnOk result (selectors.new ≡ selectors.old ++ spelling.spelled span.now) }
    ensures err { OnErr result (selectors.new ≡ selectors.old) }
{
    let mobility = matches!(form_of(span.protocols.0), FieldForm::MobilityType);
    let table = field_table();
    let (low, high) = span.fields;
    match table.spelling(mobility, span.fields) {
        Spelling::Nothing => Ok(()),
        Spelling::All => selectors.push(selector_with(span, 0, u16::MAX)),
        Spelling::Opaque => selectors.push(selector_with(span, u16::MAX, 0)),
        Spelling::Halves => {
            selectors.extend(&[
                selector_with(span, 0, 32_767),
                selector_with(span, 32_768, u16::MAX),
            ])
        }
        Spelling::Numbers => selectors.push(selector_with(span, low as u16, high as u16)),
        Spelling::NumbersAndOpaque => {
            selectors.extend(&[
                selector_with(span, low as u16, u16::MAX),
                selector_with(span, u16::MAX, 0),
            ])
        }
        Spelling::Types => {
            let last = high.min(LAST_TYPE);
            selectors.push(selector_with(span, (256 * low) as u16, (256 * last) as u16))
        }
        Spelling::TypesAndOpaque => {
            selectors.extend(&[
                selector_with(span, (256 * low) as u16, LAST_TYPE_PORT),
                selector_with(span, u16::MAX, 0),
            ])
        }
    }
}

// The selector of the span's family and addresses with these ports, of its protocol, or of every
// one where it has all.
fn selector_with(span: &TsSpan, start_port: u16, end_port: u16) -> Ts
    requires { span.now.protocols.0 ≤ 255 }
    ensures { result ≡ spelling.selector_with span.now (start_port, end_port) }
{
    Ts {
        family: span.family,
        protocol: span.protocols.0 as u8,
        start_port,
        end_port,
        start: span.addresses.0,
        end: span.addresses.1,
    }
}
