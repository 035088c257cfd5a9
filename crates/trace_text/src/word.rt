ghost use Rattle.std.specs.Prelude.{◌≡◌, ◌≤◌, IfOk};
ghost use Rattle.sel_box.specs.Class.{opaque_protocol};
ghost use Rattle.trace_text.specs.Fields as field;
ghost use Rattle.trace_text.specs.Trace.{allowed};

use crate::fault::EventFault;
use crate::field::{read_direction, read_field, read_number, read_protocol};
use crate::keyword::{Keyword, read_keyword};
use crate::written::WrittenField;
use sel_box::Direction;
use sel_text::{Address, Name};

// The greatest lane.
const LAST_LANE: u32 = 15;

// A word of a line, and its number, counted from 1. Each reader gives what the word means where a
// word of one kind has to stand, or the fault that it is a bad word there.
#[derive(Clone, Copy)]
pub struct Word<'a> {
    pub text: &'a [u8],
    pub number: u32,
}

impl<'a> Word<'a> {
    pub fn keyword(self) -> Result<Keyword, EventFault>
        ensures { result ≡ allowed self.entry.number (field.keyword_of self.entry.text.now) }
    {
        self.allowed(read_keyword(self.text))
    }

    pub fn direction(self) -> Result<Direction, EventFault>
        ensures { result ≡ allowed self.entry.number (field.direction_of self.entry.text.now) }
    {
        self.allowed(read_direction(self.text))
    }

    pub fn lane(self) -> Result<u32, EventFault>
        ensures meaning { result ≡ allowed self.entry.number (field.lane_of self.entry.text.now) }
        ensures within { IfOk result (λ lane. lane ≤ 15) }
    {
        self.allowed(read_number(self.text, LAST_LANE))
    }

    pub fn place(self) -> Result<u32, EventFault>
        ensures { result ≡ allowed self.entry.number (field.place_of self.entry.text.now) }
    {
        self.allowed(read_number(self.text, u32::MAX))
    }

    pub fn name(self) -> Result<Name, EventFault>
        ensures { result ≡ allowed self.entry.number (field.name_of self.entry.text.now) }
    {
        self.allowed(sel_text::read_name(self.text).ok())
    }

    pub fn address(self) -> Result<Address, EventFault>
        ensures { result ≡ allowed self.entry.number (field.address_word self.entry.text.now) }
    {
        self.allowed(sel_text::read_address(self.text).ok())
    }

    pub fn protocol(self) -> Result<u16, EventFault>
        ensures meaning { result
            ≡ allowed self.entry.number (field.protocol_of self.entry.text.now) }
        ensures within { IfOk result (λ protocol. protocol ≤ opaque_protocol) }
    {
        self.allowed(read_protocol(self.text))
    }

    pub fn field(self) -> Result<WrittenField, EventFault>
        ensures { result ≡ allowed self.entry.number (field.field_of self.entry.text.now) }
    {
        self.allowed(read_field(self.text))
    }

    fn allowed<T>(self, meaning: Option<T>) -> Result<T, EventFault>
        ensures { result ≡ allowed self.entry.number meaning }
    {
        meaning.ok_or(EventFault::BadWord { word: self.number })
    }
}
