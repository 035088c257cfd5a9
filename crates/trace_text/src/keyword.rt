ghost use Rattle.std.specs.Prelude.{◌≡◌};
ghost use Rattle.trace_text.specs.Fields.{keyword_of};

// What the first word of a line says, if the line is an event.
#[derive(Clone, Copy)]
pub enum Keyword {
    Pkt,
    Take,
    Search,
    Fill,
    Insert,
    Delete,
    Move,
}

pub fn read_keyword(word: &[u8]) -> Option<Keyword>
    ensures { result ≡ keyword_of word.now }
{
    if word == b"pkt".as_slice() {
        Some(Keyword::Pkt)
    } else if word == b"take".as_slice() {
        Some(Keyword::Take)
    } else if word == b"search".as_slice() {
        Some(Keyword::Search)
    } else if word == b"fill".as_slice() {
        Some(Keyword::Fill)
    } else if word == b"insert".as_slice() {
        Some(Keyword::Insert)
    } else if word == b"delete".as_slice() {
        Some(Keyword::Delete)
    } else if word == b"move".as_slice() {
        Some(Keyword::Move)
    } else {
        None
    }
}
