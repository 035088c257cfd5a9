ghost use Rattle.std.specs.Prelude.{◌≡◌, ◌++◌, OnErr, OnOk, length, take};
ghost use Rattle.cmd_replay.specs.Reply.{edited_text, filled_word, hit_word, numbered, reply_text};
ghost use Rattle.cmd_replay.specs.Reply.{worded};

use audit_frame::NoMemory;
use itoa::Buffer;
use spd_lanes::{Filled, PacketAnswer};
use spd_line::Answer;
use spd_text::Printed;

/// The reply to an event.
#[derive(Clone, Copy, Debug, PartialEq, Eq)]
pub enum EventReply {
    /// To a packet at once: the verdict, and whether the cache had it.
    Asked(PacketAnswer),
    /// To a lane's first step: the verdict that the cache had, if it had one.
    Taken(Option<Answer>),
    /// To a lane's second step: the verdict of the policy.
    Searched(Answer),
    /// To a lane's third step: the verdict that was found, and whether the policy was edited since.
    Filling(Filled),
    /// To an edit: how many entries the policy has after it, in each direction.
    Edited { outbound: usize, inbound: usize },
}

impl Printed for EventReply {
    ghost printed = { reply_text };

    fn append(&self, text: &mut Vec<u8>) -> Result<(), NoMemory> {
        match self {
            EventReply::Asked(reply) => append_verdict(hit_word(reply.hit), &reply.answer, text),
            EventReply::Taken(Some(answer)) => append_verdict("hit", answer, text),
            EventReply::Taken(None) => append_word("missed", text),
            EventReply::Searched(answer) => append_verdict("found", answer, text),
            EventReply::Filling(filled) => {
                append_verdict(filled_word(filled.stale), &filled.answer, text)
            }
            EventReply::Edited { outbound, inbound } => append_counts(*outbound, *inbound, text),
        }
    }
}

// Whether the cache had the answer to a packet at once.
fn hit_word(hit: bool) -> &'static str
    ensures { result.now ≡ hit_word hit }
{
    if hit { "hit" } else { "miss" }
}

// Whether the policy was edited since the lookup's second step.
fn filled_word(stale: bool) -> &'static str
    ensures { result.now ≡ filled_word stale }
{
    if stale { "stale" } else { "filled" }
}

// Puts a word at the end of a text.
fn append_word(word: &str, text: &mut Vec<u8>) -> Result<(), NoMemory>
    ensures ok { OnOk result (text.new.items ≡ text.old.items ++ word.now) }
    ensures err { OnErr result (take (length text.old.items) text.new.items ≡ text.old.items) }
{
    text.extend_from_slice(word.as_bytes())?;
    Ok(())
}

// Puts a word and a verdict at the end of a text.
fn append_verdict(word: &str, verdict: &Answer, text: &mut Vec<u8>) -> Result<(), NoMemory>
    ensures ok { OnOk result (text.new.items ≡ text.old.items ++ worded word.now verdict.now) }
    ensures err { OnErr result (take (length text.old.items) text.new.items ≡ text.old.items) }
{
    text.extend_from_slice(word.as_bytes())?;
    text.extend_from_slice(b" ")?;
    verdict.print(text)?;
    Ok(())
}

// Puts the numbers of entries after an edit at the end of a text.
fn append_counts(outbound: usize, inbound: usize, text: &mut Vec<u8>) -> Result<(), NoMemory>
    ensures ok { OnOk result (text.new.items ≡ text.old.items ++ edited_text outbound inbound) }
    ensures err { OnErr result (take (length text.old.items) text.new.items ≡ text.old.items) }
{
    text.extend_from_slice(b"edited ")?;
    text.extend_from_slice(Buffer::new().format(outbound).as_bytes())?;
    text.extend_from_slice(b" ")?;
    text.extend_from_slice(Buffer::new().format(inbound).as_bytes())?;
    Ok(())
}

// A reply behind the number of its trace line.
#[derive(Clone, Copy)]
pub struct ReplyLine {
    pub number: u64,
    pub reply: EventReply,
}

impl Printed for ReplyLine {
    ghost printed = { λ line. numbered line.number line.reply };

    fn append(&self, text: &mut Vec<u8>) -> Result<(), NoMemory> {
        text.extend_from_slice(Buffer::new().format(self.number).as_bytes())?;
        text.extend_from_slice(b" ")?;
        self.reply.print(text)?;
        Ok(())
    }
}
