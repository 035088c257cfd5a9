use crate::Why;
use crate::value::{KeyValue, read_text, require_text};
use spd_line::{Ipsec, Way};
use toml::Value;

// The word of an action.
#[derive(Clone, Copy, Debug, PartialEq, Eq)]
pub enum ActionWord {
    Discard,
    Bypass,
    Protect,
}

impl KeyValue for ActionWord {
    ghost use Rattle.spd_file.specs.Values.{required, of_text};
    ghost use Rattle.spd_file.specs.Words.{action_word_of};

    ghost meaning = { required (of_text action_word_of) };

    fn read(value: Option<&Value>) -> Result<ActionWord, Why> {
        match require_text(value)? {
            "discard" => Ok(ActionWord::Discard),
            "bypass" => Ok(ActionWord::Bypass),
            "protect" => Ok(ActionWord::Protect),
            _ => Err(Why::NotInGrammar),
        }
    }
}

// The directions of a line, both where the key doesn't stand.
impl KeyValue for Way {
    ghost use Rattle.spd_line.specs.declared.line.Way.TheVariants.{Both};
    ghost use Rattle.spd_file.specs.Values.{optional, of_text};
    ghost use Rattle.spd_file.specs.Words.{way_of};

    ghost meaning = { optional Both (of_text way_of) };

    fn read(value: Option<&Value>) -> Result<Way, Why> {
        let Some(value) = value else {
            return Ok(Way::Both);
        };
        match read_text(value)? {
            "out" => Ok(Way::Outbound),
            "in" => Ok(Way::Inbound),
            "both" => Ok(Way::Both),
            _ => Err(Why::NotInGrammar),
        }
    }
}

impl KeyValue for Ipsec {
    ghost use Rattle.spd_file.specs.Values.{required, of_text};
    ghost use Rattle.spd_file.specs.Words.{ipsec_of};

    ghost meaning = { required (of_text ipsec_of) };

    fn read(value: Option<&Value>) -> Result<Ipsec, Why> {
        match require_text(value)? {
            "esp" => Ok(Ipsec::Esp),
            "ah" => Ok(Ipsec::Ah),
            _ => Err(Why::NotInGrammar),
        }
    }
}

// The word of a mode.
#[derive(Clone, Copy, Debug, PartialEq, Eq)]
pub enum ModeWord {
    Transport,
    Tunnel,
}

impl KeyValue for ModeWord {
    ghost use Rattle.spd_file.specs.Values.{required, of_text};
    ghost use Rattle.spd_file.specs.Words.{mode_word_of};

    ghost meaning = { required (of_text mode_word_of) };

    fn read(value: Option<&Value>) -> Result<ModeWord, Why> {
        match require_text(value)? {
            "transport" => Ok(ModeWord::Transport),
            "tunnel" => Ok(ModeWord::Tunnel),
            _ => Err(Why::NotInGrammar),
        }
    }
}
