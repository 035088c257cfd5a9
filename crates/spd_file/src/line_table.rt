ghost use Rattle.std.specs.Prelude.{◌≡◌, ◌≢◌, ◌∷◌, [], Ok, Err, IfOk, IfErr, length, map};
ghost use Rattle.toml.specs.View.{items_view, table_view, view};
ghost use Rattle.spd_file.specs.declared.fault.PolicyFault.{PolicyFault};
ghost use Rattle.spd_file.specs.inner.Borrowed.{data_now};
ghost use Rattle.spd_file.specs.Line.{at_key, key, key_value, mode_of, parts_of, protected};
ghost use Rattle.spd_file.specs.Line.{treatment_of, unprotected};
ghost use Rattle.spd_file.specs.inner.ReadParts.{IsReady};
ghost use Rattle.spd_file.specs.Steps.{all_read};
ghost use Rattle.spd_file.specs.Values.{array_values, forbidden, text_by_grammar, optional};
ghost use Rattle.spd_file.specs.Values.{texts_in, texts_of};

use crate::flags::NO_FLAGS;
use crate::items::{Item, are_texts, read_item};
use crate::table::{find, has_keys};
use crate::value::KeyValue;
use crate::word::{ActionWord, ModeWord};
use crate::{LineKey, PolicyFault, Why};
use lists::List;
use spd_line::{Action, AddressItem, LineParts, Mode, Pfp, PortItem};
use std::alloc::Global;
use toml::{Table, Value};

// The table of a line, and the number of the line.
#[derive(Clone, Copy)]
pub struct LineTable<'a> {
    pub index: u32,
    pub table: &'a Table,
}

impl LineTable<'_> {
    // The parts of the line, by the keys of its table in their order.
    #[tactic(auto, unfolding(crate::specs::Line::parts_of))]
    pub fn parts(&self, alloc: Global) -> Result<LineParts, PolicyFault>
        ensures parts { IfOk result (λ parts.
            parts_of self.now.index (table_view self.now.table.now) ≡ Ok parts) }
        ensures fault { IfErr result (λ fault. fault ≢ PolicyFault.NoMemory
            → parts_of self.now.index (table_view self.now.table.now) ≡ Err fault) }
        ensures ready { IfOk result IsReady }
    {
        if !has_keys::<LineKey>(self.table) {
            return Err(self.fault(LineKey::Unknown, Why::NotHere));
        }
        let name = self.read(LineKey::Name)?;
        let word: ActionWord = self.read(LineKey::Action)?;
        let way = self.read(LineKey::Direction)?;
        let local = self.items(alloc, LineKey::Local, AddressItem::Any)?;
        let remote = self.items(alloc, LineKey::Remote, AddressItem::Any)?;
        let protocol = self.read(LineKey::Protocol)?;
        let local_port = self.items(alloc, LineKey::LocalPort, PortItem::Any)?;
        let remote_port = self.items(alloc, LineKey::RemotePort, PortItem::Any)?;
        let (pfp, action) = self.treatment(word)?;
        Ok(LineParts {
            name,
            action,
            way,
            local,
            remote,
            protocol,
            local_port,
            remote_port,
            pfp,
        })
    }

    // The flags and the action, by the word of the action.
    fn treatment(&self, word: ActionWord) -> Result<(Pfp, Action), PolicyFault>
        ensures { result ≡ treatment_of self.now.index (table_view self.now.table.now) word }
    {
        match word {
            ActionWord::Discard => self.unprotected(Action::Discard),
            ActionWord::Bypass => self.unprotected(Action::Bypass),
            ActionWord::Protect => self.protected(),
        }
    }

    // A line that protects nothing has none of the keys of protection.
    #[tactic(auto, unfolding(crate::specs::Line::unprotected))]
    fn unprotected(&self, action: Action) -> Result<(Pfp, Action), PolicyFault>
        ensures { result ≡ unprotected self.now.index (table_view self.now.table.now) action }
    {
        self.refuse(LineKey::Pfp)?;
        self.refuse(LineKey::Ipsec)?;
        self.refuse(LineKey::Mode)?;
        self.refuse(LineKey::GateLocal)?;
        self.refuse(LineKey::GateRemote)?;
        Ok((NO_FLAGS, action))
    }

    #[tactic(auto, unfolding(crate::specs::Line::protected))]
    fn protected(&self) -> Result<(Pfp, Action), PolicyFault>
        ensures { result ≡ protected self.now.index (table_view self.now.table.now) }
    {
        let flags = self.read(LineKey::Pfp)?;
        let ipsec = self.read(LineKey::Ipsec)?;
        let word = self.read(LineKey::Mode)?;
        let mode = self.mode(word)?;
        Ok((flags, Action::Protect { ipsec, mode }))
    }

    // The mode of a word, with the gates of a tunnel.
    #[tactic(auto, unfolding(crate::specs::Line::mode_of))]
    fn mode(&self, word: ModeWord) -> Result<Mode, PolicyFault>
        ensures { result ≡ mode_of self.now.index (table_view self.now.table.now) word }
    {
        match word {
            ModeWord::Transport => {
                self.refuse(LineKey::GateLocal)?;
                self.refuse(LineKey::GateRemote)?;
                Ok(Mode::Transport)
            }
            ModeWord::Tunnel => {
                let gate_local = self.read(LineKey::GateLocal)?;
                let gate_remote = self.read(LineKey::GateRemote)?;
                Ok(Mode::Tunnel {
                    gate_local,
                    gate_remote,
                })
            }
        }
    }

    // What a key says by a single value.
    fn read<T: KeyValue>(&self, name: LineKey) -> Result<T, PolicyFault>
        ensures { result ≡ key self.now.index (table_view self.now.table.now) name T.meaning }
    {
        match T::read(self.value(name)) {
            Ok(value) => Ok(value),
            Err(why) => Err(self.fault(name, why)),
        }
    }

    // Refuses a key that mustn't stand.
    fn refuse(&self, name: LineKey) -> Result<(), PolicyFault>
        ensures { result ≡ key self.now.index (table_view self.now.table.now) name forbidden }
    {
        match self.value(name) {
            None => Ok(()),
            Some(_) => Err(self.fault(name, Why::NotHere)),
        }
    }

    // The items of a selector: a text by itself or an array of them, and one item where the key
    // doesn't stand.
    fn items<T: Item>(
        &self,
        alloc: Global,
        name: LineKey,
        absent: T,
    ) -> Result<List<T>, PolicyFault>
        ensures items { IfOk result (λ items.
            key self.now.index (table_view self.now.table.now) name
            (optional (absent ∷ []) (texts_of T.meaning)) ≡ Ok items) }
        ensures fault { IfErr result (λ fault. fault ≢ PolicyFault.NoMemory
            → key self.now.index (table_view self.now.table.now) name
            (optional (absent ∷ []) (texts_of T.meaning)) ≡ Err fault) }
        ensures some { IfOk result (λ items. items ≢ []) }
    {
        match self.value(name) {
            None => Ok(List::of_one(alloc, absent)?),
            Some(Value::Array(values)) => self.texts(alloc, name, values.as_slice()),
            Some(value) => match read_item(value) {
                Ok(only) => Ok(List::of_one(alloc, only)?),
                Err(why) => Err(self.fault(name, why)),
            },
        }
    }

    // The items of one or more texts.
    #[tactic(auto, using(crate::proofs::Texts::texts_lemmas))]
    fn texts<T: Item>(
        &self,
        alloc: Global,
        key: LineKey,
        values: &[Value],
    ) -> Result<List<T>, PolicyFault>
        ensures items { IfOk result (λ items.
            texts_in T.meaning (array_values (items_view values.now)) ≡ Ok items) }
        ensures fault { IfErr result (λ fault. fault ≢ PolicyFault.NoMemory
            → at_key self.now.index key (texts_in T.meaning (array_values (items_view values.now)))
            ≡ Err fault) }
        ensures some { IfOk result (λ items. items ≢ []) }
    {
        if !are_texts(values) {
            return Err(self.fault(key, Why::WrongKind));
        }
        if values.is_empty() {
            return Err(self.fault(key, Why::Empty));
        }
        self.items_of(alloc, key, values)
    }

    fn items_of<T: Item>(
        &self,
        alloc: Global,
        key: LineKey,
        values: &[Value],
    ) -> Result<List<T>, PolicyFault>
        ensures items { IfOk result (λ items.
            all_read (text_by_grammar T.meaning) (map view values.now) ≡ Ok items) }
        ensures fault { IfErr result (λ fault. fault ≢ PolicyFault.NoMemory
            → at_key self.now.index key (all_read (text_by_grammar T.meaning) (map view values.now))
            ≡ Err fault) }
        ensures count { IfOk result (λ items. length items ≡ length values.now) }
    {
        let mut items = List::new(alloc);
        for value in values {
            match read_item::<T>(value) {
                Ok(item) => items.push(item)?,
                Err(why) => return Err(self.fault(key, why)),
            }
        }
        Ok(items)
    }

    fn value(&self, key: LineKey) -> Option<&Value>
        ensures { data_now result ≡ key_value key (table_view self.now.table.now) }
    {
        find(self.table, key.as_str())
    }

    fn fault(&self, key: LineKey, why: Why) -> PolicyFault
        ensures { result ≡ PolicyFault.Line self.now.index key why }
    {
        PolicyFault::Line {
            index: self.index,
            key,
            why,
        }
    }
}
