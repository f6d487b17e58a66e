// A list of names.
ghost use Rattle.std.specs.Prelude.{◌≡◌, ◌↔◌, [], ◌∷◌, ◌++◌, IfOk, IfErr, OnOk, OnErr, All};
ghost use Rattle.ssh_wire.specs.Names.{joined, HasNoComma};
ghost use Rattle.ssh_wire.specs.declared.error.WireError.TheVariants.{NoMemory};

use crate::{Text, WireError};
use std::alloc::Global;
use std::marker::Model;

/// Names in order (RFC 4251 section 5, name-list). A clause sees the list of the names' bytes.
#[derive(Debug, Drop)]
pub struct NameList {
    names: Vec<Text>,
}

impl Model for NameList {
    ghost use Rattle.std.specs.Prelude.{ℕ, List};

    ghost Value = { List (List ℕ) };

    ghost view = { λ list. list.names.items };
}

impl NameList {
    /// A list of no name.
    pub fn new(alloc: Global) -> NameList
        ensures { result ≡ [] }
    {
        NameList {
            names: Vec::new(alloc),
        }
    }

    /// The names that a text lists: none where it is empty, else what stands before, between and
    /// after its commas. Their text, by `to_text`, is this one.
    pub fn parse(alloc: Global, text: &str) -> Result<NameList, WireError>
        ensures joined { IfOk result (λ names. joined names ≡ text.now) }
        ensures apart { IfOk result (All HasNoComma) }
        ensures none { IfOk result (λ names. (names ≡ []) ↔ (text.now ≡ [])) }
        ensures memory { IfErr result (λ e. e ≡ NoMemory) }
    {
        let mut names = NameList::new(alloc);
        if text.is_empty() {
            return Ok(names);
        }
        for name in text.split(',') {
            names.push(Text::new(alloc, name)?)?;
        }
        Ok(names)
    }

    /// The names in order.
    pub fn as_slice(&self) -> &[Text]
        ensures { result.now ≡ self.now }
    {
        self.names.as_slice()
    }

    /// Adds a name at the end. Where there is no memory, the list is as before.
    pub fn push(&mut self, name: Text) -> Result<(), WireError>
        ensures ok { OnOk result (self.new ≡ self.old ++ name ∷ []) }
        ensures memory { IfErr result (λ e. e ≡ NoMemory) }
        ensures err { OnErr result (self.new ≡ self.old) }
    {
        self.names.push(name)?;
        Ok(())
    }

    /// The names with a comma between each two, as they stand on the wire. The text takes its
    /// memory from where the list has its own.
    pub fn to_text(&self) -> Result<Text, WireError>
        ensures ok { IfOk result (λ text. text ≡ joined self.now) }
        ensures memory { IfErr result (λ e. e ≡ NoMemory) }
    {
        let alloc = *self.names.allocator();
        let mut text = String::new(alloc);
        for (place, name) in self.names.iter().enumerate() {
            if place > 0 {
                text.push(',')?;
            }
            text.push_str(name.as_str())?;
        }
        Text::new(alloc, text.as_str())
    }
}
