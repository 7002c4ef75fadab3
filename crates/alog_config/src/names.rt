//! Lists of names.
ghost use Rattle.std.specs.Prelude.{◌≡◌, ◌↔◌, ◌++◌, ◌∷◌, [], IfOk, OnOk, OnErr, IsTrue, length};
ghost use Rattle.std.specs.List.{Contains, Any};

use alog_msg::Text;
use std::alloc::{AllocError, Global};
use std::marker::Model;

/// A list of names. Contracts see it as the list of them.
#[derive(Debug, Drop)]
pub struct NameList {
    texts: Vec<Text>,
}

impl Model for NameList {
    ghost use Rattle.std.specs.Prelude.{ℕ, List};

    ghost Value = { List (List ℕ) };

    ghost view = { λ n. n.texts.items };
}

impl NameList {
    /// No names.
    pub fn new(alloc: Global) -> NameList
        ensures { result ≡ [] }
    {
        NameList {
            texts: Vec::new(alloc),
        }
    }

    /// Appends a copy of a name.
    pub fn push(&mut self, alloc: Global, name: &str) -> Result<(), AllocError>
        ensures pushed { OnOk result (self.new ≡ self.old ++ name.now ∷ []) }
        ensures err { OnErr result (self.new ≡ self.old) }
    {
        let text = Text::copy_of(alloc, name)?;
        match self.texts.push(text) {
            Ok(()) => Ok(()),
            Err(_) => Err(AllocError),
        }
    }

    /// The names, in order.
    pub fn as_slice(&self) -> &[Text]
        ensures { result.now ≡ self.now }
    {
        self.texts.as_slice()
    }

    /// How many names there are.
    pub fn len(&self) -> usize
        ensures { result ≡ length self.now }
    {
        self.texts.len()
    }

    /// Whether the name is one of them.
    pub fn contains(&self, name: &str) -> bool
        ensures { IsTrue result ↔ Any (λ n. n ≡ name.now) self.now }
    {
        self.texts.iter().any(|text| text.as_str() == name)
    }
}
