//! The names that a script has assigned so far.

ghost use Rattle.script_text.specs.Names.{OnePlace, KeepsPlace, TakesPlace};

use crate::hashing::{NameHasher, Spelling};
use indexmap::IndexSet;
use mac_base::error::HostFull;
use script_lang::Name;
use std::alloc::Global;
use std::marker::Model;

/// Names of variables, in order of first assignment; each lies where it was assigned. A contract sees the list.
#[derive(Drop)]
pub struct Names<'a> {
    names: IndexSet<Spelling<'a>, NameHasher>,
    /// The name that was assigned last, and which it is: lines often speak of it.
    last: Option<(&'a [u8], Name)>,
}

impl<'a> Model for Names<'a> {
    ghost use Rattle.std.specs.Prelude.{◌≤◌, List, ℕ, length, map};
    ghost use Rattle.script_lang.specs.Names.{most_names};
    ghost use Rattle.script_text.specs.Names.{IsLast};

    ghost Value = { List (List ℕ) };

    ghost view = { λ n. map (λ name. name.0.now) n.names.keys };

    ghost invariant = { λ n. IsLast (map (λ name. name.0.now) n.names.keys) n.last × (length n.names.keys ≤ most_names) };
}

impl<'a> Names<'a> {
    ghost use Rattle.std.specs.Prelude.{◌≡◌, ◌<◌, [], Some, IfOk, IfSome, OnOk, length};
    ghost use Rattle.script_lang.specs.Names.{most_names};
    ghost use Rattle.script_text.specs.Names.{place_of, place_for, with_name};

    /// No names of a script with this text.
    pub fn new(alloc: Global, text: &[u8]) -> Names<'a>
        ensures { result ≡ [] }
    {
        Names {
            names: IndexSet::with_hasher(alloc, NameHasher::new(text)),
            last: None,
        }
    }

    /// The name that was assigned last, if a word is that.
    fn last_of(&self, word: &[u8]) -> Option<Name>
        ensures { IfSome result (λ name. place_of self.now word.now ≡ Some name) }
    {
        match self.last {
            Some((last, name)) if last == word => Some(name),
            _ => None,
        }
    }

    /// The name that a word is, if it has been assigned.
    pub fn find(&self, word: &[u8]) -> Option<Name>
        ensures { result ≡ place_of self.now word.now }
    {
        if let Some(name) = self.last_of(word) {
            return Some(name);
        }
        let place = self.names.get_index_of(&Spelling(word))?;
        Some(Name::at(place))
    }

    /// The name that a word is. It is added if it is new.
    pub fn add(&mut self, word: &'a [u8]) -> Result<Name, HostFull>
        requires { length self.old < most_names }
        ensures place { IfOk result (λ name. name ≡ place_for self.old word.now) }
        ensures names { OnOk result (self.new ≡ with_name self.old word.now) }
    {
        if let Some(name) = self.last_of(word) {
            return Ok(name);
        }
        let (place, _) = self.names.insert_full(Spelling(word))?;
        let name = Name::at(place);
        self.last = Some((word, name));
        Ok(name)
    }
}

/// No two names have one place, a name keeps its place when another is assigned, and one that is assigned has its
/// place from then on.
pub fn names_have_places()
    ensures one { OnePlace }
    ensures kept { KeepsPlace }
    ensures taken { TakesPlace }
{}
