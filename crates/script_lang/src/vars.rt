//! The variables of a script.

ghost use Rattle.script_lang.specs.Variables.{ValuesAreKept};

use crate::line::Name;
use mac_base::error::HostFull;
use std::alloc::Global;
use std::marker::Model;

/// A script has at most this many names.
const MOST_NAMES: usize = 1 << 16;

/// The values of the variables, in order of the names, with room for those of all names. A contract sees the list.
#[derive(Drop)]
pub struct Vars {
    values: Vec<u32>,
}

impl Model for Vars {
    ghost use Rattle.std.specs.Prelude.{◌≤◌, ◌^◌, List, ℕ, vec_capacity};

    ghost Value = { List ℕ };

    ghost view = { λ v. v.values.items };

    ghost invariant = { λ v. 2 ^ 16 ≤ vec_capacity v.values };
}

impl Vars {
    ghost use Rattle.std.specs.Prelude.{◌≡◌, [], IfOk};
    ghost use Rattle.script_lang.specs.Variables.{value_of, with_value};

    /// No variables, and room for those of all names. The host isn't asked for more.
    pub fn new(alloc: Global) -> Result<Vars, HostFull>
        ensures { IfOk result (λ vars. vars ≡ []) }
    {
        Ok(Vars {
            values: Vec::with_capacity(alloc, MOST_NAMES)?,
        })
    }

    /// Gives a variable a value.
    pub fn assign(&mut self, name: Name, value: u32)
        ensures { self.new ≡ with_value self.old name value }
    {
        let place = name.place() as usize;
        if place >= self.values.len() {
            let grown = self.values.resize(place + 1, 0);
            prove!(grown.is_ok());
        }
        self.values[place] = value;
    }

    /// The value of a variable. One that was not assigned counts as 0.
    pub fn value(&self, name: Name) -> u32
        ensures { result ≡ value_of self.now name }
    {
        self.values.get(name.place() as usize).copied().unwrap_or(0)
    }
}

/// A variable has the value that it was given last, and any other keeps its own.
pub fn values_are_kept()
    ensures { ValuesAreKept }
{}
