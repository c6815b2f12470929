//! The variables of a batch, procedure or trigger: names, types and values, by place and by name.
//!
//! `specs/Variables.antt` says how they are seen: as the list of [`Variable`]s in the order in which
//! they were declared. The layers above rely on each call being exact on that list, and on a name that
//! is there being refused. They ask that a place is one of the list, that a value is NULL or
//! one of its variable's type, and that there are fewer than 65535 variables before another is
//! declared. Only tests show that want of memory is not answered where there is memory.
#![tactic(auto)]

ghost use Rattle.std.specs.Prelude.{◌≡◌, ◌<◌, ◌++◌, ◌∷◌, ◌↔◌, [], All, length, map, IsSome, OnOk, OnErr, slice_set};
ghost use Rattle.session_vars.specs.Variables.{FitsAt, HasItsType, StandsAt, count_limit, fresh, place_of};
ghost use Rattle.session_vars.specs.declared.Variable.{Variable};
ghost use Rattle.session_vars.specs.declared.VarFault.TheVariants.{Memory as NoMemory};

use indexmap::IndexSet;
use std::alloc::{AllocError, AllocFailed, Global};
use std::marker::Model;
use thiserror::Error;
use value_types::{Memory, SqlType, Units, Value};

/// A variable.
#[derive(Drop)]
pub struct Variable {
    /// Its name, with the `@`.
    pub name: Units,
    /// Its type.
    pub kind: SqlType,
    /// Its value, which is NULL at first.
    pub value: Value,
}

/// Why a variable is not declared.
#[derive(Clone, Copy, Debug, Error)]
pub enum VarFault {
    /// There is one of that name.
    #[error("there is a variable of that name")]
    Present,
    /// Memory was wanting.
    #[error("memory was wanting")]
    Memory,
}

impl From<Memory> for VarFault {
    ghost from_gives = { λ _ fault. fault ≡ NoMemory };

    fn from(_e: Memory) -> VarFault {
        VarFault::Memory
    }
}

impl From<AllocError> for VarFault {
    ghost from_gives = { λ _ fault. fault ≡ NoMemory };

    fn from(_e: AllocError) -> VarFault {
        VarFault::Memory
    }
}

impl<T: Drop> From<AllocFailed<T>> for VarFault {
    ghost from_gives = { λ _ fault. fault ≡ NoMemory };

    fn from(_e: AllocFailed<T>) -> VarFault {
        VarFault::Memory
    }
}

/// The variables, in the order in which they were declared.
#[derive(Drop)]
pub struct Vars {
    variables: Vec<Variable>,
    // The names again, each at its variable's place. They are found by their hashes.
    names: IndexSet<Vec<u16>>,
}

impl Model for Vars {
    ghost use Rattle.std.specs.Prelude.{◌≡◌, ◌≤◌, All, List, length, map};
    ghost use Rattle.session_vars.specs.declared.Variable.{Variable as Declared};
    ghost use Rattle.session_vars.specs.Variables.{HasItsType, count_limit};

    ghost Value = { List Declared };

    ghost view = { λ vars. vars.variables.items };

    ghost invariant = { λ vars.
        (map (λ key. key.items) vars.names.keys ≡ map (λ variable. variable.name) vars.variables.items)
        × (length vars.variables.items ≤ count_limit)
        × All HasItsType vars.variables.items };
}

impl Vars {
    /// No variables.
    pub fn new(alloc: Global) -> Vars
        ensures { result ≡ [] }
    {
        Vars {
            variables: Vec::new(alloc),
            names: IndexSet::new(alloc),
        }
    }

    /// Adds a variable of a new name.
    pub fn declare(&mut self, alloc: Global, name: Units, kind: SqlType) -> Result<(), VarFault>
        requires { length self.old < count_limit }
        ensures declared { OnOk result (self.new ≡ self.old ++ fresh name kind ∷ []) }
        ensures present { (result ≡ Err VarFault.Present) ↔ IsSome (place_of name self.old) }
        ensures err { OnErr result (self.new ≡ self.old) }
    {
        if self.find(&name).is_some() {
            return Err(VarFault::Present);
        }
        let key = Vec::from_slice(alloc, name.as_slice())?;
        self.variables.reserve(1)?;
        self.names.insert(key)?;
        self.variables.push(Variable {
            name,
            kind,
            value: Value::Null,
        })?;
        Ok(())
    }

    /// The place of the variable of this name.
    pub fn find(&self, name: &Units) -> Option<u16>
        ensures { result ≡ place_of name.now self.now }
    {
        let place = self.names.get_index_of(name.as_slice())?;
        Some(place as u16)
    }

    /// How many variables there are.
    pub fn count(&self) -> u16
        ensures { result ≡ length self.now }
    {
        self.variables.len() as u16
    }

    /// Each variable is NULL or has a value of its type.
    pub fn law_typed(&self)
        ensures { All HasItsType self.now }
    {
        let _ = &self.variables;
    }

    /// The value of the variable at a place.
    pub fn get(&self, place: u16) -> &Value
        requires { place < length self.now }
        ensures { (variable : Variable) → StandsAt place variable self.now → result.now ≡ variable.value }
    {
        &self.variables[usize::from(place)].value
    }

    /// The name of the variable at a place.
    pub fn name(&self, place: u16) -> &Units
        requires { place < length self.now }
        ensures { (variable : Variable) → StandsAt place variable self.now → result.now ≡ variable.name }
    {
        &self.variables[usize::from(place)].name
    }

    /// The type of the variable at a place.
    pub fn kind(&self, place: u16) -> SqlType
        requires { place < length self.now }
        ensures { (variable : Variable) → StandsAt place variable self.now → result ≡ variable.kind }
    {
        self.variables[usize::from(place)].kind
    }

    /// Gives the variable at a place another value.
    pub fn set(&mut self, place: u16, value: Value)
        requires within { place < length self.old }
        requires fits { FitsAt place value self.old }
        ensures { (variable : Variable) → StandsAt place variable self.old
            → self.new ≡ slice_set self.old place (record variable { value = value }) }
    {
        let variable = &mut self.variables[usize::from(place)];
        variable.value = value;
    }
}
