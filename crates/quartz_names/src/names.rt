//! What names stand for at a point of a walk.

ghost use Rattle.std.specs.Prelude.{◌≡◌, OnOk, Some};
ghost use Rattle.quartz_names.specs.Scopes.{no_names, standing};
ghost use Rattle.quartz_names.specs.Walks.{scope_of};

use indexmap::IndexMap;
use quartz_tree::{Name, NoMemory};
use std::alloc::Global;

/// What each name stands for. A name that has stood for a variable and stands for none now keeps
/// its entry.
#[derive(Drop)]
pub(crate) struct Names {
    numbers: IndexMap<String, Option<u32>>,
}

impl Names {
    /// No name stands for a variable.
    pub(crate) fn new(alloc: Global) -> Names
        ensures { scope_of result ≡ no_names }
    {
        Names {
            numbers: IndexMap::new(alloc),
        }
    }

    /// The number of the variable for which a name stands.
    pub(crate) fn number(&self, name: &Name) -> Option<u32>
        ensures { result ≡ scope_of self.now name.now }
    {
        match self.numbers.get(name.text()) {
            Some(number) => *number,
            None => None,
        }
    }

    /// From now on the name stands for this.
    pub(crate) fn set(
        &mut self,
        alloc: Global,
        name: &Name,
        number: Option<u32>,
    ) -> Result<(), NoMemory>
        ensures { OnOk result (scope_of self.new ≡ standing (scope_of self.old) name.now number) }
    {
        let key = String::from_str(alloc, name.text())?;
        self.numbers.insert(key, number)?;
        Ok(())
    }
}
