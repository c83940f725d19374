//! Modules that break none of the rules.

ghost use Rattle.std.specs.Prelude.{◌≡◌, None};
ghost use Rattle.quartz_tree.specs.Kernel.{kernel};
ghost use Rattle.quartz_names.specs.Numbered.{IsResolved};
ghost use Rattle.quartz_types.specs.Rules.{first_break};

use quartz_names::Resolved;

/// A resolved module that breaks none of the rules S4 to S7.
#[derive(Debug, Drop)]
pub struct Typed {
    pub(crate) resolved: Resolved,
    pub ghost origin: { IsResolved resolved },
    pub ghost sound: { first_break resolved.vars (kernel resolved.body) ≡ None },
}

impl Typed {
    /// The module.
    pub fn get(&self) -> &Resolved
        ensures { result.now ≡ self.now.resolved }
    {
        &self.resolved
    }
}
