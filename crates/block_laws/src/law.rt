//! What is declared where in a module. The function does nothing, and its contract states the law.

ghost use Rattle.block_laws.specs.Laws.{ModulesDeclareInPlace};

/// In each module of a text the parameters are inputs and outputs, the body is a block, and all
/// that is declared in it, in whatever block, are locals.
pub fn modules_declare_in_place()
    ensures { ModulesDeclareInPlace }
{}
