//! The statement inside its scopes.

ghost use Rattle.std.specs.Prelude.{◌≡◌};
ghost use Rattle.quartz_tree.specs.Kernel.{kernel};
ghost use Rattle.quartz_names.specs.Unscoped.{IsNoDeeper, unscoped as plain_unscoped};

use quartz_tree::Stmt;

/// The statement inside all scopes around it. A block's head makes a scope of each name that it
/// declares, one in another, so a walk that goes through scopes by this loop goes no deeper than
/// the levels of the text.
pub fn unscoped(stmt: &Stmt) -> &Stmt
    ensures inside { kernel result.now ≡ plain_unscoped (kernel stmt.now) }
    ensures no_deeper { IsNoDeeper result.now stmt.now }
{
    let mut inner = stmt;
    while let Stmt::Local { body, .. } = inner {
        inner = body;
    }
    inner
}
