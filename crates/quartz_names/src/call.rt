//! Whether a statement calls a module.

ghost use Rattle.std.specs.Prelude.{◌≡◌, map};
ghost use Rattle.quartz_tree.specs.Surfaces.{branch, written};
ghost use Rattle.quartz_names.specs.Resolving.{branch_has_call, has_call};

use quartz_tree::Surface;

/// Whether a call of a module stands in the statement.
#[cycle(calls)]
pub fn has_call(stmt: &Surface) -> bool
    ensures { result ≡ has_call (written stmt.now) }
{
    match stmt {
        Surface::Empty => false,
        Surface::Pause => false,
        Surface::Halt { .. } => false,
        Surface::Await { .. } => false,
        Surface::Emit { .. } => false,
        Surface::Write { .. } => false,
        Surface::Block { branches, .. } => {
            for stmts in branches {
                if branch_has_call(stmts) {
                    return true;
                }
            }
            false
        }
        Surface::If { yes, no, .. } => match no {
            None => has_call(yes),
            Some(no) => has_call(yes) || has_call(no),
        },
        Surface::Loop { body, .. } => has_call(body),
        Surface::Always { body, .. } => has_call(body),
        Surface::While { body, .. } => has_call(body),
        Surface::Do { body, .. } => has_call(body),
        Surface::Guard { body, .. } => has_call(body),
        Surface::Call { .. } => true,
    }
}

#[cycle(calls)]
fn branch_has_call(stmts: &[Surface]) -> bool
    ensures { result ≡ branch_has_call (branch (map written stmts.now)) }
{
    for stmt in stmts {
        if has_call(stmt) {
            return true;
        }
    }
    false
}
