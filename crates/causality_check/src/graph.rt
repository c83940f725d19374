//! The graph of needs: for each cell a list of cells.

ghost use Rattle.std.specs.Prelude.{◌≡◌, ◌<◌, length};
ghost use Rattle.causality_check.specs.Graph.{row};

use sqlite_items::Items;

/// The cells that a cell needs.
pub(crate) fn needed_by(graph: &[Items<u32>], cell: u32) -> &[u32]
    requires { cell < length graph.now }
    ensures { result.now ≡ row graph.now cell }
{
    graph[cell as usize].as_slice()
}
