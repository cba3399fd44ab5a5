// What `node` prints of edges.

ghost use Rattle.std.specs.Prelude.{◌≡◌, ◌++◌, ◌∷◌, [], decimal, codes, OnOk};
ghost use Rattle.rapid_lines.specs.EdgeText.{edge_text, all_edges_text, edges_text, state_text};

use crate::view_text::{write_member, write_number};
use rapid_rounds::EdgeState;
use std::alloc::AllocError;

/// The line that `edges` prints if no process is observed.
pub const NO_EDGES: &[u8] = b"edges none\n";

/// Appends the line of an edge.
fn write_edge(edge: &EdgeState, output: &mut Vec<u8>) -> Result<(), AllocError>
    ensures { OnOk result (output.new.items ≡ output.old.items ++ edge_text edge.now) }
{
    output.extend_from_slice(b"edge ")?;
    write_number(u64::from(edge.ring), output)?;
    output.push(b' ')?;
    write_member(&edge.member, output)?;
    output.extend_from_slice(state_word(edge.is_down))
}

/// The word after an edge, and the end of its line.
fn state_word(is_down: bool) -> &'static [u8]
    ensures { result.now ≡ state_text is_down }
{
    if is_down { b" down\n" } else { b" up\n" }
}

/// Appends the lines of edges.
fn write_all(edges: &[EdgeState], output: &mut Vec<u8>) -> Result<(), AllocError>
    ensures { OnOk result (output.new.items ≡ output.old.items ++ all_edges_text edges.now) }
{
    for edge in edges {
        write_edge(edge, output)?;
    }
    Ok(())
}

/// Appends a line for each edge, or the one that there is none.
pub fn write_edges(edges: &[EdgeState], output: &mut Vec<u8>) -> Result<(), AllocError>
    ensures { OnOk result (output.new.items ≡ output.old.items ++ edges_text edges.now) }
{
    if edges.is_empty() {
        return output.extend_from_slice(NO_EDGES);
    }
    write_all(edges, output)
}
