// The names of a schema's nodes, in memory of their own.
ghost use Rattle.std.specs.Prelude.{◌≡◌, ◌<◌, ◌≤◌, [], map, length, MatchOption, slice_index_or};
ghost use Rattle.schema.specs.Answering.{seen_rows};
ghost use Rattle.plan.specs.Pool.{names_held, short_name};

use arrayvec::ArrayVec;
use schema::{MAX_NODES, Schema};

/// Bytes of a name.
const NAME_BYTES: usize = 255;

/// Names, one after the other.
#[derive(Drop)]
pub(crate) struct NamePool {
    names: ArrayVec<ArrayVec<u8, NAME_BYTES>, MAX_NODES>,
}

/// A name, cut after 255 bytes.
fn short(name: &[u8]) -> ArrayVec<u8, NAME_BYTES>
    ensures { result.items ≡ short_name name.now }
{
    // It fits, since it is cut to the room.
    ArrayVec::try_from(&name[0..name.len().min(NAME_BYTES)]).unwrap_or_default()
}

impl NamePool {
    /// A pool with no names.
    pub(crate) fn new() -> NamePool
        ensures { names_held result ≡ [] }
    {
        NamePool {
            names: ArrayVec::new(),
        }
    }

    /// The names of a schema's nodes in order, each cut after 255 bytes.
    pub(crate) fn of(read: &Schema) -> NamePool
        ensures names { names_held result ≡ map (λ w. short_name w.heading.name) (seen_rows read.now) }
    {
        let mut names = ArrayVec::new();
        for entry in read.nodes() {
            names.push(short(read.text(entry.header.name)));
        }
        NamePool { names }
    }

    /// The name of a node, if there is such a node.
    pub(crate) fn name(&self, node: usize) -> Option<&[u8]>
        ensures name { MatchOption result (length (names_held self.now) ≤ node) (λ p. (node < length (names_held self.now)) × (p.now ≡ slice_index_or (names_held self.now) node [])) }
    {
        let name = self.names.get(node)?;
        Some(name.as_slice())
    }
}
