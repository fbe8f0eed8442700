// The path so far, and the guard that takes it back.
ghost use Rattle.std.specs.Prelude.{◌≡◌, ◌-◌, ◌<◌, ◌≤◌, [], ◌∷◌, ◌++◌, length, take};
ghost use Rattle.plan.specs.Links.{entered as entered_path, parts_of};

use arrayvec::ArrayVec;
use schema::{Header, MAX_LEVELS};

/// The headers from right below the root down to where a visit stands.
#[derive(Drop)]
pub(crate) struct Path {
    headers: ArrayVec<Header, MAX_LEVELS>,
}

/// Held inside a node; its end takes the path back to the node above.
pub(crate) struct Entered<'a> {
    pub(crate) path: &'a mut Path,
}

impl Drop for Entered<'_> {
    fn drop(self)
        ensures takes_back { parts_of self.exit.0.now ≡ take (length (parts_of self.entry.path.now) - 1) (parts_of self.entry.path.now) }
    {
        self.path.headers.pop();
        let Entered { path: _ } = self;
    }
}

impl Path {
    /// The path of the root, which is empty.
    pub(crate) fn root() -> Path
        ensures { parts_of result ≡ [] }
    {
        Path {
            headers: ArrayVec::new(),
        }
    }

    /// Makes the path one node longer, until the guard ends.
    pub(crate) fn enter(&mut self, header: Header) -> Entered<'_>
        requires { length (parts_of self.old) < 16 }
        ensures starts { result.path.now ≡ entered_path self.old header }
        ensures lends { result.path.ghost_name ≡ self.entry.ghost_name }
    {
        self.headers.push(header);
        Entered { path: self }
    }

    /// How many nodes the path has.
    pub(crate) fn depth(&self) -> usize
        ensures { result ≡ length (parts_of self.now) }
    {
        self.headers.len()
    }

    /// The headers of the path's nodes, from right below the root down.
    pub(crate) fn headers(&self) -> &[Header]
        ensures parts { result.now ≡ parts_of self.now }
        ensures short { length result.now ≤ 16 }
    {
        self.headers.as_slice()
    }
}
