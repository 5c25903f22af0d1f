// The tables of a registry, as lists that one may read: walks go over dense lists.
ghost use Rattle.std.specs.Prelude.{◌≡◌};
ghost use Rattle.fw_components.specs.Kept.{IsKept};

use crate::registry::Registry;
use fw_units::Component;
use stream_law::Join;

impl Registry {
    /// The components that are neither buffers nor pipelines, by ascending id.
    pub fn comps(&self) -> &[Component]
        ensures items { result.now ≡ self.now.comps }
        ensures kept { IsKept self.now }
    {
        self.comps.as_slice()
    }

    /// The buffers by ascending id.
    pub fn buffers(&self) -> &[Component]
        ensures items { result.now ≡ self.now.buffers }
        ensures kept { IsKept self.now }
    {
        self.buffers.as_slice()
    }

    /// The pipelines by ascending id.
    pub fn pipes(&self) -> &[Component]
        ensures items { result.now ≡ self.now.pipes }
        ensures kept { IsKept self.now }
    {
        self.pipes.as_slice()
    }

    /// The joins in the order in which they came: at most 256.
    pub fn joins(&self) -> &[Join]
        ensures items { result.now ≡ self.now.joins }
        ensures kept { IsKept self.now }
    {
        self.joins.as_slice()
    }
}
