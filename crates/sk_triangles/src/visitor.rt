// What is kept of the triangles that a walk finds.
use sk_base::{List, Name, NoMemory};

/// What is kept of each triangle.
pub trait Visitor {
    ghost use Rattle.std.specs.Prelude.{◌≢◌, OnOk};
    ghost use Rattle.sk_base.specs.declared.Name.{Name as ClusterName};
    ghost use Rattle.sk_triangles.specs.Growing.{GrowsBy};

    type Kept: Drop;

    /// What is kept of the three clusters of these names, which meet.
    ghost keeps: { Self → ClusterName → ClusterName → ClusterName → Self.Kept → Type 0 };

    /// Adds it.
    fn visit(&self, x: Name, y: Name, z: Name, all: &mut List<Self::Kept>) -> Result<(), NoMemory>
        requires { (x ≢ y) × (y ≢ z) × (z ≢ x) }
        ensures { OnOk result (GrowsBy (keeps self.now x y z) all.old all.new) };
}
