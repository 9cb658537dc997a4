ghost use Rattle.std.specs.Prelude.{◌≡◌, List, [], ◌∷◌, ◌++◌, OnOk, OnErr};
ghost use Rattle.world_print.specs.Elements.{Mesh, mesh_of};
ghost use Rattle.mesh_out.specs.Writers.{Writer};

use std::alloc::AllocError;
use world_print::ElementMesh;

/// What takes the meshes of elements one by one, and has a text for them. Writers are made by whoever runs a job and handed
/// in; a format of the words names one (rule of this project).
pub trait MeshWriter: Drop {
    /// Its name, the meshes that it took, in order, and the text that it has for each list of meshes.
    ghost view: { Self → Writer };

    /// Its name, by which the words choose it.
    fn name(&self) -> &str
        ensures { result.now ≡ (view self.now).name };

    /// Takes a mesh behind those that it took. Neither its name changes nor its text for any list.
    ///
    /// # Errors
    ///
    /// Want of memory; then it has taken nothing.
    fn take(&mut self, mesh: &ElementMesh) -> Result<(), AllocError>
        ensures taken { OnOk result ((view self.new).taken ≡ (view self.old).taken ++ mesh_of mesh.now ∷ []) }
        ensures kept { OnErr result ((view self.new).taken ≡ (view self.old).taken) }
        ensures name { (view self.new).name ≡ (view self.old).name }
        ensures texts { (meshes : List Mesh) → (view self.new).text_for meshes ≡ (view self.old).text_for meshes };

    /// Its text for the meshes that it took.
    fn text(&self) -> &[u8]
        ensures { result.now ≡ (view self.now).text_for (view self.now).taken };
}
