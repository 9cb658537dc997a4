ghost use Rattle.std.specs.Prelude.{◌≡◌, ◌^◌};
ghost use Rattle.spec_place.specs.Vectors.{vector_of, IsWithin};
ghost use Rattle.spec_place.specs.Transforms.{identity};
ghost use Rattle.spec_place.specs.Frames.{frame_of_axes, frame_then, frame_inverse};

use crate::axes::axes_in_space;
use crate::matrix::{composed, has_offset, inverse, of_columns, with_clamped};
use crate::types::{Dir, Frame};
use crate::vector::{ALONG_X, ALONG_Y, ALONG_Z, wide_vector_of};
use spec_place::{PlaceFault, Transform};
use spec_space::Vector;

impl Frame {
    /// The frame of the world.
    pub fn identity() -> Frame
        ensures { result ≡ identity }
    {
        Frame {
            transform: Transform {
                x: ALONG_X,
                y: ALONG_Y,
                z: ALONG_Z,
                off: Vector { x: 0, y: 0, z: 0 },
            },
        }
    }

    /// The frame at a place in nanometres, of sizes of at most 10^16, with z along the axis and x along
    /// what the reference direction has across it (axis2_placement_3d of ISO 10303-42, with this
    /// project's rounding). Where the axis is unset it is z, and where the reference direction is unset
    /// it is x, or y if the axis is along x.
    ///
    /// # Errors
    ///
    /// `Parallel` exactly where a reference direction is given and less than 10^-6 of each of its parts
    /// is left across the axis.
    #[tactic(auto, using(crate::proofs::Bounded::of_small_columns))]
    pub fn of_axes(
        at: [i64; 3],
        axis: Option<Dir>,
        ref_dir: Option<Dir>,
    ) -> Result<Frame, PlaceFault>
        requires { IsWithin (10 ^ 16) (vector_of at) }
        ensures { result ≡ frame_of_axes (vector_of at) axis ref_dir }
    {
        let axes = axes_in_space(axis, ref_dir)?;
        Ok(Frame {
            transform: of_columns(&axes, wide_vector_of(at)),
        })
    }

    /// The frame that stands as b within this one; each entry of its matrix is clamped to 1 (a rule of
    /// this project).
    ///
    /// # Errors
    ///
    /// `OffsetTooLarge` exactly where its offset has a part of a size above 10^16 nanometres.
    #[tactic(auto, using(crate::proofs::Bounded::frame_map, crate::proofs::Bounded::small_frame))]
    pub fn then(&self, b: &Frame) -> Result<Frame, PlaceFault>
        ensures { result ≡ frame_then self.now b.now }
    {
        let transform = with_clamped(&composed(&self.transform, &b.transform));
        if has_offset(&transform) {
            Ok(Frame { transform })
        } else {
            Err(PlaceFault::OffsetTooLarge)
        }
    }

    /// The frame of the world as seen from this one: the transposed matrix, and the offset turned back
    /// (a rule of this project).
    ///
    /// # Errors
    ///
    /// `OffsetTooLarge` exactly where its offset has a part of a size above 10^16 nanometres.
    #[tactic(auto, using(crate::proofs::Bounded::frame_map, crate::proofs::Bounded::inverse_frame))]
    pub fn inverse(&self) -> Result<Frame, PlaceFault>
        ensures { result ≡ frame_inverse self.now }
    {
        let transform = inverse(&self.transform);
        if has_offset(&transform) {
            Ok(Frame { transform })
        } else {
            Err(PlaceFault::OffsetTooLarge)
        }
    }
}
