pub mod faces;
pub mod makes;
pub mod ranking;
pub mod reads;

ghost use Rattle.std.specs.Prelude.{◌≡◌, true};
ghost use Rattle.complex.specs.Simplex.{rises};
ghost use Rattle.simplex.specs.Shapes.{corners};

use crate::shape::Shape;

// A simplex. Any sixteen-bit numbers may be its vertices: which of them are in range is for a store to say.
#[derive(Clone, Copy, Debug, PartialEq, Eq)]
pub struct Simplex {
    pub(crate) shape: Shape,
    ghost rising: { rises (corners shape) ≡ true },
}
