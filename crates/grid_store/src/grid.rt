// The grid over the caller's bytes.
pub mod bytes;
pub mod methods;

ghost use Rattle.std.specs.Prelude.{◌≡◌, true, length};
ghost use Rattle.complex.specs.Model.{Sorted};
ghost use Rattle.store.specs.Contents.{fits};
ghost use Rattle.grid_store.specs.Places.{vertex_range};
ghost use Rattle.grid_store.specs.Masks.{contents_over};

// The caller's bytes, the first 41,448 of which are the grid, with the number of simplexes held. Fewer bytes hold none.
#[derive(Drop)]
pub struct GridStore<'a> {
    bytes: &'a mut [u8],
    held: usize,
    ghost counted: { held ≡ length (contents_over bytes.now).model },
    ghost sorted: { Sorted (contents_over bytes.now).model },
    ghost fit: { fits vertex_range (contents_over bytes.now).model ≡ true },
}
