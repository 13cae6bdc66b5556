// A simplex, or the empty one, which is None, with a vertex added.
ghost use Rattle.std.specs.Prelude.{◌≡◌};
ghost use Rattle.complex.specs.Model.{mask};
ghost use Rattle.complex.specs.Simplex.{plus};
ghost use Rattle.simplex.specs.Simplexes.{vertices_or_none, found, fitted};

use simplex::simplex::Simplex;
use store::meaning::Store;

// The base with the vertex x added, unless that makes five vertices.
pub(crate) fn with_vertex(base: Option<Simplex>, x: u16) -> Option<Simplex>
    ensures { found result ≡ fitted (plus x (vertices_or_none base)) }
{
    match base {
        Some(s) => s.with(x),
        None => Some(Simplex::point(x)),
    }
}

// The mask of the base with x; one of five vertices is held nowhere.
pub(crate) fn mask_with<S: Store>(store: &S, base: Option<Simplex>, x: u16) -> u8
    ensures { result ≡ mask (S.Store.contents store.now).model (plus x (vertices_or_none base)) }
{
    match with_vertex(base, x) {
        Some(s) => store.look(&s),
        None => 0,
    }
}
