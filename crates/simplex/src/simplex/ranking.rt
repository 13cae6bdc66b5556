// The order of simplexes: fewer vertices first, then the last vertices, then those before them.
ghost use Rattle.std.specs.Cmp.{on_total, po};
ghost use Rattle.std.specs.Ordering.{as_partial_cmp};
ghost use Rattle.std.specs.Prelude.{refl};
ghost use Rattle.simplex.specs.Simplexes.{by_vertices, vertices};
ghost use Rattle.simplex.specs.Alike.{alike};
ghost use Rattle.complex.proofs.Order.{colex_lawful};

use crate::shape::Shape;
use crate::simplex::Simplex;
use std::cmp::Ordering;

// A derived order would compare the first vertices first.
impl Ord for Simplex {
    ghost cmp = { by_vertices };

    ghost total = { on_total vertices colex_lawful };

    ghost matches_partial_cmp = { λ _ _. refl };

    ghost matches_eq = { λ x y. alike x.shape y.shape };

    fn cmp(&self, other: &Simplex) -> Ordering {
        match (self.shape, other.shape) {
            (Shape::Point(a), Shape::Point(e)) => a.cmp(&e),
            (Shape::Edge(a, b), Shape::Edge(e, f)) => (b, a).cmp(&(f, e)),
            (Shape::Triangle(a, b, c), Shape::Triangle(e, f, g)) => (c, b, a).cmp(&(g, f, e)),
            (Shape::Tetrahedron(a, b, c, d), Shape::Tetrahedron(e, f, g, h)) => {
                (d, c, b, a).cmp(&(h, g, f, e))
            }
            _ => self.size().cmp(&other.size()),
        }
    }
}

impl PartialOrd for Simplex {
    ghost partial_cmp = { as_partial_cmp by_vertices };

    ghost laws = { po (on_total vertices colex_lawful) (λ x y. alike x.shape y.shape) };

    fn partial_cmp(&self, other: &Simplex) -> Option<Ordering> {
        Some(self.cmp(other))
    }
}
