// What a simplex says of its vertices.
ghost use Rattle.std.specs.Prelude.{◌≡◌, length};
ghost use Rattle.complex.specs.Simplex.{below, has};
ghost use Rattle.simplex.specs.Simplexes.{vertices};

use crate::shape::Shape;
use crate::simplex::Simplex;

impl Simplex {
    // How many vertices there are.
    pub fn size(&self) -> usize
        ensures { result ≡ length (vertices self.now) }
    {
        match self.shape {
            Shape::Point(_) => 1,
            Shape::Edge(_, _) => 2,
            Shape::Triangle(_, _, _) => 3,
            Shape::Tetrahedron(_, _, _, _) => 4,
        }
    }

    // Is every vertex below the range?
    pub fn within(&self, range: u16) -> bool
        ensures { result ≡ below range (vertices self.now) }
    {
        let last = match self.shape {
            Shape::Point(a) => a,
            Shape::Edge(_, b) => b,
            Shape::Triangle(_, _, c) => c,
            Shape::Tetrahedron(_, _, _, d) => d,
        };
        last < range
    }

    // Is v one of the vertices?
    pub fn has(&self, v: u16) -> bool
        ensures { result ≡ has v (vertices self.now) }
    {
        match self.shape {
            Shape::Point(a) => v == a,
            Shape::Edge(a, b) => v == a || v == b,
            Shape::Triangle(a, b, c) => v == a || v == b || v == c,
            Shape::Tetrahedron(a, b, c, d) => v == a || v == b || v == c || v == d,
        }
    }

    // The kind of simplex, with its vertices.
    pub fn shape(&self) -> Shape
        ensures { result ≡ self.now.shape }
    {
        self.shape
    }
}
