// The faces of a simplex, by number and one after another.
ghost use Rattle.std.specs.Prelude.{◌≡◌, ◌<◌, ◌≤◌, [], ◌∷◌, length};
ghost use Rattle.std.specs.List.{slice_get};
ghost use Rattle.std.specs.Iterator.{YieldsFirstBy, item_count};
ghost use Rattle.complex.specs.Simplex.{faces};
ghost use Rattle.simplex.specs.Simplexes.{vertices, found};
ghost use Rattle.simplex.specs.FacesLeft.{faces_left};

use crate::shape::Shape;
use crate::simplex::Simplex;
use crate::simplex::makes::simplex;

// No simplex has more faces, itself counted.
pub const MOST_FACES: usize = 15;

impl Simplex {
    // The face at place i, from 0, in the order of the definition; the last is the simplex itself.
    pub fn face(&self, i: usize) -> Option<Simplex>
        ensures { found result ≡ slice_get (faces (vertices self.now)) i }
    {
        match self.shape {
            Shape::Point(_) => { if i == 0 { Some(*self) } else { None } }
            Shape::Edge(a, b) => edge_face(a, b, i),
            Shape::Triangle(a, b, c) => triangle_face(a, b, c, i),
            Shape::Tetrahedron(a, b, c, d) => tetrahedron_face(a, b, c, d, i),
        }
    }

    // All faces in that order.
    pub fn faces(&self) -> Faces
        ensures all { faces_left result ≡ faces (vertices self.now) }
        ensures few { length (faces (vertices self.now)) ≤ MOST_FACES }
    {
        Faces {
            simplex: *self,
            next: 0,
        }
    }
}

// The faces of a simplex from a place on.
#[derive(Clone, Debug, Drop)]
pub struct Faces {
    simplex: Simplex,
    next: usize,
}

impl Iterator for Faces {
    type Item = Simplex;

    ghost next_gives = { YieldsFirstBy vertices faces_left };

    ghost remaining = { item_count faces_left };

    fn next(&mut self) -> Option<Simplex> {
        let face = self.simplex.face(self.next)?;
        self.next += 1;
        Some(face)
    }
}

// For each size the faces by number, in the order of the definition. That the vertices rise is what the type of the simplex
// carries, out of which they were taken.
fn edge_face(a: u16, b: u16, i: usize) -> Option<Simplex>
    requires { a < b }
    ensures { found result ≡ slice_get (faces (a ∷ (b ∷ []))) i }
{
    match i {
        0 => Some(simplex(Shape::Point(a))),
        1 => Some(simplex(Shape::Point(b))),
        2 => Some(simplex(Shape::Edge(a, b))),
        _ => None,
    }
}

fn triangle_face(a: u16, b: u16, c: u16, i: usize) -> Option<Simplex>
    requires { (a < b) × (b < c) }
    ensures { found result ≡ slice_get (faces (a ∷ (b ∷ (c ∷ [])))) i }
{
    match i {
        0 => Some(simplex(Shape::Point(a))),
        1 => Some(simplex(Shape::Point(b))),
        2 => Some(simplex(Shape::Point(c))),
        3 => Some(simplex(Shape::Edge(b, c))),
        4 => Some(simplex(Shape::Edge(a, b))),
        5 => Some(simplex(Shape::Edge(a, c))),
        6 => Some(simplex(Shape::Triangle(a, b, c))),
        _ => None,
    }
}

fn tetrahedron_face(a: u16, b: u16, c: u16, d: u16, i: usize) -> Option<Simplex>
    requires { (a < b) × (b < c) × (c < d) }
    ensures { found result ≡ slice_get (faces (a ∷ (b ∷ (c ∷ (d ∷ []))))) i }
{
    match i {
        0 => Some(simplex(Shape::Point(a))),
        1 => Some(simplex(Shape::Point(b))),
        2 => Some(simplex(Shape::Point(c))),
        3 => Some(simplex(Shape::Point(d))),
        4 => Some(simplex(Shape::Edge(c, d))),
        5 => Some(simplex(Shape::Edge(b, c))),
        6 => Some(simplex(Shape::Edge(b, d))),
        7 => Some(simplex(Shape::Triangle(b, c, d))),
        8 => Some(simplex(Shape::Edge(a, b))),
        9 => Some(simplex(Shape::Edge(a, c))),
        10 => Some(simplex(Shape::Edge(a, d))),
        11 => Some(simplex(Shape::Triangle(a, c, d))),
        12 => Some(simplex(Shape::Triangle(a, b, c))),
        13 => Some(simplex(Shape::Triangle(a, b, d))),
        14 => Some(simplex(Shape::Tetrahedron(a, b, c, d))),
        _ => None,
    }
}
