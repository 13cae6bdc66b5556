// Simplexes made from vertices.
ghost use Rattle.std.specs.Prelude.{◌≡◌, true, [], ◌∷◌};
ghost use Rattle.complex.specs.Simplex.{plus, less, rises};
ghost use Rattle.simplex.specs.Shapes.{corners};
ghost use Rattle.simplex.specs.Simplexes.{vertices, vertices_or_none, found, fitted, Makes};

use crate::shape::Shape;
use crate::simplex::Simplex;

// Not one to four vertices in strictly rising order.
#[derive(Clone, Copy, Debug, PartialEq, Eq)]
pub struct NotRising;

impl<'a> TryFrom<&'a [u16]> for Simplex {
    type Error = NotRising;

    ghost try_from_gives = { λ list r. Makes list.now r };

    fn try_from(list: &'a [u16]) -> Result<Simplex, NotRising> {
        match *list {
            [a] => Ok(simplex(Shape::Point(a))),
            [a, b] if a < b => Ok(simplex(Shape::Edge(a, b))),
            [a, b, c] if a < b && b < c => Ok(simplex(Shape::Triangle(a, b, c))),
            [a, b, c, d] if a < b && b < c && c < d => Ok(simplex(Shape::Tetrahedron(a, b, c, d))),
            _ => Err(NotRising),
        }
    }
}

impl Simplex {
    // A vertex as a simplex.
    pub fn point(v: u16) -> Simplex
        ensures { vertices result ≡ v ∷ [] }
    {
        simplex(Shape::Point(v))
    }

    // This simplex with the vertex v added, unless that makes five.
    pub fn with(&self, v: u16) -> Option<Simplex>
        ensures { found result ≡ fitted (plus v (vertices self.now)) }
    {
        match self.shape {
            Shape::Point(a) => point_with(a, v),
            Shape::Edge(a, b) => edge_with(a, b, v),
            Shape::Triangle(a, b, c) => triangle_with(a, b, c, v),
            Shape::Tetrahedron(a, b, c, d) => {
                if v == a || v == b || v == c || v == d {
                    Some(*self)
                } else {
                    None
                }
            }
        }
    }

    // This simplex without the vertex v; None is the empty simplex.
    pub fn without(&self, v: u16) -> Option<Simplex>
        ensures { vertices_or_none result ≡ less v (vertices self.now) }
    {
        match self.shape {
            Shape::Point(a) => { if v == a { None } else { Some(*self) } }
            Shape::Edge(a, b) => edge_without(a, b, v),
            Shape::Triangle(a, b, c) => triangle_without(a, b, c, v),
            Shape::Tetrahedron(a, b, c, d) => tetrahedron_without(a, b, c, d, v),
        }
    }
}

// The simplex of a shape whose vertices rise.
pub(crate) fn simplex(shape: Shape) -> Simplex
    requires { rises (corners shape) ≡ true }
    ensures { vertices result ≡ corners shape }
{
    Simplex { shape }
}

// One function for each size. One over a list of vertices would build a list and check it as a simplex again at every call.
fn edge_without(a: u16, b: u16, v: u16) -> Option<Simplex>
    requires { rises (a ∷ (b ∷ [])) ≡ true }
    ensures { vertices_or_none result ≡ less v (a ∷ (b ∷ [])) }
{
    if v == a {
        Some(simplex(Shape::Point(b)))
    } else if v == b {
        Some(simplex(Shape::Point(a)))
    } else {
        Some(simplex(Shape::Edge(a, b)))
    }
}

fn triangle_without(a: u16, b: u16, c: u16, v: u16) -> Option<Simplex>
    requires { rises (a ∷ (b ∷ (c ∷ []))) ≡ true }
    ensures { vertices_or_none result ≡ less v (a ∷ (b ∷ (c ∷ []))) }
{
    if v == a {
        Some(simplex(Shape::Edge(b, c)))
    } else if v == b {
        Some(simplex(Shape::Edge(a, c)))
    } else if v == c {
        Some(simplex(Shape::Edge(a, b)))
    } else {
        Some(simplex(Shape::Triangle(a, b, c)))
    }
}

fn tetrahedron_without(a: u16, b: u16, c: u16, d: u16, v: u16) -> Option<Simplex>
    requires { rises (a ∷ (b ∷ (c ∷ (d ∷ [])))) ≡ true }
    ensures { vertices_or_none result ≡ less v (a ∷ (b ∷ (c ∷ (d ∷ [])))) }
{
    if v == a {
        Some(simplex(Shape::Triangle(b, c, d)))
    } else if v == b {
        Some(simplex(Shape::Triangle(a, c, d)))
    } else if v == c {
        Some(simplex(Shape::Triangle(a, b, d)))
    } else if v == d {
        Some(simplex(Shape::Triangle(a, b, c)))
    } else {
        Some(simplex(Shape::Tetrahedron(a, b, c, d)))
    }
}

// One for each size here too.
fn point_with(a: u16, v: u16) -> Option<Simplex>
    ensures { found result ≡ fitted (plus v (a ∷ [])) }
{
    if v < a {
        Some(simplex(Shape::Edge(v, a)))
    } else if v == a {
        Some(simplex(Shape::Point(a)))
    } else {
        Some(simplex(Shape::Edge(a, v)))
    }
}

fn edge_with(a: u16, b: u16, v: u16) -> Option<Simplex>
    requires { rises (a ∷ (b ∷ [])) ≡ true }
    ensures { found result ≡ fitted (plus v (a ∷ (b ∷ []))) }
{
    if v < a {
        Some(simplex(Shape::Triangle(v, a, b)))
    } else if v == a || v == b {
        Some(simplex(Shape::Edge(a, b)))
    } else if v < b {
        Some(simplex(Shape::Triangle(a, v, b)))
    } else {
        Some(simplex(Shape::Triangle(a, b, v)))
    }
}

fn triangle_with(a: u16, b: u16, c: u16, v: u16) -> Option<Simplex>
    requires { rises (a ∷ (b ∷ (c ∷ []))) ≡ true }
    ensures { found result ≡ fitted (plus v (a ∷ (b ∷ (c ∷ [])))) }
{
    if v < a {
        Some(simplex(Shape::Tetrahedron(v, a, b, c)))
    } else if v == a || v == b || v == c {
        Some(simplex(Shape::Triangle(a, b, c)))
    } else if v < b {
        Some(simplex(Shape::Tetrahedron(a, v, b, c)))
    } else if v < c {
        Some(simplex(Shape::Tetrahedron(a, b, v, c)))
    } else {
        Some(simplex(Shape::Tetrahedron(a, b, c, v)))
    }
}
