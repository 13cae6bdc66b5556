// The place of a simplex, and the simplex at a place.
ghost use Rattle.std.specs.Prelude.{◌≡◌, ◌<◌, ◌≤◌, true, Some};
ghost use Rattle.complex.specs.Simplex.{below};
ghost use Rattle.simplex.specs.Simplexes.{vertices, found};
ghost use Rattle.grid_store.specs.Laws.{PlacesNumberSimplexes};
ghost use Rattle.grid_store.specs.Places.{vertex_range, places, term, first_place, place, past, size_at, largest, simplex_at};

use simplex::shape::Shape;
use simplex::simplex::Simplex;

// Vertices are below this.
pub(crate) const RANGE: u16 = 32;

// The first place of the simplexes with two, three and four vertices, and the number of places.
const EDGES: usize = 32;

const TRIANGLES: usize = 528;

const TETRAHEDRA: usize = 5488;

pub(crate) const PLACES: usize = 41448;

// What the k-th vertex adds to the place. Vertices are counted from 1, here as in the definition: k and the sizes below are
// quantities that a loop counts and a sum adds one to, so that no type of their own is plainer than `1 ≤ k`.
fn term(k: usize, x: u16) -> usize
    requires { (x < vertex_range) × (1 ≤ k) × (k ≤ 4) }
    ensures { result ≡ term k x }
{
    let x = usize::from(x);
    let y = x.saturating_sub(1);
    let z = x.saturating_sub(2);
    match k {
        1 => x,
        2 => x * y / 2,
        3 => x * y * z / 6,
        _ => x * y * z * x.saturating_sub(3) / 24,
    }
}

// The place of a simplex in range.
pub(crate) fn place(s: &Simplex) -> usize
    requires { below vertex_range (vertices s.now) ≡ true }
    ensures { result ≡ place (vertices s.now) }
{
    match s.shape() {
        Shape::Point(a) => term(1, a),
        Shape::Edge(a, b) => EDGES + term(1, a) + term(2, b),
        Shape::Triangle(a, b, c) => TRIANGLES + term(1, a) + term(2, b) + term(3, c),
        Shape::Tetrahedron(a, b, c, d) => TETRAHEDRA
            + term(1, a)
            + term(2, b)
            + term(3, c)
            + term(4, d),
    }
}

// The place of the first simplex with so many vertices.
fn first_place(size: usize) -> usize
    requires { 1 ≤ size }
    ensures { result ≡ first_place size }
{
    match size {
        1 => 0,
        2 => EDGES,
        3 => TRIANGLES,
        4 => TETRAHEDRA,
        _ => PLACES,
    }
}

// The first place past a simplex.
pub(crate) fn past(s: &Simplex) -> usize
    ensures { result ≡ past (vertices s.now) }
{
    if s.within(RANGE) {
        place(s) + 1
    } else {
        first_place(s.size() + 1)
    }
}

// The number of vertices of the simplex at a place.
fn size_at(p: usize) -> usize
    ensures { result ≡ size_at p }
{
    if p < EDGES {
        1
    } else if p < TRIANGLES {
        2
    } else if p < TETRAHEDRA {
        3
    } else {
        4
    }
}

// The largest vertex below n whose k-th term is at most r; 0 if there is none.
fn largest(k: usize, r: usize, n: u16) -> u16
    requires { (1 ≤ k) × (k ≤ 4) × (n ≤ vertex_range) }
    ensures { result ≡ largest k r n }
{
    (0..n).rev().find(|x| term(k, *x) <= r).unwrap_or(0)
}

// The simplex at a place. The last vertex is found first; each is the largest whose term is within what is left of the place.
// So they fill an array from its end; a vector grows at the other end.
pub(crate) fn simplex_at(p: usize) -> Simplex
    requires { p < places }
    ensures { vertices result ≡ simplex_at p }
{
    let size = size_at(p);
    let mut vertices = [0; 4];
    let mut rest = p - first_place(size);
    let mut last = RANGE;
    for k in (0..size).rev() {
        last = largest(k + 1, rest, last);
        rest -= term(k + 1, last);
        vertices[k] = last;
    }
    Simplex::try_from(&vertices[..size]).unwrap()
}

// The places number the simplexes in range, one to one and in their order.
pub fn places_number_simplexes()
    ensures { PlacesNumberSimplexes }
{}
