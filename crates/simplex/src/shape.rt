// The four kinds of simplex, each with its vertices.
#[derive(Clone, Copy, Debug, PartialEq, Eq)]
pub enum Shape {
    Point(u16),
    Edge(u16, u16),
    Triangle(u16, u16, u16),
    Tetrahedron(u16, u16, u16, u16),
}
