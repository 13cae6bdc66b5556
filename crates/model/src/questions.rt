// What can be asked of the model in any store.
ghost use Rattle.std.specs.Prelude.{◌≡◌};
ghost use Rattle.complex.specs.Model.{euler as euler_number};

use crate::part::Part;
use store::meaning::Store;
use store::walk::Simplexes;

// The simplexes of a part with one or three vertices, less those with two or four.
pub fn euler<S: Store>(store: &S, part: Part) -> i32
    ensures { result ≡ euler_number part.number (S.Store.contents store.now).model }
{
    let mut up = 0usize;
    let mut down = 0usize;
    for s in Simplexes::of(store) {
        if part.is_in(store.look(&s)) {
            if s.size() % 2 == 1 {
                up += 1;
            } else {
                down += 1;
            }
        }
    }
    up as i32 - down as i32
}
