// Runs of drafts and working models over the table store.
#![tactic(auto)]

#[cfg(test)]
mod tests {
    use model::edits::{lay_simplex, mark_simplex, remove_all};
    use model::part::Part;
    use model::stages::{Draft, Working};
    use order::record::Record;
    use simplex::simplex::Simplex;
    use std::process::Abort;
    use store::lent::Lent;
    use store::meaning::Store;
    use table_store::records::TableStore;

    fn record() -> Record<Simplex, u8> {
        Record {
            key: Simplex::point(0),
            value: 0,
        }
    }

    fn lay<S: Store>(draft: &mut Draft<S>, list: &[u16]) -> Result<usize, u8> {
        draft.lay(list).map_err(u8::from)
    }

    fn mark<S: Store>(draft: &mut Draft<S>, part: u16, list: &[u16]) -> Result<usize, u8> {
        draft.mark(part, list).map_err(u8::from)
    }

    fn look<S: Store>(working: &Working<S>, list: &[u16]) -> Result<u8, u8> {
        working.look(list).map_err(u8::from)
    }

    fn euler<S: Store>(working: &Working<S>, part: u16) -> Result<i32, u8> {
        working.euler(part).map_err(u8::from)
    }

    fn lone_tetrahedron<S: Store>(rt: &impl Abort, store: &mut S) {
        let mut draft = Draft::open(store);
        assert_eq!(rt; lay(&mut draft, &[0, 1, 2, 3]), Ok(15));
        let working = draft.close();
        assert_eq!(rt; working.held(), 15);
        assert_eq!(rt; look(&working, &[1, 3]), Ok(1));
        assert_eq!(rt; euler(&working, 0), Ok(1));
    }

    fn no_tetrahedron<S: Store>(rt: &impl Abort, store: &mut S) {
        let mut draft = Draft::open(store);
        assert_eq!(rt; lay(&mut draft, &[0, 1, 2, 3]), Err(22));
        assert_eq!(rt; draft.held(), 0);
    }

    #[test]
    fn a_tetrahedron_needs_fifteen_records(rt: HostRuntime) {
        let mut enough = [record(); 15];
        let mut store = TableStore::open(&mut enough);
        lone_tetrahedron(&rt, &mut store);
        let mut short = [record(); 14];
        let mut store = TableStore::open(&mut short);
        no_tetrahedron(&rt, &mut store);
    }

    fn ring<S: Store>(rt: &impl Abort, store: &mut S) {
        let mut draft = Draft::open(store);
        let added = [
            lay(&mut draft, &[0, 1]),
            lay(&mut draft, &[0, 2]),
            lay(&mut draft, &[1, 2]),
        ];
        assert_eq!(rt; added, [Ok(3), Ok(2), Ok(1)]);
        assert_eq!(rt; euler(&draft.close(), 0), Ok(0));
    }

    fn hollow_tetrahedron<S: Store>(rt: &impl Abort, store: &mut S) {
        let mut draft = Draft::open(store);
        let added = [
            lay(&mut draft, &[0, 1, 2]),
            lay(&mut draft, &[0, 1, 3]),
            lay(&mut draft, &[0, 2, 3]),
            lay(&mut draft, &[1, 2, 3]),
        ];
        assert_eq!(rt; added, [Ok(7), Ok(4), Ok(2), Ok(1)]);
        assert_eq!(rt; euler(&draft.close(), 0), Ok(2));
    }

    fn five_tetrahedra<S: Store>(rt: &impl Abort, store: &mut S) {
        let mut draft = Draft::open(store);
        let added = [
            lay(&mut draft, &[0, 1, 2, 3]),
            lay(&mut draft, &[0, 1, 2, 4]),
            lay(&mut draft, &[0, 1, 3, 4]),
            lay(&mut draft, &[0, 2, 3, 4]),
            lay(&mut draft, &[1, 2, 3, 4]),
        ];
        assert_eq!(rt; added, [Ok(15), Ok(8), Ok(4), Ok(2), Ok(1)]);
        let working = draft.close();
        assert_eq!(rt; working.held(), 30);
        assert_eq!(rt; euler(&working, 0), Ok(0));
    }

    fn marked_triangles<S: Store>(rt: &impl Abort, store: &mut S) {
        let mut draft = Draft::open(store);
        let added = [lay(&mut draft, &[0, 1, 2]), lay(&mut draft, &[0, 1, 3])];
        assert_eq!(rt; added, [Ok(7), Ok(4)]);
        let changed = [
            mark(&mut draft, 1, &[0, 1, 2]),
            mark(&mut draft, 2, &[0, 1, 3]),
            mark(&mut draft, 1, &[0, 1]),
            mark(&mut draft, 7, &[0]),
        ];
        assert_eq!(rt; changed, [Ok(7), Ok(7), Ok(0), Ok(1)]);
        let working = draft.close();
        let masks = [
            look(&working, &[0]),
            look(&working, &[0, 1]),
            look(&working, &[0, 1, 2]),
            look(&working, &[3]),
            look(&working, &[2, 3]),
        ];
        assert_eq!(rt; masks, [Ok(135), Ok(7), Ok(3), Ok(5), Ok(0)]);
        assert_eq!(rt; [euler(&working, 1), euler(&working, 3)], [Ok(1), Ok(0)]);
    }

    // Each run opens a draft of its own, which empties the store.
    #[test]
    fn shapes_one_after_another(rt: HostRuntime) {
        let mut records = [record(); 40];
        let mut store = TableStore::open(&mut records);
        ring(&rt, &mut store);
        hollow_tetrahedron(&rt, &mut store);
        five_tetrahedra(&rt, &mut store);
        marked_triangles(&rt, &mut store);
    }

    // A draft may own its store, which is at hand in both stages.
    #[test]
    fn a_store_of_its_own(rt: HostRuntime) {
        let mut records = [record(); 7];
        let mut draft = Draft::open(TableStore::open(&mut records));
        assert_eq!(rt; lay(&mut draft, &[0, 1, 2]), Ok(7));
        assert_eq!(rt; draft.store().limit(), 7);
        let working = draft.close();
        assert_eq!(rt; euler(&working, 0), Ok(1));
        assert_eq!(rt; working.store().look(&Simplex::point(2)), 1);
    }

    // What stands on a `Lent` is passed on by value in both stages.
    fn closed_here<'c, S: Store>(draft: Draft<Lent<'c, S>>) -> usize {
        let working = draft.close();
        held_here(working)
    }

    fn held_here<'c, S: Store>(working: Working<Lent<'c, S>>) -> usize {
        working.held()
    }

    #[test]
    fn over_a_loan(rt: HostRuntime) {
        let mut records = [record(); 7];
        let mut store = TableStore::open(&mut records);
        let mut draft = Draft::open(Lent::of(&mut store));
        assert_eq!(rt; lay(&mut draft, &[0, 1, 2]), Ok(7));
        assert_eq!(rt; draft.store().range(), 4096);
        assert_eq!(rt; closed_here(draft), 7);
    }

    // The same changes of a bare store.
    #[test]
    fn without_a_draft(rt: HostRuntime) {
        let mut records = [record(); 3];
        let mut store = TableStore::open(&mut records);
        let point = Simplex::point(5);
        let added = lay_simplex(&mut store, &point).map_err(u8::from);
        assert_eq!(rt; added, Ok(1));
        let changed = match Part::try_from(3) {
            Ok(part) => mark_simplex(&mut store, part, &point).map_err(u8::from),
            Err(_) => Err(1),
        };
        assert_eq!(rt; changed, Ok(1));
        assert_eq!(rt; store.look(&point), 9);
        remove_all(&mut store);
        assert_eq!(rt; store.held(), 0);
    }

    fn lay_refusals<S: Store>(rt: &impl Abort, store: &mut S) {
        let mut draft = Draft::open(store);
        let vertices = [
            lay(&mut draft, &[]),
            lay(&mut draft, &[0, 1, 2, 3, 4]),
            lay(&mut draft, &[1, 1]),
            lay(&mut draft, &[4096, 0]),
        ];
        assert_eq!(rt; vertices, [Err(2); 4]);
        assert_eq!(rt;
            [lay(&mut draft, &[0, 4096]), lay(&mut draft, &[0, 4095])],
            [Err(3), Ok(3)]
        );
        assert_eq!(rt;
            [lay(&mut draft, &[0, 4095]), lay(&mut draft, &[0])],
            [Err(21); 2]
        );
        assert_eq!(rt; lay(&mut draft, &[0, 1]), Err(22));
        assert_eq!(rt; draft.held(), 3);
        assert_eq!(rt;
            [lay(&mut draft, &[1]), lay(&mut draft, &[0, 1])],
            [Ok(1), Err(22)]
        );
    }

    fn mark_refusals<S: Store>(rt: &impl Abort, store: &mut S) {
        let mut draft = Draft::open(store);
        assert_eq!(rt; lay(&mut draft, &[5, 4095]), Ok(3));
        assert_eq!(rt;
            [mark(&mut draft, 0, &[]), mark(&mut draft, 8, &[5])],
            [Err(1); 2]
        );
        let vertices = [
            mark(&mut draft, 1, &[]),
            mark(&mut draft, 7, &[1, 2, 3, 4, 5]),
            mark(&mut draft, 7, &[4096, 5]),
        ];
        assert_eq!(rt; vertices, [Err(2); 3]);
        assert_eq!(rt;
            [
                mark(&mut draft, 7, &[5, 4096]),
                mark(&mut draft, 7, &[4, 5]),
            ],
            [Err(3), Err(23)]
        );
        assert_eq!(rt;
            [mark(&mut draft, 1, &[5, 4095]), mark(&mut draft, 7, &[5])],
            [Ok(3), Ok(1)]
        );
    }

    fn question_refusals<S: Store>(rt: &impl Abort, store: &mut S) {
        let working = Draft::open(store).close();
        let vertices = [
            look(&working, &[]),
            look(&working, &[0, 1, 2, 3, 4]),
            look(&working, &[4096, 0]),
        ];
        assert_eq!(rt; vertices, [Err(2); 3]);
        assert_eq!(rt;
            [look(&working, &[0, 4096]), look(&working, &[0, 4095])],
            [Err(3), Ok(0)]
        );
        assert_eq!(rt; [euler(&working, 8), euler(&working, 7)], [Err(1), Ok(0)]);
    }

    #[test]
    fn refusals(rt: HostRuntime) {
        let mut records = [record(); 4];
        let mut store = TableStore::open(&mut records);
        lay_refusals(&rt, &mut store);
        mark_refusals(&rt, &mut store);
        question_refusals(&rt, &mut store);
    }
}
