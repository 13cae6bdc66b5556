// Runs of the grid store.
#![tactic(auto)]

#[cfg(test)]
mod tests {
    use grid_store::grid::GridStore;
    use simplex::simplex::Simplex;
    use std::process::Abort;
    use std::test::Fail;
    use store::meaning::Store;

    // Puts a simplex alone into the grid, over bytes of which one is left over: only the byte at its place and that one are set.
    fn put_alone(
        rt: &impl Abort,
        bytes: &mut [u8],
        list: &[u16],
        place: usize,
    ) -> Result<(), Fail> {
        let mut store = GridStore::open(bytes);
        assert_eq!(rt;
            store.put(Simplex::try_from(list)?, 5).map_err(u8::from),
            Ok(())
        );
        assert_eq!(rt; store.held(), 1);
        for (i, byte) in bytes.iter().enumerate() {
            let expected = if i == place {
                5
            } else if i == 41448 {
                7
            } else {
                0
            };
            assert_eq!(rt; *byte, expected);
        }
        Ok(())
    }

    fn put_each_alone(rt: &impl Abort, bytes: &mut [u8]) -> Result<(), Fail> {
        put_alone(rt, bytes, &[0], 0)?;
        put_alone(rt, bytes, &[31], 31)?;
        put_alone(rt, bytes, &[0, 1], 32)?;
        put_alone(rt, bytes, &[30, 31], 527)?;
        put_alone(rt, bytes, &[2, 5, 7], 575)?;
        put_alone(rt, bytes, &[0, 1, 2, 3], 5488)?;
        put_alone(rt, bytes, &[28, 29, 30, 31], 41447)
    }

    #[test]
    fn each_simplex_has_its_byte(rt: HostRuntime) -> Result<(), Fail> {
        put_each_alone(&rt, &mut [7; 41449])
    }

    // Puts simplexes from the last to the first, walks through them in order, and removes the first.
    fn hold(rt: &impl Abort, bytes: &mut [u8], list: &[Simplex]) {
        let mut store = GridStore::open(bytes);
        assert_eq!(rt; (store.held(), store.limit()), (0, 41448));
        for s in list.iter().rev() {
            assert_eq!(rt; store.put(*s, 255).map_err(u8::from), Ok(()));
        }
        let mut last = None;
        for s in list {
            let next = store.after(last);
            assert_eq!(rt; next, Some(*s));
            assert_eq!(rt; store.look(s), 255);
            last = next;
        }
        assert!(rt; store.after(last).is_none());
        if let [s, ..] = list {
            assert_eq!(rt; store.put(*s, 0).map_err(u8::from), Ok(()));
            assert_eq!(rt; store.put(*s, 0).map_err(u8::from), Ok(()));
            assert_eq!(rt; store.look(s), 0);
        }
        assert_eq!(rt; store.held(), list.len().saturating_sub(1));
    }

    #[test]
    fn holds_simplexes_in_order(rt: HostRuntime) -> Result<(), Fail> {
        let list = [
            Simplex::try_from([7].as_slice())?,
            Simplex::try_from([2, 5].as_slice())?,
            Simplex::try_from([2, 5, 7].as_slice())?,
            Simplex::try_from([28, 29, 30, 31].as_slice())?,
        ];
        hold(&rt, &mut [1; 41448], &list);
        Ok(())
    }

    fn put_around_the_range(rt: &impl Abort, bytes: &mut [u8]) -> Result<(), Fail> {
        let inside = Simplex::try_from([0, 31].as_slice())?;
        let outside = Simplex::try_from([0, 32].as_slice())?;
        let triangle = Simplex::try_from([0, 1, 2].as_slice())?;
        let mut store = GridStore::open(bytes);
        assert_eq!(rt; store.range(), 32);
        assert_eq!(rt; store.put(outside, 1).map_err(u8::from), Err(3));
        assert_eq!(rt; store.put(outside, 0).map_err(u8::from), Ok(()));
        assert_eq!(rt; store.put(inside, 1).map_err(u8::from), Ok(()));
        assert_eq!(rt; store.put(triangle, 1).map_err(u8::from), Ok(()));
        assert_eq!(rt; (store.look(&outside), store.held()), (0, 2));
        assert_eq!(rt; store.after(Some(outside)), Some(triangle));
        Ok(())
    }

    #[test]
    fn takes_vertices_below_its_range(rt: HostRuntime) -> Result<(), Fail> {
        put_around_the_range(&rt, &mut [0; 41448])
    }

    fn put_into_too_little(rt: &impl Abort, bytes: &mut [u8]) -> Result<(), Fail> {
        let point = Simplex::try_from([1].as_slice())?;
        let outside = Simplex::try_from([32].as_slice())?;
        let mut store = GridStore::open(bytes);
        assert_eq!(rt; (store.held(), store.limit(), store.range()), (0, 0, 32));
        assert_eq!(rt; store.put(outside, 1).map_err(u8::from), Err(3));
        assert_eq!(rt; store.put(point, 1).map_err(u8::from), Err(22));
        assert_eq!(rt; store.put(point, 0).map_err(u8::from), Ok(()));
        assert_eq!(rt; store.look(&point), 0);
        assert!(rt; store.after(None).is_none());
        for byte in bytes.iter() {
            assert_eq!(rt; *byte, 7);
        }
        Ok(())
    }

    #[test]
    fn over_a_byte_too_few(rt: HostRuntime) -> Result<(), Fail> {
        put_into_too_little(&rt, &mut [7; 41447])
    }
}
