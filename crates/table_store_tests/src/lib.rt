// Runs of the table store.
#![tactic(auto)]

#[cfg(test)]
mod tests {
    use order::record::Record;
    use simplex::simplex::Simplex;
    use std::test::Fail;
    use store::meaning::Store;
    use table_store::records::TableStore;

    #[test]
    fn holds_simplexes_in_order(rt: HostRuntime) -> Result<(), Fail> {
        let point = Simplex::try_from([7].as_slice())?;
        let edge = Simplex::try_from([2, 5].as_slice())?;
        let triangle = Simplex::try_from([2, 5, 7].as_slice())?;
        let mut records = [Record {
            key: point,
            value: 9u8,
        }; 5];
        let mut store = TableStore::open(&mut records);
        assert_eq!(rt; store.held(), 0);
        assert_eq!(rt; store.look(&point), 0);
        assert_eq!(rt; store.put(triangle, 1).map_err(u8::from), Ok(()));
        assert_eq!(rt; store.put(edge, 3).map_err(u8::from), Ok(()));
        assert_eq!(rt; store.put(point, 255).map_err(u8::from), Ok(()));
        assert_eq!(rt; store.look(&edge), 3);
        assert_eq!(rt; store.after(None), Some(point));
        assert_eq!(rt; store.after(Some(point)), Some(edge));
        assert_eq!(rt; store.after(Some(edge)), Some(triangle));
        assert_eq!(rt; store.after(Some(triangle)), None);
        assert_eq!(rt; store.put(edge, 0).map_err(u8::from), Ok(()));
        assert_eq!(rt; store.put(edge, 0).map_err(u8::from), Ok(()));
        assert_eq!(rt; store.look(&edge), 0);
        assert_eq!(rt; store.held(), 2);
        Ok(())
    }

    #[test]
    fn takes_vertices_below_its_range(rt: HostRuntime) -> Result<(), Fail> {
        let inside = Simplex::try_from([0, 4095].as_slice())?;
        let outside = Simplex::try_from([0, 4096].as_slice())?;
        let mut records = [Record {
            key: inside,
            value: 0u8,
        }; 3];
        let mut store = TableStore::open(&mut records);
        assert_eq!(rt; store.range(), 4096);
        assert_eq!(rt; store.put(inside, 1).map_err(u8::from), Ok(()));
        assert_eq!(rt; store.put(outside, 1).map_err(u8::from), Err(3));
        assert_eq!(rt; store.put(outside, 0).map_err(u8::from), Ok(()));
        assert_eq!(rt; store.held(), 1);
        Ok(())
    }

    #[test]
    fn is_full_at_its_limit(rt: HostRuntime) -> Result<(), Fail> {
        let point = Simplex::try_from([1].as_slice())?;
        let edge = Simplex::try_from([1, 2].as_slice())?;
        let other = Simplex::try_from([1, 3].as_slice())?;
        let mut records = [Record {
            key: point,
            value: 0u8,
        }; 2];
        let mut store = TableStore::open(&mut records);
        assert_eq!(rt; store.limit(), 2);
        assert_eq!(rt; store.put(edge, 1).map_err(u8::from), Ok(()));
        assert_eq!(rt; store.put(point, 1).map_err(u8::from), Ok(()));
        assert_eq!(rt; store.put(other, 1).map_err(u8::from), Err(22));
        assert_eq!(rt; store.put(edge, 5).map_err(u8::from), Ok(()));
        assert_eq!(rt; store.look(&edge), 5);
        assert_eq!(rt; store.look(&other), 0);
        Ok(())
    }

    #[test]
    fn over_no_records(rt: HostRuntime) -> Result<(), Fail> {
        let point = Simplex::try_from([1].as_slice())?;
        let mut records = [Record {
            key: point,
            value: 0u8,
        }; 0];
        let mut store = TableStore::open(&mut records);
        assert_eq!(rt; store.limit(), 0);
        assert_eq!(rt; store.put(point, 1).map_err(u8::from), Err(22));
        assert_eq!(rt; store.after(None), None);
        Ok(())
    }
}
