// The same calls over the table store and the grid store, with the same answers.
#![tactic(auto)]

#[cfg(test)]
mod tests {
    use grid_store::grid::GridStore;
    use model::stages::Draft;
    use order::record::Record;
    use simplex::simplex::Simplex;
    use store::meaning::Store;
    use table_store::records::TableStore;

    fn laid<S: Store>(draft: &mut Draft<S>) -> [Result<usize, u8>; 10] {
        [
            draft.lay(&[0, 1, 2, 3]).map_err(u8::from),
            draft.lay(&[1, 2, 3, 31]).map_err(u8::from),
            draft.lay(&[3, 30, 31]).map_err(u8::from),
            draft.lay(&[0, 30]).map_err(u8::from),
            draft.lay(&[17]).map_err(u8::from),
            draft.lay(&[17]).map_err(u8::from),
            draft.lay(&[2, 3]).map_err(u8::from),
            draft.lay(&[3, 3]).map_err(u8::from),
            draft.lay(&[]).map_err(u8::from),
            draft.lay(&[5, 4, 3, 2, 1]).map_err(u8::from),
        ]
    }

    fn marked<S: Store>(draft: &mut Draft<S>) -> [Result<usize, u8>; 8] {
        [
            draft.mark(1, &[1, 2, 3]).map_err(u8::from),
            draft.mark(2, &[3, 30]).map_err(u8::from),
            draft.mark(2, &[3]).map_err(u8::from),
            draft.mark(7, &[1, 2, 3, 31]).map_err(u8::from),
            draft.mark(0, &[0]).map_err(u8::from),
            draft.mark(8, &[0]).map_err(u8::from),
            draft.mark(3, &[17, 18]).map_err(u8::from),
            draft.mark(3, &[2, 1]).map_err(u8::from),
        ]
    }

    fn all_calls<S: Store>(
        store: &mut S,
    ) -> (
        [Result<usize, u8>; 10],
        [Result<usize, u8>; 8],
        [Result<u8, u8>; 6],
        [Result<i32, u8>; 6],
        usize,
    ) {
        let mut draft = Draft::open(store);
        let lays = laid(&mut draft);
        let marks = marked(&mut draft);
        let working = draft.close();
        let masks = [
            working.look(&[3]).map_err(u8::from),
            working.look(&[2, 3]).map_err(u8::from),
            working.look(&[1, 2, 3, 31]).map_err(u8::from),
            working.look(&[0, 31]).map_err(u8::from),
            working.look(&[1, 0]).map_err(u8::from),
            working.look(&[]).map_err(u8::from),
        ];
        let eulers = [
            working.euler(0).map_err(u8::from),
            working.euler(1).map_err(u8::from),
            working.euler(2).map_err(u8::from),
            working.euler(7).map_err(u8::from),
            working.euler(6).map_err(u8::from),
            working.euler(8).map_err(u8::from),
        ];
        (lays, marks, masks, eulers, working.held())
    }

    #[test]
    fn one_list_of_calls(rt: HostRuntime) {
        let mut records = [Record {
            key: Simplex::point(0),
            value: 0,
        }; 64];
        let mut table = TableStore::open(&mut records);
        let over_table = all_calls(&mut table);
        let mut bytes = [255; 41448];
        let mut grid = GridStore::open(&mut bytes);
        let over_grid = all_calls(&mut grid);
        assert_eq!(rt; over_table.0, over_grid.0);
        assert_eq!(rt; over_table.1, over_grid.1);
        assert_eq!(rt; over_table.2, over_grid.2);
        assert_eq!(rt; over_table.3, over_grid.3);
        assert_eq!(rt; over_table.4, over_grid.4);
        assert_eq!(rt; over_grid.4, 29);
        assert_eq!(rt; over_grid.0[1], Ok(8));
    }

    fn at_the_range<S: Store>(store: &mut S) -> [Result<usize, u8>; 4] {
        let mut draft = Draft::open(store);
        [
            draft.lay(&[30, 31]).map_err(u8::from),
            draft.lay(&[31, 32]).map_err(u8::from),
            draft.mark(1, &[31, 32]).map_err(u8::from),
            draft.mark(1, &[31]).map_err(u8::from),
        ]
    }

    #[test]
    fn ranges_and_memory(rt: HostRuntime) {
        let mut records = [Record {
            key: Simplex::point(0),
            value: 0,
        }; 8];
        let mut table = TableStore::open(&mut records);
        assert_eq!(rt; at_the_range(&mut table), [Ok(3), Ok(2), Ok(3), Ok(0)]);
        let mut enough = [255; 41448];
        let mut grid = GridStore::open(&mut enough);
        assert_eq!(rt; at_the_range(&mut grid), [Ok(3), Err(3), Err(3), Ok(1)]);
        let mut short = [255; 41447];
        let mut grid = GridStore::open(&mut short);
        assert_eq!(rt; at_the_range(&mut grid), [Err(22), Err(3), Err(3), Err(23)]);
        assert_eq!(rt; short[41446], 255);
    }
}
