// Runs of the ordered table on vertices, and on jobs, whose order is coarser than their equality.
#![tactic(auto)]

#[cfg(test)]
mod job;

#[cfg(test)]
mod tests {
    use crate::job::Job;
    use order::record::Record;
    use table::rows::{Table, TableFull};
    use table::sorted::SortedTable;

    #[test]
    fn reads_back_in_order(rt: HostRuntime) {
        let mut memory = [Record {
            key: 0u16,
            value: 0u8,
        }; 4];
        let mut table = Table::open(&mut memory);
        assert_eq!(rt; table.first(), None);
        assert_eq!(rt; table.put(7, 1), Ok(()));
        assert_eq!(rt; table.put(3, 2), Ok(()));
        assert_eq!(rt; table.put(9, 3), Ok(()));
        assert_eq!(rt; table.put(5, 4), Ok(()));
        assert_eq!(rt; table.first(), Some(3));
        assert_eq!(rt; table.after(&3), Some(5));
        assert_eq!(rt; table.after(&5), Some(7));
        assert_eq!(rt; table.after(&8), Some(9));
        assert_eq!(rt; table.after(&9), None);
    }

    #[test]
    fn replaces_and_removes(rt: HostRuntime) {
        let mut memory = [Record {
            key: 0u16,
            value: 0u8,
        }; 3];
        let mut table = Table::open(&mut memory);
        assert_eq!(rt; table.put(2, 20), Ok(()));
        assert_eq!(rt; table.put(1, 10), Ok(()));
        assert_eq!(rt; table.put(2, 21), Ok(()));
        assert_eq!(rt; table.look(&2), Some(21));
        assert_eq!(rt; table.len, 2);
        assert_eq!(rt; table.len(), 2);
        table.remove(&1);
        table.remove(&4);
        assert_eq!(rt; table.look(&1), None);
        assert_eq!(rt; table.first(), Some(2));
        assert_eq!(rt; table.len(), 1);
    }

    #[test]
    fn refuses_a_new_key_when_full(rt: HostRuntime) {
        let mut memory = [Record {
            key: 0u16,
            value: 0u8,
        }; 2];
        let mut table = Table::open(&mut memory);
        assert_eq!(rt; table.put(4, 1), Ok(()));
        assert_eq!(rt; table.put(6, 2), Ok(()));
        assert_eq!(rt; table.put(5, 3), Err(TableFull));
        assert_eq!(rt; table.put(6, 7), Ok(()));
        assert_eq!(rt; table.look(&4), Some(1));
        assert_eq!(rt; table.look(&5), None);
        assert_eq!(rt; table.look(&6), Some(7));
    }

    #[test]
    fn goes_on_with_filled_records(rt: HostRuntime) {
        let mut memory = [
            Record {
                key: 1u16,
                value: 10u8,
            },
            Record { key: 2, value: 20 },
            Record { key: 9, value: 0 },
        ];
        let mut table = Table {
            records: &mut memory,
            len: 2,
        };
        assert_eq!(rt; table.look(&2), Some(20));
        assert_eq!(rt; table.put(3, 30), Ok(()));
        assert_eq!(rt; table.records[2].key, 3);
        assert_eq!(rt; table.len, 3);
    }

    #[test]
    fn returns_where_nothing_is_in_order(rt: HostRuntime) {
        let mut memory = [
            Record {
                key: 5u16,
                value: 50u8,
            },
            Record { key: 1, value: 10 },
            Record { key: 3, value: 30 },
        ];
        let mut table = Table {
            records: &mut memory,
            len: 7,
        };
        assert_eq!(rt; table.first(), Some(5));
        assert_eq!(rt; table.put(9, 90), Err(TableFull));
        assert_eq!(rt; table.put(3, 31), Ok(()));
        table.remove(&9);
        assert_eq!(rt; table.len, 7);
        table.remove(&3);
        assert_eq!(rt; table.len, 2);
        assert_eq!(rt; table.records.len(), 3);
        assert_eq!(rt; table.records[0].key, 5);
        assert_eq!(rt; table.records[2].value, 31);
    }

    #[test]
    fn orders_jobs_by_number(rt: HostRuntime) {
        let first = Job { number: 1, note: 8 };
        let second = Job { number: 2, note: 0 };
        let again = Job { number: 2, note: 5 };
        let mut memory = [Record {
            key: first,
            value: 0u8,
        }; 3];
        let mut table = Table::open(&mut memory);
        assert_eq!(rt; table.put(second, 20), Ok(()));
        assert_eq!(rt; table.put(first, 10), Ok(()));
        assert_eq!(rt; table.put(again, 21), Ok(()));
        assert_eq!(rt; table.len, 2);
        assert_eq!(rt; table.look(&second), Some(21));
        assert_eq!(rt; table.first(), Some(first));
        assert_eq!(rt; table.after(&first), Some(again));
        table.remove(&second);
        assert_eq!(rt; table.look(&again), None);
        assert_eq!(rt; table.after(&first), None);
    }

    #[test]
    fn stays_sorted(rt: HostRuntime) {
        let mut memory = [Record {
            key: 0u16,
            value: 0u8,
        }; 2];
        let mut table = SortedTable::open(&mut memory);
        assert_eq!(rt; table.put(7, 1), Ok(()));
        assert_eq!(rt; table.put(3, 2), Ok(()));
        assert_eq!(rt; table.put(5, 4), Err(TableFull));
        assert_eq!(rt; table.look(&7), Some(1));
        assert_eq!(rt; table.first(), Some(3));
        assert_eq!(rt; table.after(&3), Some(7));
        table.remove(&3);
        assert_eq!(rt; table.len(), 1);
    }
}
