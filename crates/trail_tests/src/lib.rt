// Examples of trails.
#![tactic(auto)]

#[cfg(test)]
mod tests {
    use trail::head::Head;
    use trail::refusal::TrailFull;
    use trail::trail::Trail;

    // Adds a record of two pairs, and answers its length.
    fn add(trail: &mut Trail, u: u16, v: u16) -> Result<usize, TrailFull> {
        trail.note_pair(0, 1, 3)?;
        trail.note_pair(1, 1, 1)?;
        trail.commit(Head { u, v, s: 2 })
    }

    // The head of a record with no pair.
    fn bare(u: u16, v: u16) -> Head {
        Head { u, v, s: 0 }
    }

    #[test]
    fn a_record_has_these_bytes(rt: HostRuntime) {
        let mut trail = Trail::new();
        assert_eq!(rt; add(&mut trail, 0, 1), Ok(12));
        assert_eq!(rt;
            trail.bytes(),
            [0, 0, 0, 1, 0, 2, 1, 3, 1, 1, 0, 2].as_slice()
        );
    }

    #[test]
    fn numbers_of_two_bytes_have_the_high_one_first(rt: HostRuntime) {
        let mut trail = Trail::new();
        assert_eq!(rt; trail.commit(bare(4095, 258)), Ok(8));
        assert_eq!(rt; trail.bytes(), [15, 255, 1, 2, 0, 0, 0, 0].as_slice());
    }

    #[test]
    fn records_of_twelve_bytes_fit_until_eight_are_left(rt: HostRuntime) {
        let mut trail = Trail::new();
        for v in 1..=2730 {
            assert_eq!(rt; add(&mut trail, 0, v), Ok(12));
        }
        assert_eq!(rt; trail.used(), 32760);
        assert_eq!(rt; add(&mut trail, 0, 2731), Err(TrailFull));
        assert_eq!(rt;
            trail.commit(Head {
                u: 0,
                v: 2731,
                s: 2
            }),
            Err(TrailFull)
        );
        assert_eq!(rt; trail.commit(bare(0, 2731)), Ok(8));
        assert_eq!(rt; trail.used(), 32768);
    }

    #[test]
    fn the_newest_is_forgotten_first_and_its_bytes_are_free(rt: HostRuntime) {
        let mut trail = Trail::new();
        assert_eq!(rt; add(&mut trail, 1, 0), Ok(12));
        assert_eq!(rt; add(&mut trail, 1, 2), Ok(12));
        trail.forget();
        assert_eq!(rt; trail.used(), 12);
        assert!(rt; trail.merged(0) && !trail.merged(2));
        assert_eq!(rt; trail.pair(0), (1, 3));
        trail.forget();
        trail.forget();
        assert_eq!(rt; trail.used(), 0);
        assert_eq!(rt; trail.pair(0), (0, 0));
    }

    #[test]
    fn a_vertex_is_traced_from_the_oldest_on(rt: HostRuntime) {
        let mut trail = Trail::new();
        assert_eq!(rt; add(&mut trail, 1, 0), Ok(12));
        assert_eq!(rt; add(&mut trail, 2, 1), Ok(12));
        assert_eq!(rt; add(&mut trail, 3, 4), Ok(12));
        assert_eq!(rt; trail.traced(0), 2);
        assert_eq!(rt; trail.traced(1), 2);
        assert_eq!(rt; trail.traced(4), 3);
        assert_eq!(rt; trail.traced(5), 5);
        trail.clear();
        assert_eq!(rt; trail.traced(0), 0);
    }
}
