// Examples of reading a model file.
#![tactic(auto)]

#[cfg(test)]
mod tests {
    use file::reader::Reader;
    use file::vertices::{Vertices, vertices};

    // What comes first: the flaw's number, or 0 at an entry, then section, entry and place.
    fn first(file: &[u8]) -> Option<(u8, u8, u16, usize)> {
        let mut reader = Reader::new(file);
        match reader.next() {
            None => None,
            Some(Ok(placed)) => Some((
                0,
                placed.site.section,
                placed.site.entry,
                placed.site.place,
            )),
            Some(Err(flawed)) => Some((
                u8::from(flawed.flaw),
                flawed.site.section,
                flawed.site.entry,
                flawed.site.place,
            )),
        }
    }

    #[test]
    fn an_empty_file_ends_inside_the_first_count(rt: HostRuntime) {
        assert_eq!(rt; first(&[]), Some((6, 1, 0, 0)));
    }

    #[test]
    fn empty_sections_hold_nothing(rt: HostRuntime) {
        assert_eq!(rt; first(&[0; 22]), None);
    }

    #[test]
    fn a_byte_less_ends_inside_the_last_count(rt: HostRuntime) {
        assert_eq!(rt; first(&[0; 21]), Some((6, 11, 0, 20)));
    }

    #[test]
    fn a_byte_more_is_spare(rt: HostRuntime) {
        assert_eq!(rt; first(&[0; 23]), Some((7, 11, 0, 22)));
    }

    #[test]
    fn a_bad_number_of_vertices_comes_before_the_end(rt: HostRuntime) {
        assert_eq!(rt;
            first(&[0, 0, 0, 0, 0, 0, 0, 0, 0, 1, 5]),
            Some((2, 5, 0, 10))
        );
        assert_eq!(rt;
            first(&[0, 0, 0, 0, 0, 0, 0, 0, 0, 1, 4]),
            Some((6, 5, 0, 10))
        );
    }

    #[test]
    fn a_point_is_found_at_its_place(rt: HostRuntime) {
        assert_eq!(rt; first(&[0, 0, 0, 0, 0, 0, 0, 1, 16, 5]), Some((0, 4, 0, 8)));
        assert_eq!(rt; vertices(&[16, 5]).as_slice(), [4101].as_slice());
    }

    #[test]
    fn vertices_are_copied_and_both_are_read(rt: HostRuntime) {
        let read = Vertices::of(&[16, 5, 0, 1, 9]);
        let copied = read;
        assert_eq!(rt; read.as_slice(), [4101, 1].as_slice());
        assert_eq!(rt; copied.as_slice(), [4101, 1].as_slice());
    }
}
