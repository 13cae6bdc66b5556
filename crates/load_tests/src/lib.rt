// Loads into drafts over the table store: what is held afterwards, and every refusal with its site. A draft over a lent store is
// passed on to the run of a script.
#![tactic(auto)]

ghost use Rattle.std.specs.Prelude.{◌≡◌, IfOk, string_bytes};
ghost use Rattle.script.specs.Transcript.{transcript_from};

#[cfg(test)]
mod tests {
    use file::load::load;
    use file::refusal::FileRefusal;
    use model::stages::Draft;
    use order::record::Record;
    use script::run::transcript_over;
    use simplex::simplex::Simplex;
    use std::alloc::{AllocError, Global};
    use std::process::Abort;
    use store::lent::Lent;
    use store::meaning::Store;
    use table_store::records::TableStore;

    // A triangle 0 1 2 with part 1 on point 1.
    const MARKED: [u8; 31] = [
        0, 0, 0, 1, 0, 0, 0, 1, 0, 2, 0, 0, 0, 0, 0, 1, 1, 0, 1, 0, 0, 0, 0, 0, 0, 0, 0, 0, 0, 0, 0,
    ];

    // Two wire edges, the second of which is the first again.
    const TWICE: [u8; 28] = [
        0, 0, 0, 0, 0, 2, 0, 0, 0, 1, 0, 0, 0, 1, 0, 0, 0, 0, 0, 0, 0, 0, 0, 0, 0, 0, 0, 0,
    ];

    // A lone point 4,096.
    const FAR: [u8; 24] = [
        0, 0, 0, 0, 0, 0, 0, 1, 16, 0, 0, 0, 0, 0, 0, 0, 0, 0, 0, 0, 0, 0, 0, 0,
    ];

    // The held simplexes, or number, section, entry and place.
    fn told(answer: Result<usize, FileRefusal>) -> [usize; 4] {
        match answer {
            Ok(held) => [0, held, 0, 0],
            Err(refusal) => match refusal {
                FileRefusal::Occupied => [29, 0, 0, 0],
                FileRefusal::At(stopped) => [
                    usize::from(u8::from(stopped.cause)),
                    usize::from(stopped.site.section),
                    usize::from(stopped.site.entry),
                    stopped.site.place,
                ],
            },
        }
    }

    fn loads<S: Store>(rt: &impl Abort, store: &mut S) {
        let mut draft = Draft::open(store);
        // cut inside a count, an entry, the entry of a part and the last count
        assert_eq!(rt; told(load(&mut draft, &[])), [6, 1, 0, 0]);
        assert_eq!(rt; told(load(&mut draft, &MARKED[0..9])), [6, 2, 0, 4]);
        assert_eq!(rt; told(load(&mut draft, &MARKED[0..18])), [6, 5, 0, 16]);
        assert_eq!(rt; told(load(&mut draft, &MARKED[0..30])), [6, 11, 0, 29]);
        assert_eq!(rt; told(load(&mut draft, &TWICE)), [21, 3, 1, 10]);
        assert_eq!(rt; draft.held(), 0);
        assert_eq!(rt; told(load(&mut draft, &FAR)), [3, 4, 0, 8]);
        assert_eq!(rt; told(load(&mut draft, &MARKED)), [0, 7, 0, 0]);
        assert_eq!(rt; draft.held(), 7);
        // a draft that holds something is left as it is
        assert_eq!(rt; told(load(&mut draft, &FAR)), [29, 0, 0, 0]);
        assert_eq!(rt; draft.held(), 7);
    }

    #[test]
    fn over_enough_records(rt: HostRuntime) {
        let mut records = [Record {
            key: Simplex::point(0),
            value: 0,
        }; 7];
        let mut store = TableStore::open(&mut records);
        loads(&rt, &mut store);
    }

    #[test]
    fn over_one_record_too_few(rt: HostRuntime) {
        let mut records = [Record {
            key: Simplex::point(0),
            value: 0,
        }; 6];
        let mut store = TableStore::open(&mut records);
        let mut draft = Draft::open(&mut store);
        assert_eq!(rt; told(load(&mut draft, &MARKED)), [22, 2, 0, 4]);
        assert_eq!(rt; draft.held(), 0);
    }

    // A draft that was passed on by value is passed on again, with all that is known of it.
    fn passed_on<'c, S: Store>(
        heap: Global,
        draft: Draft<Lent<'c, S>>,
        file: &[u8],
        script: &[u8],
    ) -> Result<String, AllocError>
        ensures { IfOk result (λ s. string_bytes s ≡ transcript_from (S.Store.contents draft.entry.store) file.now script.now) }
    {
        transcript_over(heap, draft, file, script)
    }

    #[test]
    fn over_a_loan(rt: HostRuntime) {
        let mut records = [Record {
            key: Simplex::point(0),
            value: 0,
        }; 7];
        let mut store = TableStore::open(&mut records);
        let draft = Draft::open(Lent::of(&mut store));
        match passed_on(rt.alloc(), draft, &MARKED, b"e 0\ne 1\ne 8\n") {
            Ok(text) => assert_eq!(rt; text.as_str(), "loaded 7\nok 1\nok 1\nno 1\n"),
            Err(_) => assert!(rt; false),
        }
    }
}
