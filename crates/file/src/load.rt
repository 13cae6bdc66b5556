// Loading a file into a draft.
ghost use Rattle.std.specs.Prelude.{◌≡◌};
ghost use Rattle.model.specs.Calls.{emptied, lay_answer, laid, mark_answer, marked};
ghost use Rattle.file.specs.Load.{load_answer, load_next, loaded, entry_answer, entry_next, vertices_of, TakenAll, unless_refused};
ghost use Rattle.file.specs.Entry.{content};
ghost use Rattle.file.specs.Outcome.{outcomes};

use crate::entry::{Entry, Placed};
use crate::reader::Reader;
use crate::refusal::{Cause, FileRefusal, Stopped};
use crate::vertices::vertices;
use model::refusal::ModelRefusal;
use model::stages::Draft;
use store::meaning::Store;

// Loads a file into an empty draft, and answers how many simplexes are held. A load that stops empties the draft.
pub fn load<S: Store>(draft: &mut Draft<S>, file: &[u8]) -> Result<usize, FileRefusal>
    ensures value { result ≡ load_answer (S.Store.contents draft.old.store) file.now }
    ensures after { S.Store.contents draft.new.store ≡ load_next (S.Store.contents draft.old.store) file.now }
{
    if draft.held() != 0 {
        return Err(FileRefusal::Occupied);
    }
    if let Err(stopped) = take_all(draft, file) {
        draft.clear();
        return Err(FileRefusal::from(stopped));
    }
    Ok(draft.held())
}

// Takes every entry of the file in order, up to the first that is refused or flawed.
fn take_all<S: Store>(draft: &mut Draft<S>, file: &[u8]) -> Result<(), Stopped>
    ensures taken { TakenAll (loaded (S.Store.contents draft.old.store) (outcomes file.now)) result (S.Store.contents draft.new.store) }
    ensures same { emptied (S.Store.contents draft.new.store) ≡ emptied (S.Store.contents draft.old.store) }
{
    for next in Reader::new(file) {
        take(draft, next?)?;
    }
    Ok(())
}

// Takes an entry, which is laid or marked.
fn take<S: Store>(draft: &mut Draft<S>, placed: Placed) -> Result<(), Stopped>
    ensures value { result ≡ unless_refused placed.entry.site (entry_answer (S.Store.contents draft.old.store) (content placed.entry.entry)) (Ok tt) }
    ensures after { S.Store.contents draft.new.store ≡ entry_next (S.Store.contents draft.old.store) (content placed.entry.entry) }
{
    enter(draft, placed.entry).map_err(|refusal| Stopped {
        site: placed.site,
        cause: Cause::from(refusal),
    })?;
    Ok(())
}

// Lays an entry of the first four sections, or marks one of a part.
fn enter<S: Store>(draft: &mut Draft<S>, entry: Entry) -> Result<usize, ModelRefusal>
    ensures value { result ≡ entry_answer (S.Store.contents draft.old.store) (content entry.entry) }
    ensures after { S.Store.contents draft.new.store ≡ entry_next (S.Store.contents draft.old.store) (content entry.entry) }
{
    let numbers = vertices(entry.bytes());
    match entry {
        Entry::Tetrahedron(_) | Entry::Triangle(_) | Entry::Wire(_) | Entry::Point(_) => {
            draft.lay(numbers.as_slice())
        }
        Entry::Marked(part, _) => draft.mark(u16::from(part), numbers.as_slice()),
    }
}
