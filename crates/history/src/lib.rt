// The mathematics of standing collapses: each function stands for the theorem that its contract names.
#![tactic(auto)]

ghost use Rattle.history.specs.Laws.{SoundKeepsPromise, AcceptedStands, RecordsTrace};

// A sound model keeps the whole promise against its first model.
pub fn sound_keeps_promise()
    ensures { SoundKeepsPromise }
{}

// A collapse that is accepted and recorded can be taken back, and leaves the model sound.
pub fn accepted_stands()
    ensures { AcceptedStands }
{}

// The records trace a vertex as the standing list does, and tell which vertices the first model had.
pub fn records_trace()
    ensures { RecordsTrace }
{}
