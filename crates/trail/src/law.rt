// The promise about the bytes of the records.
ghost use Rattle.trail.specs.Law.{NotesComeBack};

// What is written is read.
pub fn notes_come_back()
    ensures { NotesComeBack }
{}
