// The promises about the format, for every file.
ghost use Rattle.file.specs.Format.{ReadsWhatIsWritten, ReadsVertices, ReadsOnlyFiles};

// What is written is read.
pub fn format_is_read()
    ensures { ReadsWhatIsWritten }
{}

// The numbers made of an entry's bytes are its vertices.
pub fn vertices_are_read()
    ensures { ReadsVertices }
{}

// What is read with no flaw was written.
pub fn only_files_are_read()
    ensures { ReadsOnlyFiles }
{}
