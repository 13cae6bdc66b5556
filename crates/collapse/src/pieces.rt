// The theorems about pieces.
ghost use Rattle.collapse.specs.PieceLaws.{CollapseKeepsPieces, TracesKeepPieces};

// A collapse keeps the pieces of each part.
pub fn collapse_keeps_pieces()
    ensures { CollapseKeepsPieces }
{}

// A list of collapses keeps them, along the trace.
pub fn traces_keep_pieces()
    ensures { TracesKeepPieces }
{}
