//! What the bytes of a file tell.
ghost use Rattle.kept_text.specs.Laws.{FilesHaveTheirTexts, ForeignFramesAreFirst, NothingBehindCounts, PiecesAreAdded, PiecesCountWhole, TextsHaveTheirFiles, TheirDigests};

/// A file of some pieces has the text of these pieces, one after the other, and each text is one of some pieces.
pub fn one_text_each()
    ensures texts { FilesHaveTheirTexts }
    ensures files { TextsHaveTheirFiles }
    ensures digests { TheirDigests }
{}

/// What stands behind a closed gate doesn't count.
pub fn closed_gates_end_texts()
    ensures { NothingBehindCounts }
{}

/// While a piece is put down behind a closed gate, and then the gate is opened, the text is the one before, or that with the whole
/// piece.
pub fn pieces_count_whole()
    ensures whole { PiecesCountWhole }
    ensures added { PiecesAreAdded }
{}

/// Of a file that is foreign no text has the frames up to the one that is told.
pub fn foreign_files_have_no_text()
    ensures { ForeignFramesAreFirst }
{}
