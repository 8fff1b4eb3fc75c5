//! What is true of every stream that is served.

ghost use Rattle.pipe_loops.specs.Pipe.{ReadsAreBounded};

/// However it ends, it was read in at most `bound` pieces.
pub fn reads_are_bounded()
    ensures { ReadsAreBounded }
{}
