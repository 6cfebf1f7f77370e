//! What the lines of an input are.
ghost use Rattle.line_reader.specs.Lines.{TakesLinesFromFront};

/// The law that the word `lines_of` keeps: nothing has no lines, and other bytes have their first
/// line and then the lines of what stands after it.
pub fn lines_law()
    ensures { TakesLinesFromFront }
{}
