// What is proved of sheets for all bytes: each function carries a theorem, and does nothing.
ghost use Rattle.grammar.specs.Theorems.{AcceptedHistory, OneReading, PlainLines, WrittenAccepted};

// A string of bytes has at most one reading.
pub fn bytes_have_one_reading()
    ensures readings_agree { OneReading }
{}

// An accepted sheet is a history of calls, so the theorems of the roster hold of what it leaves.
pub fn accepted_sheet_is_a_history()
    ensures calls_reach_what_it_leaves { AcceptedHistory }
{}

// A sheet that is written from lines of a roster is accepted, with just these lines.
pub fn written_sheet_is_accepted()
    ensures accepted_as_written { WrittenAccepted }
    ensures lines_are_those_spelled { PlainLines }
{}
