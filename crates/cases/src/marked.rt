// The marked cases, as one list with one statement over the definitions that the code's contracts use.
ghost use Rattle.cases.specs.Marked.{AsMarked, marked_cases, OnALine};

// Each case of the list comes out as it must, and those of a line are about the net that a line has.
pub fn marked_cases_hold()
    ensures cases { AsMarked marked_cases }
    ensures line { OnALine }
{}
