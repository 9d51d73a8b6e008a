// The marked cases, computed on the model.
ghost use Rattle.model.specs.Cases.{AsMarked, ExampleBuilt, marked_cases, numbered_cases};

// Each case of the list came out as it must.
pub fn cases_hold()
    ensures { AsMarked marked_cases }
{}

// Each refusal of a call or a setting that the list has not came out by its number.
pub fn numbers_hold()
    ensures { AsMarked numbered_cases }
{}

// The pile of the worked example is one that can be built: the promise is about something.
pub fn example_built()
    ensures { ExampleBuilt }
{}
