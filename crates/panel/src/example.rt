// The worked example, from its three texts to its print, and small texts of which something is refused.
ghost use Rattle.panel.specs.Example.{ExamplePrinted};
ghost use Rattle.panel.specs.Refusals.{RefusalsPrinted};

// Of the worked example's net, rules and orders the print is what the example says, line by line.
pub fn example_printed()
    ensures { ExamplePrinted }
{}

// Of some small texts that are refused, or whose fixed rule or orders are, the print is just these lines.
pub fn refusals_printed()
    ensures { RefusalsPrinted }
{}
