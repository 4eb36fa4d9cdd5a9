// What holds of reading and writing together, each as the contract of a function that does nothing, for the readers of contracts.
ghost use Rattle.text.specs.Laws.{DottedRoundTrip, CommandRoundTrip};

// A dotted number that is written and read again is the same.
pub fn dotted_round_trip()
    ensures { DottedRoundTrip }
{}

// A command that is written and read again is the same.
pub fn command_round_trip()
    ensures { CommandRoundTrip }
{}
