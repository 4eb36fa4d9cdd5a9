// What holds of reading and writing together, as the contract of a function that does nothing, for the readers of contracts. The law of addresses is that of `text`.
ghost use Rattle.lines.specs.Laws.{CommandRoundTrip};

// A command that is written and read again is the same.
pub fn command_round_trip()
    ensures { CommandRoundTrip }
{}
