// What a change answers, as a number: C has no enum with values.
ghost use Rattle.std.specs.Prelude.{◌≡◌};
ghost use Rattle.capi.specs.Codes.{code};

use table::Done;

// A refusal is its own number; there may come to be more of these, so the others stand far behind.
const READY: u32 = 0;

const FULL: u32 = 1000;

const WITHOUT: u32 = 1001;

// A look's answer is no change's.
const OTHER: u32 = 1002;

pub(crate) fn code_of(done: Done) -> u32
    ensures { result ≡ code done }
{
    match done {
        Done::Ready => READY,
        Done::Full => FULL,
        Done::Without => WITHOUT,
        Done::Refused(refusal) => refusal as u32,
        _ => OTHER,
    }
}
