// The stops (01, "One cycle"). S7 is tested first, S1 comes when met, then S2, S4, S3, S6, S5.
ghost use Rattle.std.specs.Prelude.{◌≡◌};
ghost use Rattle.language.specs.Stops.{stop_number};

#[derive(Clone, Copy)]
pub enum Stop {
    // a computed subscript outside its bounds
    OutsideBounds,
    // two plain next states, even if equal, or two calls
    TwoNextStates,
    // delayed stores leave the sequencing register a value that no state bears
    ValueUnborne,
    // RETURN with no return held
    NothingToReturn,
    // a call with 16 held after any RETURN
    TooManyCalls,
    // no plain next state given and no state below
    NoNextState,
    // cycle number 4,294,967,295
    LastCycleReached,
}

// 01's number of each.
impl From<Stop> for u8 {
    ghost from_gives = { λ s n. n ≡ stop_number s };

    fn from(s: Stop) -> u8 {
        match s {
            Stop::OutsideBounds => 1,
            Stop::TwoNextStates => 2,
            Stop::ValueUnborne => 3,
            Stop::NothingToReturn => 4,
            Stop::TooManyCalls => 5,
            Stop::NoNextState => 6,
            Stop::LastCycleReached => 7,
        }
    }
}
