// The refusals (01, "Refusal numbers").
ghost use Rattle.std.specs.Prelude.{◌≡◌};
ghost use Rattle.language.specs.Refusals.{refusal_number};

#[derive(Clone, Copy)]
pub enum Refusal {
    TextTooLong,
    // a character not allowed, or a line too long
    BadCharacter,
    // no legal continuation at this word
    NoContinuation,
    // a name unknown here or of the wrong kind, declared twice, or too long
    BadName,
    // no digit after the base, length 0 or above 256, bare value above 65,535
    BadConstant,
    // subscripts of wrong count, bound or direction; a lookup's number that names nothing
    BadSubscript,
    // a length rule broken, or a length above 256
    BadLength,
    // a store or `@` to what does not take it
    BadStore,
    // sequencing registers and the values of states
    BadSequencing,
    CeilingPassed,
    BufferTooShort,
    ImageFails,
    // a store or record that is not sound
    Unsound,
    // a stimulus of wrong length, or with a spare bit set
    BadStimulus,
}

// 01's number of each; 11 is none.
impl From<Refusal> for u8 {
    ghost from_gives = { λ r n. n ≡ refusal_number r };

    fn from(r: Refusal) -> u8 {
        match r {
            Refusal::TextTooLong => 1,
            Refusal::BadCharacter => 2,
            Refusal::NoContinuation => 3,
            Refusal::BadName => 4,
            Refusal::BadConstant => 5,
            Refusal::BadSubscript => 6,
            Refusal::BadLength => 7,
            Refusal::BadStore => 8,
            Refusal::BadSequencing => 9,
            Refusal::CeilingPassed => 10,
            Refusal::BufferTooShort => 12,
            Refusal::ImageFails => 13,
            Refusal::Unsound => 14,
            Refusal::BadStimulus => 15,
        }
    }
}
