// Why a text was not read.
use language::refusals::Refusal;

#[derive(Clone, Copy)]
pub struct Refused {
    pub refusal: Refusal,
    // of the fault in the text, or 0 where no place is at fault
    pub place: usize,
}
