// The answers in C's form. A field that an answer has no use for is 0.
#[repr(C)]
#[derive(Clone, Copy)]
pub struct ReadAnswer {
    pub refusal: u32,
    pub place: u32,
    pub length: u32,
}

#[repr(C)]
#[derive(Clone, Copy)]
pub struct CycleAnswer {
    pub refusal: u32,
    pub stop: u32,
    pub conflicts: u32,
}

#[repr(C)]
#[derive(Clone, Copy)]
pub struct RunAnswer {
    pub refusal: u32,
    pub stop: u32,
    pub cycles: u64,
    pub conflicts: u64,
}

#[repr(C)]
#[derive(Clone, Copy)]
pub struct NameAnswer {
    pub refusal: u32,
    pub offset: u32,
    pub length: u32,
}

#[repr(C)]
#[derive(Clone, Copy)]
pub struct FacilityAnswer {
    pub refusal: u32,
    pub kind: u32,
    pub dimensions: u32,
    pub words_first: u32,
    pub words_last: u32,
    pub bits_first: u32,
    pub bits_last: u32,
    // 1, or 0 for a computed terminal
    pub stored: u32,
    pub place: u32,
}
