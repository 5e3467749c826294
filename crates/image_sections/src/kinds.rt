// What a facility is, and what may be stored to it, by its kind.
ghost use Rattle.std.specs.Prelude.{cond, false, ◌≡◌};
ghost use Rattle.language.specs.Description.{is_computed, is_sequencing};
ghost use Rattle.language.specs.Store.{is_input};
ghost use Rattle.language.specs.Storing.{is_plain, may_store, takes_delayed, takes_immediate};
ghost use Rattle.image_sections.specs.Declarations.{kind_meant};

use crate::facilities::FacilityKind;

// <- goes to registers.
fn takes_delayed(kind: FacilityKind) -> bool
    ensures { result ≡ takes_delayed (kind_meant kind) }
{
    matches!(kind, FacilityKind::Register | FacilityKind::Sequencing)
}

// = goes to registers, memories and plain terminals.
fn takes_immediate(kind: FacilityKind) -> bool
    ensures { result ≡ takes_immediate (kind_meant kind) }
{
    matches!(
        kind,
        FacilityKind::Register | FacilityKind::Memory | FacilityKind::Plain
    )
}

// Whether a store by this sign may go to a facility of this kind.
pub fn may_store(sign: u8, kind: FacilityKind) -> bool
    ensures { result ≡ may_store sign (kind_meant kind) }
{
    match sign {
        language::kinds::DELAYED => takes_delayed(kind),
        language::kinds::EQUAL => takes_immediate(kind),
        _ => false,
    }
}

// Whether it may go to both.
pub fn may_both(sign: u8, k: FacilityKind, l: FacilityKind) -> bool
    ensures { result ≡ cond (may_store sign (kind_meant k)) (may_store sign (kind_meant l)) false }
{
    may_store(sign, k) && may_store(sign, l)
}

// Whether a facility of this kind is the sequencing register.
pub fn is_sequencing(kind: FacilityKind) -> bool
    ensures { result ≡ is_sequencing (kind_meant kind) }
{
    kind == FacilityKind::Sequencing
}

// Whether a facility of this kind is a plain terminal.
pub fn is_plain(kind: FacilityKind) -> bool
    ensures { result ≡ is_plain (kind_meant kind) }
{
    kind == FacilityKind::Plain
}

// Whether a facility of this kind is an input terminal.
pub fn is_input(kind: FacilityKind) -> bool
    ensures { result ≡ is_input (kind_meant kind) }
{
    kind == FacilityKind::Input
}

// Whether a facility of this kind is computed.
pub fn is_computed(kind: FacilityKind) -> bool
    ensures { result ≡ is_computed (kind_meant kind) }
{
    kind == FacilityKind::Computed
}
