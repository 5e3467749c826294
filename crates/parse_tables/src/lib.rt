// The tables of the working array behind the expressions: the records of the other sections, the places of their words, and the names declared.
#![tactic(auto)]

pub mod actions;
pub mod extents;
pub mod facilities;
pub mod finding;
pub mod meaning;
pub mod names;
pub mod operations;
pub mod places;
pub mod rows;
pub mod states;
pub mod stores;

// A table is a row of records of one size, each at its number.
#[derive(Clone, Copy)]
pub enum Table {
    Actions,
    ActionPlaces,
    Facilities,
    FacilityPlaces,
    Operations,
    OperationPlaces,
    States,
    StatePlaces,
    FacilityNames,
    OperationNames,
    Labels,
}
