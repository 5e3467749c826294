// Operations (the manual, 7), read as the machine of the grammar reads them; their records, places and names go to their tables.
mod ends;
mod heads;
pub mod lists;
mod one;
