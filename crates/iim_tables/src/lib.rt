//! The tables of the Information Interchange Model, version 4, with the choices of this project's
//! profile: which octets are valid for each dataset of records 1, 2, 7, 8 and 9, the numbers that
//! octets encode, and the days and instants of dates and times.
//!
//! The crates above call two functions: [`row`] returns the row of a dataset, and [`admits`] checks
//! octets against a row. (The crate `iim_fields` calls variants of them, in [`internals`].) Nothing
//! here allocates. The crate depends on `iim_dataset` for octets and datasets, on `jiff` for days
//! and instants, and on `byteorder` for numbers.
#![tactic(auto)]

mod dates;
mod instants;
pub mod internals;
mod kinds;
pub mod laws;
mod numbers;
mod octets;
pub mod records;
mod shape;
mod table;

pub use crate::dates::date_of;
pub use crate::instants::instant_of;
pub use crate::kinds::admits;
pub use crate::numbers::{SIZE_OCTETS, number_of};
pub use crate::shape::{Duty, Kind, Row};
pub use crate::table::row;
