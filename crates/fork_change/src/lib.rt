//! Changes of a table of resources: one is put, removed, or given another id, type, name or attributes. All other rows,
//! their order, the extra bytes and the map's attributes stay as they are.
#![tactic(auto)]

mod choosing;
pub mod comparing;
pub mod copying;
mod ids;
mod index;
mod laws;
mod putting;
mod refusal;
mod removing;
pub mod row;
mod search;
mod setting;

pub use choosing::{lacking, second_of, unmet};
pub use comparing::{Difference, Differences, compare, first_difference, is_same_table};
pub use copying::{Choice, Collision, copy, same_table};
pub use laws::change_laws;
pub use putting::{put, put_new};
pub use refusal::Refusal;
pub use removing::remove;
pub use row::row_to_put;
pub use search::{find_row, is_there};
pub use setting::set;
