//! What is reported of files: what each is, its faults, what can be read of it, and why nothing is shown.
#![tactic(auto)]

mod damage;
mod digest;
mod info;
mod inside;
mod json;
mod json_diff;
mod json_object;
mod json_row;
mod json_text;
mod paths;
mod refusal;
mod report;
mod request;
mod salvaged;

pub use damage::Tally;
pub use inside::{InsideNote, Opening, Operand, archive_inside};
pub use json::{fork_line, refused_line};
pub use json_diff::difference_line;
pub use json_row::{Bytes, Digests};
pub use paths::each_line;
pub use refusal::Refusal;
pub use report::{Told, report_on};
pub use request::{Form, Report};
pub use salvaged::{
    ContainerDamage, DataSalvaged, ForkSalvaged, SalvageList, can_be_salvaged, salvage,
    salvage_data, salvage_list,
};
