//! The commands of `resfork` that change no file: lists, reports, what people see, pages, comparisons. What they write goes
//! to the standard output, or to the file or folder that is named for it.
#![tactic(auto)]

pub mod compare;
pub mod derez;
pub mod failed;
pub mod find;
mod images;
mod output;
pub mod outside;
pub mod page;
pub mod report;
pub mod salvage;
mod several;
pub mod show;
pub mod table_use;
pub mod texts;
mod view;
