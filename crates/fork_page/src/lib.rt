//! A page of HTML that shows what resource forks hold: pictures, sounds, texts, and the first bytes of all else.
//!
//! The page needs nothing else: no request goes out when it is opened, and no text of a file can become a tag.
#![tactic(auto)]

mod article;
mod frame;
pub mod laws;
mod page;
mod shown;

pub use page::{PageFile, end_page, new_page, push_file};
