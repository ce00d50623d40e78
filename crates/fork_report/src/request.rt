//! What is asked about files.

ghost use Rattle.std.specs.Prelude.{◌≡◌};
ghost use Rattle.fork_report.specs.Reported.{form_of};

use crate::json_row::{Bytes, Digests};
use fork_answer::request::Choice;
use mac_base::resource::ResType;

/// In which form something is reported.
#[derive(Clone, Copy)]
pub enum Form {
    /// Lines for people.
    Text,
    /// One line of JSON for each file.
    Json,
}

/// What is reported about files.
#[derive(Drop)]
pub enum Report {
    /// What each is, and the digests of its forks.
    Info {
        form: Form,
        digests: Digests,
    },
    /// All faults of its fork.
    Check(Form),
    /// A list of its resources as JSON, those of these types, or all where none are named.
    List {
        kinds: Vec<ResType>,
        shown: Bytes,
        digests: Digests,
    },
    /// A list of its resources as text, with the digest of each.
    DigestList(Choice),
}

impl Report {
    /// The form in which it is reported.
    pub fn form(&self) -> Form
        ensures { result ≡ form_of self.now }
    {
        match self {
            Report::Info { form, .. } | Report::Check(form) => *form,
            Report::List { .. } => Form::Json,
            Report::DigestList(_) => Form::Text,
        }
    }
}
