//! What is asked about a resource fork.

ghost use Rattle.std.specs.Prelude.{◌≡◌};
ghost use Rattle.fork_answer.specs.Answer.{is_get};

use fork_list::find::Wanted;
use fork_list::letters::Letters;
use mac_base::resource::ResType;

/// What to show of a fork.
#[derive(Drop)]
pub enum Request {
    /// A list of its resources.
    List(Choice),
    /// A list of their types.
    Types(Choice),
    /// The bytes of a resource.
    Get(Wanted),
}

/// Which types a list has, and how it shows them.
#[derive(Drop)]
pub struct Choice {
    /// How letters that aren't ASCII are shown.
    pub letters: Letters,
    /// The types of the resources; none for all types.
    pub kinds: Vec<ResType>,
}

impl Request {
    /// Whether what is shown isn't meant for a terminal.
    pub fn is_for_files(&self) -> bool
        ensures { result ≡ is_get self.now }
    {
        match self {
            Request::List(_) | Request::Types(_) => false,
            Request::Get(_) => true,
        }
    }
}
