//! Bad words in messages: no line of a message ends within a word.

ghost use Rattle.std.specs.Prelude.{◌≡◌};
ghost use Rattle.file_acts.specs.Statuses.{status_of_words};

use fork_words::asked::{NotAsked, asked_by};
use path_text::in_lines;
use std::alloc::Global;

/// What is wrong with these words, in which they are shown so: what is wrong with the words that are shown.
pub fn with_words_in_lines(alloc: Global, words: &[String], fault: NotAsked) -> NotAsked
    ensures { status_of_words result ≡ status_of_words fault }
{
    if !matches!(&fault, NotAsked::Words(_)) {
        return fault;
    }
    let Ok(shown) = in_lines(alloc, words) else {
        return fault;
    };
    match asked_by(alloc, shown.as_slice()) {
        Err(NotAsked::Words(error)) => NotAsked::Words(error),
        _ => fault,
    }
}
