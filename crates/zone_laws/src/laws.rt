//! What every run of acts keeps.

ghost use Rattle.zone_laws.specs.Brought.{CopiesAreBrought};
ghost use Rattle.zone_laws.specs.Contents.{IgnoresContents, MovesContents, RunsIgnoreContents, RunsMoveContents};
ghost use Rattle.zone_laws.specs.Headline.{AllPromised};
ghost use Rattle.zone_laws.specs.MadeAgain.{AnswersAreCalls, AnswersBetween, AsksInVain, MadeAgainIsExact, SparingAnswersSuit};

/// What is promised of every run from a new zone on: every handle and pointer shows the bytes last put there, pointers
/// and locked handles keep the address of their contents, and blocks are lost and memFullErr is given only where they
/// may. And of each call: it moves contents unread, so whatever else it does is the same with other contents; and a
/// copy from a pointer does what the call does that brings these bytes from outside the zone. And a call that asked in
/// vain, made again after each answer, ends as it does where it gets these answers. It computes nothing.
pub fn heap_laws()
    ensures headline { AllPromised }
    ensures moves_contents { MovesContents }
    ensures runs_move_contents { RunsMoveContents }
    ensures ignores_contents { IgnoresContents }
    ensures runs_ignore_contents { RunsIgnoreContents }
    ensures copies_are_brought { CopiesAreBrought }
    ensures asks_in_vain { AsksInVain }
    ensures answers_are_calls { AnswersAreCalls }
    ensures answers_between { AnswersBetween }
    ensures made_again_is_exact { MadeAgainIsExact }
    ensures sparing_answers_suit { SparingAnswersSuit }
{}
