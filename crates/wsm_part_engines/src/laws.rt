//! What holds of parts of every program. The contract of the function is the law; a call of it does nothing.

ghost use Rattle.wsm_part_engines.specs.Answers.{NamesMayCome};

/// What fits a history over some names fits it over more: names may come as events do.
pub fn names_may_come()
    ensures { NamesMayCome }
{}
