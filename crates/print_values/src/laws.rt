//! Laws of what is printed.

ghost use Rattle.print_values.specs.Laws.{FractionsEnd, NamesArePlain, TextsArePlain};

/// What is printed has no parameter, and no name.
pub fn printed_tokens_are_plain()
    ensures texts { TextsArePlain }
    ensures names { NamesArePlain }
{}

/// A fraction of a point never has more than five digits.
#[tactic(auto, using(crate::proofs::Fractions::fractions_end))]
pub fn fractions_end()
    ensures { FractionsEnd }
{}
