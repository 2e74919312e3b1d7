// Laws of partial sums.
ghost use Rattle.std.specs.Prelude.{◌≡◌, All, FitsSigned};
ghost use Rattle.std.specs.Int.{w128};
ghost use Rattle.cpl_stocks.specs.declared.partial.Partial.{Partial};
ghost use Rattle.cpl_stocks.specs.Partials.{HasShape, both, each_sum, numbers_of, numbers_of_words, words_of};

/// Partial sums are their numbers: those of one shape with the same numbers are the same, the numbers of two together are the sums of
/// their numbers, and the words of numbers of 128 bits give them back.
pub fn partial_law()
    ensures same { (a b : Partial) → HasShape a → HasShape b → numbers_of a ≡ numbers_of b → a ≡ b }
    ensures sums { (a b : Partial) → HasShape a → HasShape b → numbers_of (both a b) ≡ each_sum (numbers_of a) (numbers_of b) }
    ensures shape { (a b : Partial) → HasShape a → HasShape b → HasShape (both a b) }
    ensures words { (a : Partial) → All (FitsSigned w128) (numbers_of a) → numbers_of_words (words_of a) ≡ numbers_of a }
{}
