// Words of calls over two flashes.
ghost use Rattle.nvm_words.specs.PairCases.{AreApart, NamesPaths, ReadsPairCalls, RefusesOthers};

/// `a play mem` and `mem run b` are calls over two flashes, and of no command over one. Words of another command are none, nor are an
/// empty word, one that begins with `-`, or one too many. `mem` is no path.
pub fn words_of_pair_calls()
    ensures read { ReadsPairCalls }
    ensures apart { AreApart }
    ensures refused { RefusesOthers }
    ensures paths { NamesPaths }
{}
