//! Laws of the grammar.

ghost use Rattle.cc_grammar.specs.Laws.{ComputedIsRight, EachHasAPhrase, FrontAsRead, FrontAsWritten, NestingAgrees, NullableAreEmpty, OneAnswer, OneTree, OnlyNullableAreEmpty, OnlyStartsBegin, OnlyViableGoOn, ReadAreWhole, StartsBegin, ViableGoOn, WholeAsRead, WholeAsWritten, WholesAreRead};

/// The tokens of a sentence are those of one tree.
pub fn one_tree()
    ensures one { OneTree }
{}

/// Each symbol has a phrase.
pub fn each_symbol_has_a_phrase()
    ensures phrase { EachHasAPhrase }
{}

/// The tables of the tokens with which phrases begin, and of the symbols that may be left out, are right.
pub fn tables_of_first_tokens()
    ensures begin { StartsBegin }
    ensures only_these { OnlyStartsBegin }
    ensures empty { NullableAreEmpty }
    ensures only_these_empty { OnlyNullableAreEmpty }
{}

/// The form in which the grammar is read has the phrases and the fronts of the productions.
pub fn read_form()
    ensures whole_as_written { WholeAsWritten }
    ensures whole_as_read { WholeAsRead }
    ensures front_as_written { FrontAsWritten }
    ensures front_as_read { FrontAsRead }
{}

/// The whole phrases of the productions are the phrases that have a tree.
pub fn whole_phrases()
    ensures read { WholesAreRead }
    ensures whole { ReadAreWhole }
{}

/// A list of tokens is viable exactly where some continuation of it is a sentence.
pub fn viable_tokens()
    ensures go_on { ViableGoOn }
    ensures only_these { OnlyViableGoOn }
{}

/// All sentences that have the same tokens in front agree on their nesting there.
pub fn one_nesting()
    ensures same { NestingAgrees }
{}

/// Each list of tokens has an answer, and one only.
pub fn one_answer()
    ensures computed { ComputedIsRight }
    ensures one { OneAnswer }
{}
