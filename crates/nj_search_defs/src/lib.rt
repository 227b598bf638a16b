//! The search, defined: what one thread finds that extends words by pads, judges them, drops repeated
//! keys and keeps the best. The definitions stand in `specs/`, over any game; the functions here have
//! laws of them as their contracts, and do nothing.
#![tactic(auto)]

ghost use Rattle.nj_search_defs.specs.Laws.{LimitsAdd, FrontIsBounded, ParentsStoodBefore, WordsAreEquallyLong, WinnerIsBest, WonWins, WonWordsAreAsLong, LimitsHaveFronts, StepsAreCounted, WinnersTellParents, BucketsAreBounded, LargeQuotasKeepTheFirst};
ghost use Rattle.nj_search_defs.specs.Going.{AForgottenStateGoesOnAlike, OpeningsAreSound, LimitsAreSound, ForgettingIsSound, LimitsHaveSeen, LimitsHaveFrontsFrom, WonWordsAreAsLongFrom, WonWinsFrom};

/// A search that may go on behind its limit ends as the unbroken one.
pub fn limits_add()
    ensures { LimitsAdd }
{}

/// A front has at most as many words as its bound.
pub fn front_is_bounded()
    ensures { FrontIsBounded }
{}

/// Each word of a new front extends a word of the front before by a pad that is allowed after it.
pub fn parents_stood_before()
    ensures { ParentsStoodBefore }
{}

/// The words of a front are as long as the steps that were made.
pub fn words_are_equally_long()
    ensures { WordsAreEquallyLong }
{}

/// No live win is preferred to the winner, which is one of them.
pub fn winner_is_best()
    ensures { WinnerIsBest }
{}

/// The word of a search that is won has the verdict Win.
pub fn won_wins()
    ensures { WonWins }
{}

/// The word of a search that is won is as long as its step, which is within the limit.
pub fn won_words_are_as_long()
    ensures { WonWordsAreAsLong }
{}

/// At its limit a search has made all its steps, and its front has words, each as long as they are.
pub fn limits_have_fronts()
    ensures { LimitsHaveFronts }
{}

/// A step that goes on is one more.
pub fn steps_are_counted()
    ensures { StepsAreCounted }
{}

/// The number of a winner tells its parent's place in the front.
pub fn winners_tell_parents()
    ensures { WinnersTellParents }
{}

/// Of the words that a step keeps no more than the quota have one bucket.
pub fn buckets_are_bounded()
    ensures { BucketsAreBounded }
{}

/// A quota that is no less than the words of a front changes nothing: the first of the fresh are kept.
pub fn large_quotas_keep_the_first()
    ensures { LargeQuotasKeepTheFirst }
{}

/// A state goes on alike whether or not it has forgotten already what its next step forgets.
pub fn a_forgotten_state_goes_on_alike()
    ensures { AForgottenStateGoesOnAlike }
{}

/// A search keeps its states sound, from the first one on or from any sound one.
pub fn limits_are_sound()
    ensures opening { OpeningsAreSound }
    ensures goes_on { LimitsAreSound }
    ensures forgets { ForgettingIsSound }
    ensures some_seen { LimitsHaveSeen }
{}

/// A search that goes on to its limit has made all its steps, and its front has words, each as long as they are.
pub fn limits_have_fronts_from()
    ensures { LimitsHaveFrontsFrom }
{}

/// The word of a search that goes on and is won is as long as its step, which is within the limit.
pub fn won_words_are_as_long_from()
    ensures { WonWordsAreAsLongFrom }
{}

/// The word of a search that goes on and is won has the verdict Win.
pub fn won_wins_from()
    ensures { WonWinsFrom }
{}
