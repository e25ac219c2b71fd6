//! Laws about the definitions alone, stated as contracts of functions with empty bodies.

ghost use Rattle.plant_model.specs.ImportLaw.{ImportsAgree};
ghost use Rattle.plant_model.specs.Laws.{AllShelvesEndByReturns, UnseenCallsChangeNothing, CodesAreTheAdministrators, EqualViewsEqualAnswers, CallsToSeenUnits, FirstWorldsAreLegal, OthersCallsCanGo, NextWorldsAreLegal, WithoutEndsStandingIsHolding, QuotaOf2000RefusesNothing, ShelvesEndByReturns};
ghost use Rattle.plant_model.specs.steps.Keys.{PutsOverWhatIsSeen};
ghost use Rattle.plant_model.specs.Openings.{HistoriesAreOwn};
ghost use Rattle.plant_model.specs.Splits.{ListsAreMerged, ListsAreMergedOfMany, OnlyAPartKnowsItsCodes, OtherCallsChangeNoPart, OtherUnitsMakeNoDifference, PartsAnswerTheirCalls, PartsRunAsTheWhole};

/// Isolation: if a person sees the same in two worlds, calls have the same results for that person in both.
pub fn two_worlds()
    ensures unseen { UnseenCallsChangeNothing }
    ensures codes { CodesAreTheAdministrators }
    ensures own { EqualViewsEqualAnswers }
    ensures shared { CallsToSeenUnits }
{}

/// Purge: a person's answers stay the same if the calls of others on units where the person never had a
/// role are left out.
#[tactic(auto, using(crate::proofs::PurgeLaws::others_calls_can_go))]
pub fn purged()
    ensures { OthersCallsCanGo }
{}

/// Splitting: an office of some of the units answers the calls on them as the whole one does.
pub fn split_office()
    ensures own { PartsAnswerTheirCalls }
    ensures elsewhere { OtherCallsChangeNoPart }
    ensures runs { PartsRunAsTheWhole }
    ensures others { OtherUnitsMakeNoDifference }
    ensures lists { ListsAreMerged }
    ensures many { ListsAreMergedOfMany }
    ensures codes { OnlyAPartKnowsItsCodes }
{}

/// The histories of a world without units are legal, and a call leaves legal histories legal.
#[tactic(auto, using(crate::proofs::public::LegalLaws::empty_legal, crate::proofs::public::LegalLaws::next_legal))]
pub fn histories_stay_legal()
    ensures first { FirstWorldsAreLegal }
    ensures next { NextWorldsAreLegal }
{}

/// Each unit's history is its own: opened by the administrator, and with valid values.
#[tactic(auto, using(crate::proofs::OwnLaws::histories_are_own))]
pub fn histories_are_own()
    ensures { HistoriesAreOwn }
{}

/// Without ends, the grants that stand hold at every moment.
pub fn standing_without_ends()
    ensures { WithoutEndsStandingIsHolding }
{}

/// A quota of 2,000 refuses no shelving in a legal history.
pub fn largest_quota()
    ensures { QuotaOf2000RefusesNothing }
{}

/// Imports agree: which file has which rows, and in which order they come, makes no difference.
#[tactic(auto, using(crate::proofs::AgreeLaws::imports_agree))]
pub fn imports_agree()
    ensures { ImportsAgree }
{}

/// A verdict looks only at an alarm's last return. Every answer and the quota nevertheless treat a shelf as all returns
/// of its alarm require.
pub fn shelves_end_by_returns()
    ensures unit { ShelvesEndByReturns }
    ensures units { AllShelvesEndByReturns }
{}

/// If an accepted call replaces a row, that row is among the rows that the call looks at. So a keeper that looks for it
/// there finds it.
#[tactic(auto, using(crate::proofs::KeyLaws::puts_over_seen))]
pub fn changes_lie_in_what_is_seen()
    ensures { PutsOverWhatIsSeen }
{}
