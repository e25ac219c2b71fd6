//! Laws that compare the rules of schema 1 with those of this schema, stated as contracts of functions with empty
//! bodies.

ghost use Rattle.plant_store_migration.specs.OldRules.{OldHistoriesAreLegal, OldRowsHaveNoEnds, OldVerdictsStay};

/// A history of schema 1 is also one of this schema, in which each opening gives a quota of 2,000 and no grant has an
/// end. After it, calls get the answers that they got in schema 1, and its rows have that quota and no ends.
#[tactic(auto, using(crate::proofs::OldRuleLaws::legal_still, crate::proofs::OldRuleLaws::verdicts_stay, crate::proofs::OldRuleLaws::old_rows))]
pub fn old_histories()
    ensures legal { OldHistoriesAreLegal }
    ensures answers { OldVerdictsStay }
    ensures rows { OldRowsHaveNoEnds }
{}
