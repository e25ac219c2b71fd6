//! Laws about the definitions alone, stated as contracts of functions with empty bodies.

ghost use Rattle.plant_import.specs.{Files.{FilesAgree, TakenFilesFit}, Needed.{NeededHaveOwn, NeededSuffice, NewOnesFollow}};

/// Files with the same rows, in whatever order and however often, leave the same events.
pub fn files_agree()
    ensures { FilesAgree }
{}

/// The events that are kept after files without fault are consistent: each number has one content, and moments do not
/// fall.
#[tactic(auto, using(crate::proofs::public::FileLaws::taken_files_fit))]
pub fn taken_files_fit()
    ensures { TakenFilesFit }
{}

/// It suffices to compare a file with the kept events that it needs.
#[tactic(auto, using(crate::proofs::public::NeededLaws::needed_merge))]
pub fn needed_suffice()
    ensures { NeededSuffice }
{}

/// If a row comes late, the alarms that the file names have the same events after it.
#[tactic(auto, using(crate::proofs::public::OwnLaws::own_needed))]
pub fn needed_have_own()
    ensures { NeededHaveOwn }
{}

/// If no row comes late, the states of alarms can be continued from where the kept events left them.
#[tactic(auto, using(crate::proofs::public::LaterLaws::fresh_after))]
pub fn new_ones_follow()
    ensures { NewOnesFollow }
{}
