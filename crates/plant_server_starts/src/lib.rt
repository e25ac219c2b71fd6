//! Laws about any number of starts of the program over one file: each command that serves a file is a start, and
//! together they are one run. They hold no code; the functions have empty bodies and carry the contracts.
#![tactic(auto)]

ghost use Rattle.std.specs.Prelude.{true, false};
ghost use Rattle.sqlite_std_file.specs.File.{IsFresh};
ghost use Rattle.sqlite_wal.specs.Files.{image_at};
ghost use Rattle.plant_server.specs.OverFiles.{place_of};
ghost use Rattle.plant_server_starts.specs.Starts.{IsAStart, StartsAreOneRun};

use plant_server::Located;
use sqlite::{File, FileFrom, Start};
use sqlite_disk::Disk;

/// Any number of starts of the program over the file of an administrator, each of which ended, was killed or was cut
/// off: together they are one list of calls of one world. It has all confirmed calls, in their order, and for each
/// start at most one more, which was answered by a fault or was being served. The file holds the rows of the world
/// after them, and each start answered its calls, up to the last confirmed one, as the world answers them that the
/// earlier starts left.
pub fn starts_are_one_run<D: Disk, N: Disk, F>()
    ensures { StartsAreOneRun F D.Disk N.Disk }
{}

/// What the command's contract states about the files that it served is such a start, from what they held as they were
/// opened: the same streams or connections were served, with the calls and the answers of the start.
pub fn served_files_are_a_start<F: Start + Located>()
    ensures { IsAStart F ⟦<FileFrom<F> as Disk>⟧ ⟦<File as Disk>⟧
        (place_of F.Located.path (image_at F.Start) (λ files. IsFresh true files.log × IsFresh false files.db)) }
{}
