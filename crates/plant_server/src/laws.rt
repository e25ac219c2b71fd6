//! What a plant may rely on follows from the command's promise: a law, stated as the contract of a function that does
//! nothing.

ghost use Rattle.std.specs.Prelude.{true, false};
ghost use Rattle.sqlite_std_file.specs.File.{IsFresh};
ghost use Rattle.sqlite_wal.specs.Files.{image_at};
ghost use Rattle.plant_server.specs.{OverFiles.{place_of}, Promises.{KeepsPromises}};

use crate::places::Located;
use plant_model::laws::split_office;
use sqlite::{File, FileFrom, Start};
use sqlite_disk::Disk;
use std::str::FromStr;

/// The six promises of the README follow from what `command` ensures.
pub fn promises_are_kept<F: Start + Located>()
    ensures { KeepsPromises F ⟦<FileFrom<F> as Disk>⟧ ⟦<File as Disk>⟧
        (place_of F.Located.path (image_at F.Start) (λ files. IsFresh true files.log × IsFresh false files.db))
        ⟦<u16 as FromStr>⟧.from_str_gives ⟦<u64 as FromStr>⟧.from_str_gives }
{
    split_office();
}
