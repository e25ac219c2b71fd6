//! Names, for clauses only, the path of the files whose contents on opening are given by a `Start`.

ghost use Rattle.std.specs.Prelude.{ℕ, List, []};

use sqlite::Unknown;

/// The path of the files whose contents on opening a `Start` stands for. No code can read it: a contract over a `Start`
/// with a path claims something only of the files at that path.
pub trait Located {
    ghost path: { List ℕ };
}

/// The start that `main` passes to the command.
impl Located for Unknown {
    ghost path = { [] };
}
