//! The trait `Books` of whatever keeps the rows of all units: what can be read from it, how changes are applied,
//! and what its contracts state about a failure of the store and a crash.

ghost use Rattle.std.specs.Prelude.{◌≡◌, IfOk, IsTrue, None, OnOk, ℕ};
ghost use Rattle.plant_books.specs.Crashes.{IsSettled, LosesNoPart};
ghost use Rattle.plant_books.specs.Books.{CountsBy, Finds, FindsPart, KeepsOnErr, LeavesUnchanged, Makes, WasHonest};
ghost use Rattle.plant_books.specs.Contents.{Content, codes_held, events_in, mine_shelves, mine_units, rows_but_history};
ghost use Rattle.plant_model.specs.Worlds.{unit_named};
ghost use Rattle.std.specs.FinMap as fin;

use plant_alarm::Event;
use plant_model::{Call, Changes, ShelfRow, UnitPart, UnitRows};
use plant_types::{Fault, List, Moment, Person, Role, Sorted, Tag, UnitCode};

/// A unit in which a person holds roles, with its last moment.
#[derive(Drop)]
pub struct MineUnit {
    pub unit: UnitCode,
    pub roles: List<Role>,
    pub last: Moment,
}

/// A shelf of a unit in which a person holds a role, with the moment at which its alarm last returned to normal.
#[derive(Drop)]
pub struct MineRow {
    pub unit: UnitCode,
    pub shelf: ShelfRow,
    pub last_return: Option<Moment>,
}

impl MineRow {
    /// The tag of the shelved alarm.
    pub fn tag(&self) -> &Tag
        ensures { result.now ≡ self.now.shelf.tag }
    {
        &self.shelf.tag
    }
}

/// Where the rows of all units are kept. A fault leaves them as they were.
pub trait Books {
    /// The books hold this content, if the keeper's premise holds.
    ghost represents: { Self → Content → Type 0 };

    /// The keeper's premise: its store keeps what was written to it. If it holds after a call, it held before.
    ghost is_honest: { Self → Type 0 };

    /// How many calls failed with `Fault::Store`.
    ghost stores: { Self → ℕ };

    /// The keeper's premise about a crash: the store's disk has returned what was written to it, whether or not a
    /// failure has shut the store. If it holds after a call, it held before.
    ghost is_clean: { Self → Type 0 };

    /// The next opening after a crash at this moment may find books with this content.
    ghost may_leave: { Self → Content → Type 0 };

    /// Whatever a crash at this moment leaves can be opened as books.
    ghost leaves_books: { Self → Type 0 };

    /// Gives the proof what a crash leaves while the store is open. Does nothing at run time.
    fn settle(&self)
        ensures { IsSettled represents is_honest is_clean leaves_books may_leave self.now };

    /// Whether a failure has shut the store behind these books. The books are then never honest again. Does not access
    /// the store, and takes no memory.
    fn is_shut(&self) -> bool
        ensures { IsTrue result → ¬ is_honest self.now };

    /// Fails unless the store behind these books is open. Changes nothing.
    fn ensure_open(&mut self) -> Result<(), Fault>
        ensures open { OnOk result (is_clean self.new → is_honest self.new) }
        ensures unchanged { LeavesUnchanged represents is_honest is_clean leaves_books may_leave stores self.old self.new result };

    /// The administrator's name.
    fn administrator(&self) -> &Person
        ensures { (m : Content) → represents self.now m → result.now ≡ m.admin };

    /// Whether the unit was opened.
    fn taken(&mut self, unit: &UnitCode) -> Result<bool, Fault>
        ensures found { Finds represents is_honest self.old self.new result
            (λ m. fin.contains_key m.units unit.now) }
        ensures unchanged { LeavesUnchanged represents is_honest is_clean leaves_books may_leave stores self.old self.new result };

    /// All rows of the unit. `None` if it was never opened.
    fn rows(&mut self, unit: &UnitCode) -> Result<Option<UnitRows>, Fault>
        ensures found { Finds represents is_honest self.old self.new result
            (λ m. fin.get m.units unit.now) }
        ensures unchanged { LeavesUnchanged represents is_honest is_clean leaves_books may_leave stores self.old self.new result };

    /// All rows of the unit except its history, which is its events, its changes, and the limits and cells of its
    /// matrices. `None` if it was never opened.
    fn rows_but_history(&mut self, unit: &UnitCode) -> Result<Option<UnitRows>, Fault>
        ensures found { Finds represents is_honest self.old self.new result
            (λ m. rows_but_history m unit.now) }
        ensures unchanged { LeavesUnchanged represents is_honest is_clean leaves_books may_leave stores self.old self.new result };

    /// All events of the unit. Empty if it was never opened.
    fn events(&mut self, unit: &UnitCode) -> Result<Sorted<Event>, Fault>
        ensures found { Finds represents is_honest self.old self.new result
            (λ m. events_in m unit.now) }
        ensures unchanged { LeavesUnchanged represents is_honest is_clean leaves_books may_leave stores self.old self.new result };

    /// The rows of the unit that the call looks at. `None` if the unit was never opened or the call names no unit.
    fn part(&mut self, call: &Call) -> Result<Option<UnitPart>, Fault>
        ensures found { FindsPart represents is_honest self.old self.new call.now result }
        ensures none { unit_named call.now.request ≡ None → IfOk result (λ part. part ≡ None) }
        ensures unchanged { LeavesUnchanged represents is_honest is_clean leaves_books may_leave stores self.old self.new result };

    /// The codes of the units in which the person holds a role at the moment, in order, each once.
    fn held(&mut self, person: &Person, now: Moment) -> Result<List<UnitCode>, Fault>
        ensures found { Finds represents is_honest self.old self.new result
            (λ m. codes_held m now person.now) }
        ensures unchanged { LeavesUnchanged represents is_honest is_clean leaves_books may_leave stores self.old self.new result };

    /// The units in which the person holds a role at the moment, in the order of their codes, each once, with the roles
    /// in the order of their numbers.
    fn mine_units(&mut self, person: &Person, now: Moment) -> Result<List<MineUnit>, Fault>
        ensures found { Finds represents is_honest self.old self.new result
            (λ m. mine_units m now person.now) }
        ensures unchanged { LeavesUnchanged represents is_honest is_clean leaves_books may_leave stores self.old self.new result };

    /// Every shelf of the units in which the person holds a role at the moment, in the order of units and tags, each
    /// once. Shelves whose time has passed are among them.
    fn mine_shelves(&mut self, person: &Person, now: Moment) -> Result<List<MineRow>, Fault>
        ensures found { Finds represents is_honest self.old self.new result
            (λ m. mine_shelves m now person.now) }
        ensures unchanged { LeavesUnchanged represents is_honest is_clean leaves_books may_leave stores self.old self.new result };

    /// Makes the changes to this unit's rows in their order: all of them, or none. `seen` has the unit's rows that the
    /// caller looked at. If it is given, a row whose key is not in it may be inserted as a new row, which saves a
    /// search; if a row with that key exists nevertheless, that is a fault of the store.
    fn apply(
        &mut self,
        unit: &UnitCode,
        changes: &Changes,
        seen: Option<&UnitRows>,
    ) -> Result<(), Fault>
        ensures made { Makes represents self.old self.new unit.now changes.now result }
        ensures unchanged { KeepsOnErr represents self.old self.new result }
        ensures honest { WasHonest is_honest self.old self.new }
        ensures crash { LosesNoPart represents is_honest is_clean leaves_books may_leave unit.now changes.now self.old self.new }
        ensures kept { OnOk result (is_clean self.new → is_honest self.new) }
        ensures count { CountsBy stores self.old self.new result };

    /// Makes the changes, as `apply` does, but takes ownership of their rows, which may save copies.
    fn carry_out(
        &mut self,
        unit: &UnitCode,
        changes: Changes,
        seen: Option<&UnitRows>,
    ) -> Result<(), Fault>
        ensures made { Makes represents self.old self.new unit.now changes result }
        ensures unchanged { KeepsOnErr represents self.old self.new result }
        ensures honest { WasHonest is_honest self.old self.new }
        ensures crash { LosesNoPart represents is_honest is_clean leaves_books may_leave unit.now changes self.old self.new }
        ensures kept { OnOk result (is_clean self.new → is_honest self.new) }
        ensures count { CountsBy stores self.old self.new result }
    {
        self.apply(unit, &changes, seen)
    }
}
