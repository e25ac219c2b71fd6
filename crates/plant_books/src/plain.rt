//! The simplest keeper of books: lists in memory, with no store behind them. Nothing of it survives a crash.

ghost use Rattle.std.specs.Prelude.{◌≡◌, ⊤};
ghost use Rattle.std.proofs.Props.{props};
ghost use Rattle.plant_books.specs.{Contents.{no_units}, Counting.{CountsFault}, Listed.{AreCountable, IsListed}};

use crate::books::{Books, MineRow, MineUnit};
use crate::opened::{
    OpenedUnit, change_unit, codes_held, copy_but_history, copy_of, events_of, is_opened, part_at,
    shelves_held, units_held,
};
use plant_alarm::Event;
use plant_model::{Call, Changes, UnitPart, UnitRows};
use plant_types::{Fault, List, Moment, Person, Sorted, UnitCode};
use std::alloc::Global;

/// The count of `Fault::Store`, after this fault.
pub fn count_after(stores: u64, fault: &Fault) -> u64
    ensures { CountsFault stores result fault.now }
{
    match fault {
        Fault::Memory => stores,
        Fault::Store => stores.saturating_add(1),
    }
}

/// A keeper of books in lists, in the order of the units' codes. It never fails with `Fault::Store`: a unit has no more
/// rows than a part can count, and what would add more is refused as if memory had run out.
#[derive(Drop)]
pub struct Plain {
    administrator: Person,
    units: Sorted<OpenedUnit>,
    alloc: Global,
    ghost countable: { AreCountable units } by { Prim.hlevel props },
}

impl Plain {
    ghost use Rattle.plant_books.specs.declared.plain.Plain.{Plain as TheBooks};

    /// Books without units. It takes no memory. No books of this kind have ever failed with `Fault::Store`.
    pub fn new(alloc: Global, administrator: Person) -> Plain
        ensures represents { ⟦<Plain as Books>⟧.represents result (no_units administrator) }
        ensures stores { (books : TheBooks) → ⟦<Plain as Books>⟧.stores books ≡ 0 }
    {
        Plain {
            administrator,
            units: Sorted::new(alloc),
            alloc,
        }
    }
}

impl Books for Plain {
    ghost represents = { λ t m. IsListed t.administrator t.units m };

    ghost is_honest = { λ _. ⊤ };

    ghost stores = { λ _. 0 };

    ghost is_clean = { λ _. ⊤ };

    // nothing of lists in memory is left after a crash
    ghost may_leave = { λ _ _. ⊥ };

    ghost leaves_books = { λ _. ⊤ };

    fn settle(&self) {}

    fn is_shut(&self) -> bool {
        false
    }

    fn ensure_open(&mut self) -> Result<(), Fault> {
        Ok(())
    }

    fn administrator(&self) -> &Person {
        &self.administrator
    }

    fn taken(&mut self, unit: &UnitCode) -> Result<bool, Fault> {
        Ok(is_opened(&self.units, unit))
    }

    fn rows(&mut self, unit: &UnitCode) -> Result<Option<UnitRows>, Fault> {
        copy_of(self.alloc, &self.units, unit)
    }

    fn rows_but_history(&mut self, unit: &UnitCode) -> Result<Option<UnitRows>, Fault> {
        copy_but_history(self.alloc, &self.units, unit)
    }

    fn events(&mut self, unit: &UnitCode) -> Result<Sorted<Event>, Fault> {
        events_of(self.alloc, &self.units, unit)
    }

    fn part(&mut self, call: &Call) -> Result<Option<UnitPart>, Fault> {
        let Some(unit) = call.request.unit() else {
            return Ok(None);
        };
        part_at(self.alloc, &self.units, unit, call)
    }

    fn held(&mut self, person: &Person, now: Moment) -> Result<List<UnitCode>, Fault> {
        codes_held(self.alloc, &self.units, person, now)
    }

    fn mine_units(&mut self, person: &Person, now: Moment) -> Result<List<MineUnit>, Fault> {
        units_held(self.alloc, &self.units, person, now)
    }

    fn mine_shelves(&mut self, person: &Person, now: Moment) -> Result<List<MineRow>, Fault> {
        shelves_held(self.alloc, &self.units, person, now)
    }

    #[tactic(auto, using(crate::proofs::ListedLaws::made_listed))]
    fn apply(
        &mut self,
        unit: &UnitCode,
        changes: &Changes,
        _seen: Option<&UnitRows>,
    ) -> Result<(), Fault> {
        change_unit(self.alloc, &mut self.units, unit, changes)
    }
}
