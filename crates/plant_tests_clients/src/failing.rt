//! Books that fail.

ghost use Rattle.plant_books.specs.Counting.{CountsFault};

use plant_alarm::Event;
use plant_books::{Books, MineRow, MineUnit, count_after};
use plant_model::{Call, Changes, UnitPart, UnitRows};
use plant_types::{Fault, List, Moment, Person, Sorted, UnitCode};
use std::alloc::Global;

/// The first lists of units are empty, then the store shuts. A list of shelves runs out of memory. Everything else
/// fails as on a full disk.
#[derive(Drop)]
pub struct Failing {
    administrator: Person,
    lists_left: u64,
    shut: bool,
    stores: u64,
    alloc: Global,
}

impl Failing {
    /// Such books, with this many lists of units before the store shuts.
    pub fn new(alloc: Global, administrator: Person, lists: u64) -> Failing {
        Failing {
            administrator,
            lists_left: lists,
            shut: false,
            stores: 0,
            alloc,
        }
    }

    /// The next fault of the store.
    fn fault(&mut self) -> Fault
        ensures { CountsFault self.old.stores self.new.stores result }
    {
        self.stores = count_after(self.stores, &Fault::Store);
        Fault::Store
    }
}

impl Books for Failing {
    ghost represents = { λ _ _. ⊥ };

    ghost is_honest = { λ _. ⊥ };

    ghost stores = { λ t. t.stores };

    ghost is_clean = { λ _. ⊥ };

    ghost may_leave = { λ _ _. ⊥ };

    ghost leaves_books = { λ _. ⊥ };

    fn settle(&self) {}

    fn is_shut(&self) -> bool {
        self.shut
    }

    fn ensure_open(&mut self) -> Result<(), Fault> {
        Ok(())
    }

    fn administrator(&self) -> &Person {
        &self.administrator
    }

    fn taken(&mut self, _unit: &UnitCode) -> Result<bool, Fault> {
        Err(self.fault())
    }

    fn rows(&mut self, _unit: &UnitCode) -> Result<Option<UnitRows>, Fault> {
        Err(self.fault())
    }

    fn rows_but_history(&mut self, _unit: &UnitCode) -> Result<Option<UnitRows>, Fault> {
        Err(self.fault())
    }

    fn events(&mut self, _unit: &UnitCode) -> Result<Sorted<Event>, Fault> {
        Err(self.fault())
    }

    fn part(&mut self, _call: &Call) -> Result<Option<UnitPart>, Fault> {
        Err(self.fault())
    }

    fn held(&mut self, _person: &Person, _now: Moment) -> Result<List<UnitCode>, Fault> {
        Err(self.fault())
    }

    fn mine_units(&mut self, _person: &Person, _now: Moment) -> Result<List<MineUnit>, Fault> {
        if self.lists_left == 0 {
            self.shut = true;
            return Err(self.fault());
        }
        self.lists_left -= 1;
        Ok(List::new(self.alloc))
    }

    fn mine_shelves(&mut self, _person: &Person, _now: Moment) -> Result<List<MineRow>, Fault> {
        Err(Fault::Memory)
    }

    fn apply(
        &mut self,
        _unit: &UnitCode,
        _changes: &Changes,
        _seen: Option<&UnitRows>,
    ) -> Result<(), Fault> {
        Err(self.fault())
    }
}
