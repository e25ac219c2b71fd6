//! A keeper of books that puts a cache in front of another keeper. Calls are answered from cached rows where these
//! suffice; changes are made in the books below first, and then in the cache.

ghost use Rattle.std.specs.{List.{list_any}, Prelude.{◌≡◌, ◌≤◌, [], IfErr, IfOk, IfSome, OnOk, Some, option_map}};
ghost use Rattle.plant_books.specs.Crashes.{LosesNoPart};
ghost use Rattle.plant_books.specs.{Books.{CountsBy, KeepsOnErr, Makes, WasHonest}, Contents.{Content, codes_held, part_in}};
ghost use Rattle.plant_books_cache.specs.{Cache.{IsCached, rows_of_all, seen}, Leaves.{Leaves, AnswersOf, Caches}};
ghost use Rattle.plant_model.specs.Worlds.{unit_named};
ghost use Rattle.plant_types.specs.{Names.{same_name}, Results.{OnlyMemory}};
ghost use Rattle.std.specs.FinMap as fin;

use crate::cache::Cache;
use crate::cached_unit::CachedUnit;
use plant_alarm::Event;
use plant_books::{Books, MineRow, MineUnit, part_of, rows_but_history};
use plant_model::{Call, Changes, UnitPart, UnitRows, looks_at_events, looks_at_reviews};
use plant_types::limits::MAX_CACHED_ROWS;
use plant_types::{Fault, List, Moment, Person, Sorted, TryCopy, UnitCode};
use std::alloc::Global;

/// A keeper over another one, with cached rows of the units that were used last. The events of a unit are cached at the
/// first call that looks at them. Its matrices and changes are never cached: a call that looks at them is answered from
/// the books below, which read what it looks at by key.
#[derive(Drop)]
pub struct CachedBooks<B: Books> {
    books: B,
    copies: Cache,
    alloc: Global,
}

/// Whether the unit is one of these.
fn is_among(unit: &UnitCode, units: &[UnitCode]) -> bool
    ensures { result ≡ list_any (same_name unit.now) units.now }
{
    units.iter().any(|other| *unit == *other)
}

/// The part that was made from cached rows. `None` if they are more than a part can count: the books below then report
/// that fault.
fn part_if_countable(part: Result<UnitPart, Fault>) -> Result<Option<UnitPart>, Fault>
    ensures same { IfOk result (λ ready. IfSome ready (λ rows. part ≡ Ok rows)) }
    ensures memory { OnlyMemory result }
{
    match part {
        Ok(part) => Ok(Some(part)),
        Err(Fault::Memory) => Err(Fault::Memory),
        Err(Fault::Store) => Ok(None),
    }
}

impl<B: Books> CachedBooks<B> {
    /// The keeper over these books, with an empty cache. It takes no memory.
    pub fn new(alloc: Global, copies: Cache, books: B) -> CachedBooks<B>
        requires { copies.units.entries ≡ [] }
        ensures represents { (m : Content) → B.represents books m
            → ⟦<CachedBooks<B> as Books>⟧.represents result m }
        ensures stores { ⟦<CachedBooks<B> as Books>⟧.stores result ≡ B.stores books }
        ensures honest { ⟦<CachedBooks<B> as Books>⟧.is_honest result → B.is_honest books }
        ensures clean { ⟦<CachedBooks<B> as Books>⟧.is_clean result → B.is_clean books }
        ensures leaves { (x : Content) → ⟦<CachedBooks<B> as Books>⟧.may_leave result x
            → B.may_leave books x }
        ensures sound { B.leaves_books books → ⟦<CachedBooks<B> as Books>⟧.leaves_books result }
    {
        CachedBooks {
            books,
            copies,
            alloc,
        }
    }

    /// The limit, which the number of cached rows does not exceed. It is always at most `MAX_CACHED_ROWS`.
    pub fn row_limit(&self) -> u128
        ensures rows { rows_of_all self.now.copies.units.entries ≤ result }
        ensures limit { result ≤ MAX_CACHED_ROWS }
    {
        self.copies.row_limit()
    }

    /// The books below, as they were left.
    pub fn into_books(self) -> B
        ensures represents { (m : Content) → ⟦<CachedBooks<B> as Books>⟧.represents self m
            → B.represents result m }
        ensures honest { B.is_honest result → ⟦<CachedBooks<B> as Books>⟧.is_honest self }
        ensures stores { B.stores result ≡ ⟦<CachedBooks<B> as Books>⟧.stores self }
        ensures clean { B.is_clean result → ⟦<CachedBooks<B> as Books>⟧.is_clean self }
        ensures leaves { (x : Content) → B.may_leave result x
            → ⟦<CachedBooks<B> as Books>⟧.may_leave self x }
        ensures sound { ⟦<CachedBooks<B> as Books>⟧.leaves_books self → B.leaves_books result }
    {
        let CachedBooks {
            books,
            copies: _,
            alloc: _,
        } = self;
        books
    }

    /// Caches the unit's rows, if memory suffices.
    fn keep(&mut self, unit: &UnitCode, copy: CachedUnit)
        ensures kept { (m : Content) → Caches B.Books self.old m
            → (B.is_honest self.old.books
            → option_map (seen copy.has_events) (fin.get m.units unit.now) ≡ Some copy.rows)
            → Caches B.Books self.new m }
        ensures below { self.new.books ≡ self.old.books }
    {
        if let Ok(unit) = unit.copy(self.alloc) {
            self.copies.keep(unit, copy);
        }
    }

    /// Reads the unit's rows except its history, and caches them if memory suffices.
    fn bring(&mut self, unit: &UnitCode) -> Result<(), Fault>
        ensures leaves { Leaves B.Books result self.old self.new }
    {
        if let Some(rows) = self.books.rows_but_history(unit)? {
            self.keep(
                unit,
                CachedUnit {
                    rows,
                    has_events: false,
                },
            );
        }
        Ok(())
    }

    /// Reads the events of a unit whose other rows are cached, and caches them too.
    fn bring_events(&mut self, unit: &UnitCode) -> Result<(), Fault>
        ensures leaves { Leaves B.Books result self.old self.new }
    {
        let events = self.books.events(unit)?;
        if let Some((_, copy)) = self.copies.take(unit) {
            let rows = UnitRows {
                events,
                ..copy.rows
            };
            self.keep(
                unit,
                CachedUnit {
                    rows,
                    has_events: true,
                },
            );
        }
        Ok(())
    }

    /// Whether the caller holds a role in the unit.
    fn is_held(&mut self, unit: &UnitCode, call: &Call) -> Result<bool, Fault>
        ensures found { AnswersOf B.Books self.old self.new result (λ m held. held
            ≡ list_any (same_name unit.now) (codes_held m call.now.moment call.now.person)) }
        ensures leaves { Leaves B.Books result self.old self.new }
    {
        let units = self.books.held(&call.person, call.moment)?;
        Ok(is_among(unit, units.as_slice()))
    }

    /// Reads and caches the rows of a unit, with the events if the call looks at them. For a caller who holds no role
    /// in the unit, nothing is cached.
    fn bring_for(&mut self, unit: &UnitCode, call: &Call) -> Result<(), Fault>
        ensures leaves { Leaves B.Books result self.old self.new }
    {
        if !self.is_held(unit, call)? {
            return Ok(());
        }
        self.bring(unit)?;
        if looks_at_events(&call.request) {
            self.bring_events(unit)?;
        }
        Ok(())
    }

    /// Reads and caches what the call looks at, unless it is cached already or is never cached.
    fn prepare(&mut self, unit: &UnitCode, call: &Call) -> Result<(), Fault>
        ensures leaves { Leaves B.Books result self.old self.new }
    {
        if looks_at_reviews(&call.request) {
            return Ok(());
        }
        match self.copies.copy_of(unit) {
            None => self.bring_for(unit, call),
            Some(copy) if copy.serves(call) => Ok(()),
            Some(_) => self.bring_events(unit),
        }
    }

    /// Makes the changes in the books below. If that fails, the cache is emptied, so that books that have shut are
    /// asked and report it.
    fn change_below(
        &mut self,
        unit: &UnitCode,
        changes: &Changes,
        seen: Option<&UnitRows>,
    ) -> Result<(), Fault>
        ensures made { Makes B.represents self.old.books self.new.books unit.now changes.now result }
        ensures unchanged { KeepsOnErr B.represents self.old.books self.new.books result }
        ensures honest { WasHonest B.is_honest self.old.books self.new.books }
        ensures count { CountsBy B.stores self.old.books self.new.books result }
        ensures crash { LosesNoPart B.represents B.is_honest B.is_clean B.leaves_books B.may_leave
            unit.now changes.now self.old.books self.new.books }
        ensures open { OnOk result (B.is_clean self.new.books → B.is_honest self.new.books) }
        ensures kept { IfOk result (λ _. self.new.copies ≡ self.old.copies) }
        ensures forgets { IfErr result (λ _. self.new.copies.units.entries ≡ []) }
    {
        let changed = self.books.apply(unit, changes, seen);
        if changed.is_err() {
            self.copies.clear();
        }
        changed
    }

    /// The part for a call on this unit from cached rows. `None` if these do not serve the call, or are more than a
    /// part can count.
    fn ready_part(&self, unit: &UnitCode, call: &Call) -> Result<Option<UnitPart>, Fault>
        ensures found { (m : Content) → Caches B.Books self.now m → B.is_honest self.now.books
            → unit_named call.now.request ≡ Some unit.now
            → IfOk result (λ ready. IfSome ready (λ part. Some part ≡ part_in m call.now unit.now)) }
        ensures memory { OnlyMemory result }
    {
        match self.copies.copy_of(unit) {
            Some(copy) if copy.serves(call) => {
                part_if_countable(part_of(self.alloc, &copy.rows, call))
            }
            _ => Ok(None),
        }
    }

    /// The part for a call on this unit: from cached rows if these serve the call, otherwise from the books below.
    fn part_of(&mut self, unit: &UnitCode, call: &Call) -> Result<Option<UnitPart>, Fault>
        ensures found { (m : Content) → Caches B.Books self.old m → B.is_honest self.new.books
            → unit_named call.now.request ≡ Some unit.now
            → IfOk result (λ part. part ≡ part_in m call.now unit.now) }
        ensures leaves { Leaves B.Books result self.old self.new }
    {
        match self.ready_part(unit, call)? {
            Some(part) => Ok(Some(part)),
            None => self.books.part(call),
        }
    }

    /// Makes the unit the one used last, if its rows are cached and the caller holds a role in it.
    fn touch_for(&mut self, unit: &UnitCode, part: &UnitPart)
        ensures kept { (m : Content) → Caches B.Books self.old m → Caches B.Books self.new m }
        ensures below { self.new.books ≡ self.old.books }
    {
        if part.held {
            self.copies.touch(unit);
        }
    }

    /// The part for a call on this unit. The unit's rows are read and cached first, if they are not cached yet.
    fn cached_part(&mut self, unit: &UnitCode, call: &Call) -> Result<Option<UnitPart>, Fault>
        ensures found { (m : Content) → Caches B.Books self.old m → B.is_honest self.new.books
            → unit_named call.now.request ≡ Some unit.now
            → IfOk result (λ part. part ≡ part_in m call.now unit.now) }
        ensures leaves { Leaves B.Books result self.old self.new }
    {
        if let Some(part) = self.ready_part(unit, call)? {
            self.touch_for(unit, &part);
            return Ok(Some(part));
        }
        self.prepare(unit, call)?;
        self.part_of(unit, call)
    }
}

impl<B: Books> Books for CachedBooks<B> {
    ghost represents = { λ t m. IsCached (B.represents t.books) (B.is_honest t.books) t.copies.units.entries m };

    ghost is_honest = { λ t. B.is_honest t.books };

    ghost stores = { λ t. B.stores t.books };

    ghost is_clean = { λ t. B.is_clean t.books };

    ghost may_leave = { λ t. B.may_leave t.books };

    ghost leaves_books = { λ t. B.leaves_books t.books };

    fn settle(&self) {
        self.books.settle();
    }

    fn is_shut(&self) -> bool {
        self.books.is_shut()
    }

    fn ensure_open(&mut self) -> Result<(), Fault> {
        self.books.ensure_open()
    }

    fn administrator(&self) -> &Person {
        self.books.administrator()
    }

    fn taken(&mut self, unit: &UnitCode) -> Result<bool, Fault> {
        match self.copies.copy_of(unit) {
            Some(_) => Ok(true),
            None => self.books.taken(unit),
        }
    }

    fn rows(&mut self, unit: &UnitCode) -> Result<Option<UnitRows>, Fault> {
        self.books.rows(unit)
    }

    fn rows_but_history(&mut self, unit: &UnitCode) -> Result<Option<UnitRows>, Fault> {
        match self.copies.copy_of(unit) {
            Some(copy) => Ok(Some(rows_but_history(self.alloc, &copy.rows)?)),
            None => self.books.rows_but_history(unit),
        }
    }

    fn events(&mut self, unit: &UnitCode) -> Result<Sorted<Event>, Fault> {
        match self.copies.events_of(unit) {
            Some(events) => events.copy(self.alloc),
            None => self.books.events(unit),
        }
    }

    fn part(&mut self, call: &Call) -> Result<Option<UnitPart>, Fault> {
        let Some(unit) = call.request.unit() else {
            return Ok(None);
        };
        match self.cached_part(unit, call) {
            // The cached rows of other units may occupy the memory that is missing here.
            Err(Fault::Memory) => {
                self.copies.clear();
                self.books.ensure_open()?;
                self.books.part(call)
            }
            part => part,
        }
    }

    fn held(&mut self, person: &Person, now: Moment) -> Result<List<UnitCode>, Fault> {
        self.books.held(person, now)
    }

    fn mine_units(&mut self, person: &Person, now: Moment) -> Result<List<MineUnit>, Fault> {
        self.books.mine_units(person, now)
    }

    fn mine_shelves(&mut self, person: &Person, now: Moment) -> Result<List<MineRow>, Fault> {
        let units = self.books.held(person, now)?;
        if let Some(shelves) = self.copies.shelves_of(self.alloc, units.as_slice())? {
            return Ok(shelves);
        }
        self.books.mine_shelves(person, now)
    }

    fn apply(
        &mut self,
        unit: &UnitCode,
        changes: &Changes,
        seen: Option<&UnitRows>,
    ) -> Result<(), Fault> {
        self.change_below(unit, changes, seen)?;
        match changes.copy(self.alloc) {
            Ok(changes) => self.copies.follow(self.alloc, unit, changes),
            Err(_) => self.copies.clear(),
        }
        Ok(())
    }

    fn carry_out(
        &mut self,
        unit: &UnitCode,
        changes: Changes,
        seen: Option<&UnitRows>,
    ) -> Result<(), Fault> {
        self.change_below(unit, &changes, seen)?;
        self.copies.follow(self.alloc, unit, changes);
        Ok(())
    }
}
