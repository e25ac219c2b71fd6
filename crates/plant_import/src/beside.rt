//! The kept events beside the rows of a file that comes late: those of the rows' alarms, and those around the rows'
//! numbers. Most kept events are told to be neither by a mark for the last bytes of a tag and one for the last bits of a
//! number.

ghost use Rattle.std.specs.List.{list_any};
ghost use Rattle.std.specs.Prelude.{◌≡◌, ◌<◌, ◌%◌, ◌∷◌, ◌++◌, [], IfOk, List, OnOk, filter, slice_index_or, true};
ghost use Rattle.plant_alarm.specs.declared.event.Event.{Event as TheEvent};
ghost use Rattle.plant_types.specs.Results.{OnlyMemory};
ghost use Rattle.plant_import.specs.Reached.{AreAround, AreNamed, HaveNumbers};
ghost use Rattle.plant_import.specs.Needed as needs;
ghost use Rattle.plant_import.specs.Numbers as by_number;
ghost use Rattle.plant_import.specs.Reached as reached;

use plant_alarm::{Event, Number};
use plant_types::{Fault, List, Sorted, Tag};
use std::alloc::Global;
use std::collections::BTreeSet;

/// How many slots tags are told apart by.
const TAG_SLOTS: usize = 1024;

/// How many slots numbers are told apart by.
const NUMBER_SLOTS: usize = 1024;

/// The tags of rows. A tag whose slot is not marked is none of them.
#[derive(Drop)]
struct Tags {
    marks: List<bool>,
    tags: BTreeSet<Tag>,
}

/// The numbers of kept events around rows. A number whose slot is not marked is none of them.
#[derive(Drop)]
struct Neighbours {
    marks: List<bool>,
    numbers: BTreeSet<Number>,
}

/// Slots of which none is marked.
fn no_marks(alloc: Global, count: usize) -> Result<List<bool>, Fault>
    ensures err { OnlyMemory result }
{
    let mut marks = List::with_capacity(alloc, count)?;
    for _ in 0..count {
        marks.push(false)?;
    }
    Ok(marks)
}

/// Whether the slot is marked. Past the end all are.
fn is_marked(marks: &List<bool>, slot: usize) -> bool
    ensures { result ≡ slice_index_or marks.now slot true }
{
    match marks.as_slice().get(slot) {
        Some(marked) => *marked,
        None => true,
    }
}

/// The byte at a place, 0 past the end.
fn byte_at(bytes: &[u8], place: usize) -> usize
    ensures value { result ≡ slice_index_or bytes.now place 0 }
    ensures bound { result < 256 }
{
    match bytes.get(place) {
        Some(byte) => usize::from(*byte),
        None => 0,
    }
}

/// The slot of a tag, by its last three bytes.
fn tag_slot(tag: &Tag) -> usize
    ensures { result ≡ reached.tag_slot tag.now }
{
    let bytes = tag.as_bytes();
    let count = bytes.len();
    let last = byte_at(bytes, count.saturating_sub(1));
    let before = byte_at(bytes, count.saturating_sub(2));
    let third = byte_at(bytes, count.saturating_sub(3));
    (last + 11 * before + 121 * third) % TAG_SLOTS
}

/// The slot of a number, by its last bits.
fn number_slot(number: Number) -> usize
    ensures { result ≡ number % 1024 }
{
    (number.get() % NUMBER_SLOTS as u64) as usize
}

impl Tags {
    /// Whether the tag is one of them.
    fn has(&self, tag: &Tag) -> bool
        ensures { (rows : List TheEvent) → AreNamed self.now rows → result ≡ needs.names rows tag.now }
    {
        is_marked(&self.marks, tag_slot(tag)) && self.tags.contains(tag)
    }

    /// Puts the row's tag.
    fn put(&mut self, alloc: Global, row: &Event) -> Result<(), Fault>
        ensures value { (rows : List TheEvent) → AreNamed self.old rows
            → OnOk result (AreNamed self.new (rows ++ row.now ∷ [])) }
        ensures err { OnlyMemory result }
    {
        self.tags.insert(row.tag.copy(alloc)?)?;
        self.marks.replace_at(tag_slot(&row.tag), true);
        Ok(())
    }
}

impl Neighbours {
    /// Whether the number is one of them.
    fn has(&self, number: Number) -> bool
        ensures { (es : List TheEvent) → HaveNumbers self.now es
            → result ≡ list_any (by_number.has_number number) es }
    {
        is_marked(&self.marks, number_slot(number)) && self.numbers.contains(&number)
    }

    /// Puts the event's number.
    fn put(&mut self, event: &Event) -> Result<(), Fault>
        ensures value { (es : List TheEvent) → HaveNumbers self.old es
            → OnOk result (HaveNumbers self.new (es ++ event.now ∷ [])) }
        ensures err { OnlyMemory result }
    {
        self.numbers.insert(event.seq)?;
        self.marks.replace_at(number_slot(event.seq), true);
        Ok(())
    }

    /// Puts the numbers of events.
    fn put_all(&mut self, events: &[Event]) -> Result<(), Fault>
        ensures value { (es : List TheEvent) → HaveNumbers self.old es
            → OnOk result (HaveNumbers self.new (es ++ events.now)) }
        ensures err { OnlyMemory result }
    {
        for event in events {
            self.put(event)?;
        }
        Ok(())
    }
}

/// The tags of the rows.
fn tags_of(alloc: Global, rows: &[Event]) -> Result<Tags, Fault>
    ensures value { IfOk result (λ tags. AreNamed tags rows.now) }
    ensures err { OnlyMemory result }
{
    let mut tags = Tags {
        marks: no_marks(alloc, TAG_SLOTS)?,
        tags: BTreeSet::new(alloc),
    };
    for row in rows {
        tags.put(alloc, row)?;
    }
    Ok(tags)
}

/// The kept events around a number: the last of a smaller one and the two behind it; if none is smaller, the first
/// three.
fn around<'a>(kept: &'a Sorted<Event>, number: Number) -> &'a [Event]
    ensures { result.now ≡ needs.around kept.now number }
{
    let before = kept.place(&number).saturating_sub(1);
    let (_, from) = kept.as_slice().split_at(before);
    if from.len() < 3 {
        return from;
    }
    let (three, _) = from.split_at(3);
    three
}

/// The numbers of the kept events around the rows.
fn numbers_around(alloc: Global, kept: &Sorted<Event>, rows: &[Event]) -> Result<Neighbours, Fault>
    ensures value { IfOk result (λ found. AreAround found kept.now rows.now) }
    ensures err { OnlyMemory result }
{
    let mut found = Neighbours {
        marks: no_marks(alloc, NUMBER_SLOTS)?,
        numbers: BTreeSet::new(alloc),
    };
    for row in rows {
        found.put_all(around(kept, row.seq))?;
    }
    Ok(found)
}

/// Whether the kept event is of a row's alarm, or around a row's number.
fn is_beside(tags: &Tags, found: &Neighbours, event: &Event) -> bool
    ensures { (kept rows : List TheEvent) → AreNamed tags.now rows → AreAround found.now kept rows
        → result ≡ needs.is_beside kept rows event.now }
{
    tags.has(&event.tag) || found.has(event.seq)
}

/// Appends a copy of the kept event if it is of a row's alarm, or around a row's number.
fn push_beside(
    alloc: Global,
    some: &mut List<Event>,
    tags: &Tags,
    found: &Neighbours,
    event: &Event,
) -> Result<(), Fault>
    ensures value { (kept rows : List TheEvent) → AreNamed tags.now rows → AreAround found.now kept rows
        → OnOk result (some.new ≡ some.old ++ filter (needs.is_beside kept rows) (event.now ∷ [])) }
    ensures err { OnlyMemory result }
{
    if is_beside(tags, found, event) {
        some.push(event.copy(alloc)?)?;
    }
    Ok(())
}

/// Copies of the kept events of the rows' alarms, and of those around the rows' numbers.
pub fn beside(alloc: Global, kept: &Sorted<Event>, rows: &[Event]) -> Result<Sorted<Event>, Fault>
    ensures value { IfOk result (λ some. some ≡ needs.beside kept.now rows.now) }
    ensures err { OnlyMemory result }
{
    let tags = tags_of(alloc, rows)?;
    let found = numbers_around(alloc, kept, rows)?;
    let mut some = List::new(alloc);
    let events = kept.as_slice();
    for event in events {
        push_beside(alloc, &mut some, &tags, &found, event)?;
    }
    Ok(Sorted::of(some))
}
