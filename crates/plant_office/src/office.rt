//! The office: it takes calls, has them judged, writes the changes to its books and returns the answers. Its
//! contracts state that each caller sees only the units in which they hold a role, and what a fault or a crash
//! leaves.

ghost use Rattle.std.specs.Prelude.{◌≡◌, ◌<◌, ◌^◌, ◌-◌, ◌+◌, ◌≤◌, Some, None, true, false, IfOk, IfSome, IsTrue, OnErr, OnOk, List, [], ◌∷◌, ◌++◌, filter_map, map, max, fold, length, option_copied, option_map, vec_len, vec_capacity};
ghost use Rattle.plant_books.specs.{Books.{WasHonest}, Contents.{Content}, declared.books.MineUnit.{MineUnit}};
ghost use Rattle.plant_types.specs.Results.{OnlyMemory};
ghost use Rattle.plant_model.specs.{Legality.{has_matrix, is_matrix_kind}, Verdicts.{changes_history, is_opening}};
ghost use Rattle.plant_model.specs.steps.RowChanges.{changed, changed_by};
ghost use Rattle.plant_model.specs.{Views.{view}, Worlds.{World, IsLegalWorld, unit_named}, declared.call.Request.TheVariants.{MyShelves, MyUnits}};
ghost use Rattle.plant_model.specs.declared.rows.UnitRows.{UnitRows};
ghost use Rattle.plant_office.specs.{Answers.{CountsAnswer, IfSaid, OnFault, answer_as, reply_or_fault}, Lines.{line_of_mine, line_of_shelf}};
ghost use Rattle.plant_office.specs.Faults as spec;
ghost use Rattle.plant_office.specs.Enduring.{EnduresAll, EnduresSettled, books_state};
ghost use Rattle.plant_office.specs.{Runs.{AllChangeNothing, EachKeepsUnchanged, IsRun, stores_in}, Served.{Holds, IsIsolated, IsServed}, Serves.{HaveRead, Serves}};

use plant_books::{Books, MineRow, MineUnit};
use plant_model::{
    Answer, Call, MineLine, Refused, Reply, Request, Row, RowEdit, UnitLine, UnitPart, UnitRow,
    UnitRows, Verdict,
};
use plant_ration::ChangeKind;
use plant_types::{Fault, List, Moment, UnitCode};
use plant_unit::{is_read, judge_open, judge_taking, shelf_line};
use std::alloc::Global;

/// The rows that the call looked at, if it looked at a unit.
fn rows_in(part: &Option<UnitPart>) -> Option<&UnitRows>
    ensures { option_copied result ≡ option_map (λ part. part.rows) part.now }
{
    match part {
        Some(part) => Some(&part.rows),
        None => None,
    }
}

/// Whether a change puts the unit's own row unchanged. `units` are all rows of that table.
fn puts_the_same(units: &[UnitRow], change: &RowEdit) -> bool
    ensures { (rows : UnitRows) → rows.units ≡ units.now → IsTrue result
        → changed change.now rows ≡ rows }
{
    match (units, change) {
        ([unit], RowEdit::Put(Row::Unit(row))) => *unit == *row,
        _ => false,
    }
}

/// Leaves the unit's own row out of the changes if it stays the same, for instance at the moment of the call before.
fn leave_out_same(part: &Option<UnitPart>, changes: &mut List<RowEdit>)
    ensures { (rows : UnitRows) → IfSome part.now (λ part. rows.units ≡ part.rows.units)
        → changed_by changes.new rows ≡ changed_by changes.old rows }
{
    let (Some(part), Some(first)) = (part, changes.as_slice().first()) else {
        return;
    };
    if puts_the_same(part.rows.units.as_slice(), first) {
        drop(changes.remove_at(0));
    }
}

/// Gives the proof the invariant of `Matrix`: the matrix of a request is an ordered one. Checks nothing at run time.
fn note_matrix(request: &Request)
    ensures { has_matrix request.now ≡ true }
{
    match request {
        Request::OpenUnit { matrix, .. } => {
            let _cells = matrix.cells();
        }
        Request::Propose { proposal, .. } => note_proposed(&proposal.kind),
        _ => {}
    }
}

/// The same for a proposal's matrix.
fn note_proposed(kind: &ChangeKind)
    ensures { is_matrix_kind kind.now ≡ true }
{
    if let ChangeKind::Matrix(matrix) = kind {
        let _cells = matrix.cells();
    }
}

/// Which faults were returned as answers.
#[derive(Clone, Copy, Debug, PartialEq, Eq)]
pub struct Faults {
    pub memory: bool,
    pub store: bool,
}

/// No fault.
pub const NO_FAULTS: Faults = Faults {
    memory: false,
    store: false,
};

/// These faults, with that of a call if it was answered by one.
fn noted(faults: Faults, outcome: &Result<Result<Reply, Refused>, Fault>) -> Faults
    ensures { result ≡ spec.noted faults (answer_as outcome.now ∷ []) }
{
    match outcome {
        Ok(_) => faults,
        Err(Fault::Memory) => Faults {
            memory: true,
            ..faults
        },
        Err(Fault::Store) => Faults {
            store: true,
            ..faults
        },
    }
}

/// The office over the books that keep its units.
pub struct Office<B: Books> {
    books: B,
    faults: Faults,
    alloc: Global,
}

impl<B: Books> Office<B> {
    /// The office over these books, which stay as they are.
    pub fn new(alloc: Global, books: B) -> Office<B>
        ensures books { result.books ≡ books }
        ensures faults { result.faults ≡ spec.no_faults }
    {
        Office {
            books,
            faults: NO_FAULTS,
            alloc,
        }
    }

    /// The books, as the office left them.
    pub fn into_books(self) -> B
        ensures { result ≡ self.books }
    {
        let Office {
            books,
            faults: _,
            alloc: _,
        } = self;
        books
    }

    /// Which faults were returned as answers since this was last called.
    pub fn take_faults(&mut self) -> Faults
        ensures faults { result ≡ self.old.faults }
        ensures none { self.new.faults ≡ spec.no_faults }
        ensures books { self.new.books ≡ self.old.books }
    {
        let faults = self.faults;
        self.faults = NO_FAULTS;
        faults
    }

    /// Whether a failure has shut the store behind the books. The books are then never honest again. Does not access
    /// the store, and takes no memory.
    pub fn is_shut(&self) -> bool
        ensures { IsTrue result → ¬ B.is_honest self.now.books }
    {
        self.books.is_shut()
    }

    fn lines(&self, units: List<MineUnit>) -> Result<List<UnitLine>, Fault>
        ensures value { IfOk result (λ lines. lines ≡ map line_of_mine units) }
        ensures err { OnlyMemory result }
    {
        let mut lines = List::new(self.alloc);
        for mine in units.into_vec() {
            let MineUnit {
                unit,
                roles,
                last: _,
            } = mine;
            lines.push(UnitLine { unit, roles })?;
        }
        Ok(lines)
    }

    fn my_units(&mut self, call: &Call) -> Result<Result<Reply, Refused>, Fault>
        requires { call.now.request ≡ MyUnits }
        ensures serves { Serves B.Books call.now result self.old.books self.new.books }
    {
        note_matrix(&call.request);
        let now = call.moment;
        let units = self.books.mine_units(&call.person, now)?;
        let last = latest(now, units.as_slice());
        if now.seconds() < last.seconds() {
            Ok(Err(Refused::MomentBehind(last)))
        } else {
            Ok(Ok(Reply::Units(self.lines(units)?)))
        }
    }

    fn my_shelves(&mut self, call: &Call) -> Result<Result<Reply, Refused>, Fault>
        requires { call.now.request ≡ MyShelves }
        ensures serves { Serves B.Books call.now result self.old.books self.new.books }
    {
        note_matrix(&call.request);
        let now = call.moment;
        let units = self.books.mine_units(&call.person, now)?;
        let last = latest(now, units.as_slice());
        if last.seconds() > now.seconds() {
            return Ok(Err(Refused::MomentBehind(last)));
        }
        let shelves = self.books.mine_shelves(&call.person, now)?;
        let lines = shelf_lines(self.alloc, shelves, now)?;
        let person = call.person.copy(self.alloc)?;
        Ok(Ok(Reply::Mine {
            person,
            at: now,
            lines,
        }))
    }

    /// Serves a call on a unit from the part of its rows that the books returned.
    fn serve_part(
        &mut self,
        unit: &UnitCode,
        part: &mut Option<UnitPart>,
        call: &Call,
    ) -> Result<Result<Reply, Refused>, Fault>
        requires named { unit_named call.now.request ≡ Some unit.now }
        requires plain { is_opening call.now.request ≡ false }
        ensures serves { (before : B) → HaveRead B.Books before self.old.books call.now part.old
            → Serves B.Books call.now result before self.new.books }
    {
        note_matrix(&call.request);
        match judge_taking(self.alloc, part, call)? {
            Verdict::Refused(refused) => Ok(Err(refused)),
            Verdict::Accepted(reply, mut changes) => {
                if is_read(&call.request) {
                    return Ok(Ok(reply));
                }
                leave_out_same(part, &mut changes);
                reply_if_made(self.books.carry_out(unit, changes, rows_in(part)), reply)
            }
        }
    }

    /// Serves a call on a unit. It owns the part of the unit's rows, and returns at few places: the prover treats the
    /// whole part at each of them.
    fn serve_unit(&mut self, unit: &UnitCode, call: &Call) -> Result<Result<Reply, Refused>, Fault>
        requires named { unit_named call.now.request ≡ Some unit.now }
        requires plain { is_opening call.now.request ≡ false }
        ensures serves { Serves B.Books call.now result self.old.books self.new.books }
    {
        let mut part = self.books.part(call)?;
        self.serve_part(unit, &mut part, call)
    }

    fn serve_opening(
        &mut self,
        unit: &UnitCode,
        call: &Call,
    ) -> Result<Result<Reply, Refused>, Fault>
        requires named { unit_named call.now.request ≡ Some unit.now }
        requires opening { is_opening call.now.request ≡ true }
        ensures serves { Serves B.Books call.now result self.old.books self.new.books }
    {
        note_matrix(&call.request);
        let taken = self.books.taken(unit)?;
        match judge_open(self.alloc, self.books.administrator(), taken, call)? {
            Verdict::Refused(refused) => Ok(Err(refused)),
            Verdict::Accepted(reply, changes) => {
                reply_if_made(self.books.carry_out(unit, changes, None), reply)
            }
        }
    }

    fn serve_call(&mut self, call: &Call) -> Result<Result<Reply, Refused>, Fault>
        ensures serves { Serves B.Books call.now result self.old.books self.new.books }
    {
        match &call.request {
            Request::MyUnits => self.my_units(call),
            Request::MyShelves => self.my_shelves(call),
            Request::OpenUnit { unit, .. } => self.serve_opening(unit, call),
            // Each other request names a unit.
            request => self.serve_unit(request.unit().unwrap(), call),
        }
    }

    /// Serves a call if the store behind the books is open. Whatever is answered but a fault was answered while it was.
    fn serve_open(&mut self, call: &Call) -> Result<Result<Reply, Refused>, Fault>
        ensures serves { Serves B.Books call.now result self.old.books self.new.books }
        ensures open { OnOk result (B.is_clean self.new.books → B.is_honest self.new.books) }
    {
        self.books.ensure_open()?;
        self.serve_call(call)
    }

    /// Answers a call as the world of the units' histories answers it.
    ///
    /// The clauses ask only that the disk returned what was written: once a failure has shut the store, every answer is a
    /// fault. The headline is the clause `isolated`. Take any other office of the same administrator that looks the same to
    /// the caller at the call's moment. It would give the same answer, if this one is not a fault, and the units in
    /// which the caller holds a role before or after the call would have the same rows there. A fault leaves the books
    /// as they were, and so do a refusal and a reply to a read, whatever the books hold.
    ///
    /// The clause `endures` is about a crash, at this moment or at any before it: the next start finds the books before
    /// the call, or those with the call; after a reply to a call that changes something only the latter, and after any
    /// other reply or a refusal only the former. After a fault the caller does not know.
    pub fn serve(&mut self, call: &Call) -> Answer
        ensures served { (m : Content) → B.represents self.old.books m → (w : World)
            → IsLegalWorld w → Holds m w → B.is_clean self.new.books
            → IfSaid result (λ a. IsServed w call.now a (B.represents self.new.books)) }
        ensures isolated { (m : Content) → B.represents self.old.books m → (w v : World)
            → IsLegalWorld w → Holds m w → w.admin ≡ v.admin
            → view call.now.moment call.now.person w ≡ view call.now.moment call.now.person v
            → B.is_clean self.new.books
            → IfSaid result (λ a. IsIsolated v call.now a (B.represents self.new.books)) }
        ensures honest { WasHonest B.is_honest self.old.books self.new.books }
        ensures unchanged { (m : Content) → B.represents self.old.books m
            → IfSaid result (λ a. changes_history a call.now ≡ false
            → B.represents self.new.books m) }
        ensures fault { (m : Content) → B.represents self.old.books m
            → OnFault result (B.represents self.new.books m) }
        ensures count { CountsAnswer (B.stores self.old.books) (B.stores self.new.books) result }
        ensures endures { EnduresSettled call.now result
            (books_state B.Books self.old.books) (books_state B.Books self.new.books) }
        ensures faults { self.new.faults ≡ spec.noted self.old.faults (result ∷ []) }
    {
        let faults = self.faults;
        let outcome = self.serve_open(call);
        // Gives the proof what a crash leaves now. Does nothing at run time.
        self.books.settle();
        self.faults = noted(faults, &outcome);
        answer_of(outcome)
    }

    /// Answers the calls in their order, each as `serve` does. Room for all answers is made first: the only error is
    /// out of memory, and then no call was made. A fault, a refusal and a reply to a read leave the books as they were,
    /// call by call and whatever the books hold. A crash leaves the books with all calls that were confirmed, or with
    /// these and one that was answered by a fault after which none was confirmed. If a failure shuts the store
    /// meanwhile, all later answers are faults.
    pub fn run(&mut self, calls: &[Call]) -> Result<Vec<Answer>, Fault>
        ensures ran { (m : Content) → B.represents self.old.books m → (w : World)
            → IsLegalWorld w → Holds m w
            → B.is_clean self.new.books
            → IfOk result (λ answers.
            IsRun w calls.now answers.items (B.represents self.new.books)) }
        ensures unchanged { (m : Content) → B.represents self.old.books m
            → IfOk result (λ answers. AllChangeNothing calls.now answers.items
            → B.represents self.new.books m) }
        ensures kept { IfOk result (λ answers. EachKeepsUnchanged B.represents
            calls.now answers.items self.old.books self.new.books) }
        ensures endures { IfOk result (λ answers. EnduresAll
            (books_state B.Books self.old.books) (books_state B.Books self.new.books)
            calls.now answers.items) }
        ensures honest { WasHonest B.is_honest self.old.books self.new.books }
        ensures count { B.stores self.old.books + length calls.now < 2 ^ 64
            → IfOk result (λ answers. B.stores self.new.books
            ≡ B.stores self.old.books + stores_in answers.items) }
        ensures fault { OnErr result (self.new ≡ self.old) }
        ensures memory { OnlyMemory result }
    {
        let mut answers = Vec::with_capacity(self.alloc, calls.len())?;
        for call in calls {
            let answer = self.serve(call);
            push_answer(&mut answers, answer);
        }
        Ok(answers)
    }
}

/// Appends an answer, for which room was made.
fn push_answer(answers: &mut Vec<Answer>, answer: Answer)
    requires { vec_len answers.old < vec_capacity answers.old }
    ensures items { answers.new.items ≡ answers.old.items ++ answer ∷ [] }
    ensures room { vec_capacity answers.old ≤ vec_capacity answers.new }
{
    answers.push(answer).unwrap();
}

/// The reply if the changes were made, else the fault.
fn reply_if_made(outcome: Result<(), Fault>, reply: Reply) -> Result<Result<Reply, Refused>, Fault>
    ensures { result ≡ reply_or_fault outcome reply }
{
    match outcome {
        Ok(()) => Ok(Ok(reply)),
        Err(fault) => {
            drop(reply);
            Err(fault)
        }
    }
}

/// The reply, the refusal or the fault as an answer.
fn answer_of(outcome: Result<Result<Reply, Refused>, Fault>) -> Answer
    ensures { result ≡ answer_as outcome }
{
    match outcome {
        Ok(Ok(reply)) => Answer::Reply(reply),
        Ok(Err(refused)) => Answer::Refused(refused),
        Err(fault) => Answer::Fault(fault),
    }
}

/// The latest of a moment and the units' last moments.
fn latest(now: Moment, units: &[MineUnit]) -> Moment
    ensures { result ≡ fold max now (map (λ unit. unit.last) units.now) }
{
    let mut latest = now;
    for unit in units {
        if latest.seconds() < unit.last.seconds() {
            latest = unit.last;
        }
    }
    latest
}

/// The line of a shelf with its unit. `None` if the shelf has ended: its time has passed, or it was a one-shot shelf
/// and its alarm has returned to normal.
fn mine_line(mine: MineRow, now: Moment) -> Option<MineLine>
    ensures { result ≡ line_of_shelf now mine }
{
    let MineRow {
        unit,
        shelf,
        last_return,
    } = mine;
    let line = shelf_line(shelf, last_return, now)?;
    Some(MineLine { unit, line })
}

/// The lines of the shelves that have not ended at the moment.
fn shelf_lines(alloc: Global, shelves: List<MineRow>, now: Moment) -> Result<List<MineLine>, Fault>
    ensures value { IfOk result (λ lines. lines ≡ filter_map (line_of_shelf now) shelves) }
    ensures err { OnlyMemory result }
{
    let mut lines = List::new(alloc);
    for mine in shelves.into_vec() {
        if let Some(line) = mine_line(mine, now) {
            lines.push(line)?;
        }
    }
    Ok(lines)
}
