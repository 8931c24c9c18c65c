//! Cells, their fields and the roots, and what one step of a call does to them.
ghost use Rattle.std.specs.Prelude.{◌≡◌, ◌≢◌, true, false, ◌==◌, ◌<◌, ◌≤◌, ℕ, Option, Some, length, slice_get};
ghost use Rattle.std.specs.Prelude.{if◌then◌else◌, IfOk, IfErr};
ghost use Rattle.epoch_cells.specs.declared.fault.Fault.TheVariants.{NoMemory};
ghost use Rattle.epoch_cells.specs.PlainCells.{empty, readable, unread};
ghost use Rattle.epoch_laws.specs.declared.heap.access.Accessed.TheVariants.{Answers};
ghost use Rattle.epoch_laws.specs.Heap.{Cell, aligned, tagged, pointer_at, with_field, with_pointer, null, cell_at};
ghost use Rattle.epoch_laws.specs.Heap.{at_name, read_by, left_by, written_by, taken_by, updated_by, is_stop, has_spot};
ghost use Rattle.epoch_laws.specs.Heap.{knows_spot, knows_change, was_given, is_known, is_removable, has_place};
ghost use Rattle.epoch_laws.specs.Heap.{knows_names, outcome_of, heap_after_job, touched, replaced, Places, Changes};
ghost use Rattle.epoch_laws.specs.Heap.{ChangesAt, Touches, is_name, AccessFits, GoesOnWithin};

use crate::heap::access::{Access, AccessAnswer, Accessed, Change, Ptr, Spot, Update};
use epoch_bags::Called;
use epoch_cells::{Fault, Name, PlainCells, Removal};
use std::alloc::Global;
use std::marker::Model;

/// How many pointer fields a cell has room for.
const FIELDS: usize = 16;

/// No cell, and no tag.
const NULL: Ptr = Ptr { name: None, tag: 0 };

/// What a cell holds: its value and its pointers. Those past the fields that a cell has are null.
#[derive(Clone, Copy)]
pub struct Content {
    pub value: u64,
    pub fields: [Ptr; 16],
}

/// The cells and the roots.
#[derive(Drop)]
pub struct Heap {
    roots: Vec<Ptr>,
    cells: PlainCells<Content>,
    fields: u64,
    align: u64,
    start_turn: u32,
}

impl Model for Heap {
    ghost use Rattle.std.specs.Prelude.{◌<◌};
    ghost use Rattle.epoch_laws.specs.Heap.{Heap};

    ghost Value = { Heap };

    ghost view = { λ a. record {
      roots = a.roots.items;
      cells = a.cells;
      fields = a.fields;
      align = a.align;
      start_turn = a.start_turn;
    } };

    ghost invariant = { λ a. 0 < a.align };
}

impl Heap {
    /// Makes a heap of `roots` roots, all null, and `cells` cells, all free, each of which begins at `start_turn`.
    ///
    /// `NoMemory`: an allocation was refused, and nothing was made.
    pub fn new(
        alloc: Global,
        roots: usize,
        cells: u32,
        fields: u64,
        align: u64,
        start_turn: u32,
    ) -> Result<Heap, Fault>
        requires cells { cells ≤ 4096 }
        requires align { 0 < align }
        ensures roots { IfOk result (λ heap. length heap.roots ≡ roots) }
        ensures cells { IfOk result (λ heap. length heap.cells ≡ cells) }
        ensures fields { IfOk result (λ heap. heap.fields ≡ fields) }
        ensures align { IfOk result (λ heap. heap.align ≡ align) }
        ensures start_turn { IfOk result (λ heap. heap.start_turn ≡ start_turn) }
        // A new heap has null roots and free cells, each for the first turn.
        ensures null_roots { IfOk result
            (λ heap. (i : ℕ) (ptr : Ptr) → slice_get heap.roots i ≡ Some ptr → ptr ≡ null) }
        ensures empty_cells { IfOk result
            (λ heap. (k : ℕ) (cell : Cell) → slice_get heap.cells k ≡ Some cell → cell ≡ empty start_turn) }
        ensures no_memory { IfErr result (λ fault. fault ≡ NoMemory) }
    {
        Ok(Heap {
            roots: null_roots(alloc, roots)?,
            cells: PlainCells::new(alloc, cells, start_turn)?,
            fields,
            align,
            start_turn,
        })
    }

    /// Returns how many slots there are.
    pub fn slots(&self) -> usize
        ensures value { result ≡ length self.now.cells }
        ensures within { result ≤ 16777215 }
    {
        self.cells.capacity()
    }

    /// Calls a job, the removal of this name or work, and returns what that did.
    ///
    /// The removal of a cell that no participant reads empties the cell, for its next turn. The removal of a cell that
    /// is read, or that is gone, changes nothing, and work changes nothing.
    pub fn call_job(&mut self, removes: Option<Name>) -> Called
        // The call of a removal empties a cell that no participant reads, for its next turn. If the cell is being read
        // or is gone, the call says `HeldElsewhere` or `Gone`, and changes nothing. The call of work changes nothing.
        ensures outcome { result ≡ outcome_of self.old removes }
        ensures after { self.new ≡ heap_after_job self.old removes }
    {
        match removes {
            None => Called::Ran,
            Some(name) => match self.cells.remove(name) {
                Removal::Destroyed => Called::Destroyed,
                Removal::HeldElsewhere => Called::HeldElsewhere,
                Removal::Gone => Called::Gone,
            },
        }
    }

    /// Takes one step of a call that has made `made` steps, and found this pointer last. It takes no memory.
    ///
    /// A cell that is being read isn't written or taken, and a name whose cell is gone is answered `Absent`. An
    /// exchange writes exactly if name and tag are those expected, each tag taken modulo the alignment.
    pub fn touch(&mut self, access: Access, made: u64, found: Ptr) -> Accessed
        requires { AccessFits access made }
        // Each step does exactly what the definition says. By that definition, an exchange writes exactly when name and
        // tag are those of `current`. Otherwise it changes nothing, and returns the pointer that is there. By that
        // definition, `and`, `or` and `xor` change only the tag. By that definition, an update calls its function at
        // most as often as it has tries. By that definition, a cell that is being read isn't written or taken.
        ensures step { Touches access made found self.old (touched result self.new) }
        ensures within { GoesOnWithin access made result }
    {
        match access {
            Access::Place(value) => self.place(value, made, found),
            Access::Read(_, ptr) => Accessed::Answers(self.read(ptr.name)),
            Access::Leave(ptr) => Accessed::Answers(self.leave(ptr.name)),
            Access::Write(_, ptr, value) => Accessed::Answers(self.write(ptr.name, value)),
            Access::Take(_, ptr) => Accessed::Answers(self.take(ptr.name)),
            Access::Point(_, spot, change) => self.point(spot, change, made, found),
        }
    }

    /// Looks at one slot: it takes the value, or is used or retired.
    fn place(&mut self, value: u64, made: u64, found: Ptr) -> Accessed
        ensures step { Places value made found self.old (slice_get self.old.cells made) (touched result self.new) }
        ensures within { (again : Ptr) → result ≡ Accessed.Again again → made < 4294967296 }
    {
        if made >= self.cells.capacity() as u64 {
            return Accessed::NoSlot;
        }
        let content = Content {
            value,
            fields: [NULL; FIELDS],
        };
        match self.cells.place_at(made as u32 + 1, content) {
            Ok(name) => Accessed::Answers(AccessAnswer::Name(name)),
            Err(_) => Accessed::Again(found),
        }
    }

    fn read(&mut self, name: Option<Name>) -> AccessAnswer
        ensures { touched (Answers result) self.new
            ≡ at_name (λ n. read_by self.old n (cell_at self.old n) (readable (cell_at self.old n))) self.old name }
    {
        let Some(name) = name else {
            return AccessAnswer::Absent;
        };
        match self.cells.read(name) {
            Some(content) => AccessAnswer::Value(content.value),
            None => AccessAnswer::Absent,
        }
    }

    fn leave(&mut self, name: Option<Name>) -> AccessAnswer
        ensures { touched (Answers result) self.new
            ≡ at_name (λ n. left_by self.old n (cell_at self.old n)) self.old name }
    {
        let Some(name) = name else {
            return AccessAnswer::Absent;
        };
        self.cells.leave(name);
        AccessAnswer::Unit
    }

    fn write(&mut self, name: Option<Name>, value: u64) -> AccessAnswer
        ensures { touched (Answers result) self.new
            ≡ at_name (λ n. written_by self.old n value (unread (cell_at self.old n))) self.old name }
    {
        let Some(name) = name else {
            return AccessAnswer::Absent;
        };
        let Some(before) = self.cells.get(name) else {
            return AccessAnswer::Absent;
        };
        let content = Content {
            value,
            fields: before.fields,
        };
        match self.cells.write(name, content) {
            Ok(_) => AccessAnswer::Unit,
            Err(_) => AccessAnswer::Absent,
        }
    }

    fn take(&mut self, name: Option<Name>) -> AccessAnswer
        ensures { touched (Answers result) self.new
            ≡ at_name (λ n. taken_by self.old n (unread (cell_at self.old n))) self.old name }
    {
        let Some(name) = name else {
            return AccessAnswer::Absent;
        };
        match self.cells.take(name) {
            Some(content) => AccessAnswer::Value(content.value),
            None => AccessAnswer::Absent,
        }
    }

    /// One step on the pointer at this spot.
    fn point(&mut self, spot: Spot, change: Change, made: u64, found: Ptr) -> Accessed
        requires { (guard : Option ℕ) → AccessFits (Access.Point guard spot change) made }
        ensures step { ChangesAt change made found spot self.old (pointer_at self.old spot) (touched result self.new) }
        ensures within { (guard : Option ℕ) → GoesOnWithin (Access.Point guard spot change) made result }
    {
        let Some(ptr) = self.load(spot) else {
            return Accessed::Answers(AccessAnswer::Absent);
        };
        match change {
            Change::Load => Accessed::Answers(AccessAnswer::Pointer(ptr)),
            Change::Store(other) => {
                self.store(spot, self.aligned(other));
                Accessed::Answers(AccessAnswer::Unit)
            }
            Change::Swap(other) => {
                self.store(spot, self.aligned(other));
                Accessed::Answers(AccessAnswer::Pointer(ptr))
            }
            Change::CompareExchange(current, other) => {
                if !is_same(ptr, self.aligned(current)) {
                    return Accessed::Answers(AccessAnswer::Unchanged(ptr));
                }
                let written = self.aligned(other);
                self.store(spot, written);
                Accessed::Answers(AccessAnswer::Exchanged(written))
            }
            Change::FetchAnd(bits) => self.retag(spot, ptr, ptr.tag & bits),
            Change::FetchOr(bits) => self.retag(spot, ptr, ptr.tag | bits),
            Change::FetchXor(bits) => self.retag(spot, ptr, ptr.tag ^ bits),
            Change::FetchUpdate(tries, update) => {
                self.update(spot, ptr, tries, update, made, found)
            }
        }
    }

    /// Gives the pointer at this spot another tag.
    fn retag(&mut self, spot: Spot, ptr: Ptr, tag: u64) -> Accessed
        ensures { touched result self.new
            ≡ replaced self.old spot (tagged self.old ptr tag) (AccessAnswer.Pointer ptr) }
    {
        self.store(spot, self.tagged(ptr, tag));
        Accessed::Answers(AccessAnswer::Pointer(ptr))
    }

    /// One step of an update: it loads, or exchanges what it found for what the function answers.
    fn update(
        &mut self,
        spot: Spot,
        ptr: Ptr,
        tries: u64,
        update: Update,
        made: u64,
        found: Ptr,
    ) -> Accessed
        requires { made ≤ tries }
        ensures step { Changes (Change.FetchUpdate tries update) made found ptr spot self.old
            (touched result self.new) }
        ensures within { (again : Ptr) → result ≡ Accessed.Again again → made < tries }
    {
        if made == 0 {
            return begun_update(ptr, tries, update);
        }
        if is_same(ptr, found) {
            self.store(spot, self.aligned(updated_by(update, ptr)));
            return Accessed::Answers(AccessAnswer::Updated(ptr));
        }
        if made == tries {
            Accessed::Answers(AccessAnswer::RanOut(ptr))
        } else {
            Accessed::Again(ptr)
        }
    }

    fn tagged(&self, ptr: Ptr, tag: u64) -> Ptr
        ensures { result ≡ tagged self.now ptr tag }
    {
        Ptr {
            name: ptr.name,
            tag: tag % self.align,
        }
    }

    fn aligned(&self, ptr: Ptr) -> Ptr
        ensures { result ≡ aligned self.now ptr }
    {
        self.tagged(ptr, ptr.tag)
    }

    /// The pointer at this spot, or `None` where there is no such root, field or cell.
    fn load(&self, spot: Spot) -> Option<Ptr>
        ensures { result ≡ pointer_at self.now spot }
    {
        match spot {
            Spot::Root(root) => self.roots.get(root as usize).copied(),
            Spot::Field(name, field) => match self.cells.get(name) {
                Some(content) => content.fields.get(field as usize).copied(),
                None => None,
            },
        }
    }

    /// Writes the pointer at this spot, if there is one.
    fn store(&mut self, spot: Spot, ptr: Ptr)
        ensures { self.new ≡ with_pointer self.old spot ptr }
    {
        match spot {
            Spot::Root(root) => {
                let index = root as usize;
                if index < self.roots.len() {
                    self.roots[index] = ptr;
                }
            }
            Spot::Field(name, field) => {
                if let Some(before) = self.cells.get(name) {
                    let content = with_field(*before, field as usize, ptr);
                    self.cells.amend(name, content);
                }
            }
        }
    }

    /// Returns whether there is such a root or field.
    pub fn has_place(&self, access: Access) -> bool
        // Three calls tell whether roots, fields and names are there: whether there is such a root or field, whether
        // each name in a call was given, and whether a pointer has a name that was given.
        ensures { result ≡ has_place self.now access }
    {
        match access {
            Access::Point(_, Spot::Root(root), _) => root < self.roots.len() as u64,
            Access::Point(_, Spot::Field(_, field), _) => field < self.fields,
            _ => true,
        }
    }

    /// Returns whether each name that the call is given was given before.
    pub fn knows_names(&self, access: Access) -> bool
        ensures { result ≡ knows_names self.now access }
    {
        match access {
            Access::Place(_) => true,
            Access::Read(_, ptr) | Access::Leave(ptr) => self.is_known(ptr.name),
            Access::Write(_, ptr, _) | Access::Take(_, ptr) => self.is_known(ptr.name),
            Access::Point(_, spot, change) => self.knows_spot(spot) && self.knows_change(change),
        }
    }

    fn knows_spot(&self, spot: Spot) -> bool
        ensures { result ≡ knows_spot self.now spot }
    {
        match spot {
            Spot::Root(_) => true,
            Spot::Field(name, _) => self.was_given(name),
        }
    }

    fn knows_change(&self, change: Change) -> bool
        ensures { result ≡ knows_change self.now change }
    {
        match change {
            Change::Store(other) | Change::Swap(other) => self.is_known(other.name),
            Change::CompareExchange(current, other) => {
                self.is_known(current.name) && self.is_known(other.name)
            }
            Change::FetchUpdate(_, Update::To(other)) => self.is_known(other.name),
            _ => true,
        }
    }

    /// Whether it is null, or a name that was given.
    fn is_known(&self, name: Option<Name>) -> bool
        ensures { result ≡ is_known self.now name }
    {
        match name {
            Some(name) => self.was_given(name),
            None => true,
        }
    }

    /// Returns whether it is a name that was given.
    pub fn is_removable(&self, name: Option<Name>) -> bool
        ensures { result ≡ is_removable self.now name }
    {
        match name {
            Some(name) => self.was_given(name),
            None => false,
        }
    }

    fn was_given(&self, name: Name) -> bool
        ensures { result ≡ was_given self.now name }
    {
        match self.cells.turn_at(name.slot()) {
            Some(turn) => {
                let past = (name.turn() as u64) < turn;
                self.start_turn <= name.turn() && (past || self.cells.get(name).is_some())
            }
            None => false,
        }
    }
}

fn is_same(one: Ptr, other: Ptr) -> bool
    ensures same { result ≡ true → one ≡ other }
    ensures differs { result ≡ false → one ≢ other }
{
    one.tag == other.tag && is_same_name(one.name, other.name)
}

fn is_same_name(one: Option<Name>, other: Option<Name>) -> bool
    ensures same { result ≡ true → one ≡ other }
    ensures differs { result ≡ false → one ≢ other }
{
    match (one, other) {
        (None, None) => true,
        (Some(one), Some(other)) => is_same_one(one, other),
        _ => false,
    }
}

fn is_same_one(one: Name, other: Name) -> bool
    ensures same { result ≡ true → one ≡ other }
    ensures differs { result ≡ false → one ≢ other }
{
    one.slot() == other.slot() && one.turn() == other.turn()
}

/// Returns whether the two names are the same.
pub fn is_name(one: Name, other: Name) -> bool
    ensures { result ≡ is_name one other }
{
    one.slot() == other.slot() && one.turn() == other.turn()
}

/// The content with this pointer in a field, if there is such a field.
fn with_field(content: Content, field: usize, ptr: Ptr) -> Content
    ensures { result ≡ with_field content field ptr }
{
    let mut content = content;
    if field < FIELDS {
        content.fields[field] = ptr;
    }
    content
}

/// The first step of an update.
fn begun_update(ptr: Ptr, tries: u64, update: Update) -> Accessed
    ensures { result ≡ (if tries == 0 then Answers (AccessAnswer.RanOut ptr)
        else (if is_stop update then Answers (AccessAnswer.Stopped ptr) else Accessed.Again ptr)) }
{
    if tries == 0 {
        return Accessed::Answers(AccessAnswer::RanOut(ptr));
    }
    match update {
        Update::Stop => Accessed::Answers(AccessAnswer::Stopped(ptr)),
        _ => Accessed::Again(ptr),
    }
}

fn updated_by(update: Update, ptr: Ptr) -> Ptr
    ensures { result ≡ updated_by update ptr }
{
    match update {
        Update::Tag(tag) => Ptr {
            name: ptr.name,
            tag,
        },
        Update::To(other) => other,
        Update::Stop => ptr,
    }
}

fn null_roots(alloc: Global, count: usize) -> Result<Vec<Ptr>, Fault>
    ensures count { IfOk result (λ roots. length roots.items ≡ count) }
    ensures null { IfOk result (λ roots. (i : ℕ) (ptr : Ptr) → slice_get roots.items i ≡ Some ptr → ptr ≡ null) }
    ensures no_memory { IfErr result (λ fault. fault ≡ NoMemory) }
{
    let Ok(mut roots) = Vec::with_capacity(alloc, count) else {
        return Err(Fault::NoMemory);
    };
    for _ in 0..count {
        roots.push_reserved(NULL);
    }
    Ok(roots)
}
