//! The cells of a world and the pointers to them, as far as the answers of its calls tell.

use epoch_cells::Name;
use epoch_laws::{Access, AccessAnswer, Change, Spot, Update};
use std::alloc::{AllocError, Global};

/// A cell that holds a value.
#[derive(Clone, Copy, Debug, PartialEq, Eq)]
pub struct FilledCell {
    pub name: Name,
    pub value: u64,
    /// Whether a path of pointers leads to it from a root.
    pub is_reached: bool,
    /// The first spot with a pointer to it, and how many further ones there are.
    pub pointed: Option<(Spot, u64)>,
    /// The participants that read it: the bit of each position is set.
    pub readers: u64,
}

/// A pointer that isn't null: where it stands, and which cell it names.
#[derive(Clone, Copy)]
struct Pointer {
    at: Spot,
    to: Name,
}

/// All cells that hold values, and all pointers.
#[derive(Drop)]
pub struct FilledCells {
    cells: Vec<FilledCell>,
    pointers: Vec<Pointer>,
}

impl FilledCells {
    /// No cell holds a value, and each pointer is null.
    pub fn new(alloc: Global) -> FilledCells {
        FilledCells {
            cells: Vec::new(alloc),
            pointers: Vec::new(alloc),
        }
    }

    /// The cells that hold values.
    pub fn all(&self) -> &[FilledCell] {
        &self.cells
    }

    /// Does what this access of the participant at this position did, which answered so.
    pub fn access(
        &mut self,
        position: u64,
        access: Access,
        answer: AccessAnswer,
    ) -> Result<(), AllocError> {
        match (access, answer) {
            (Access::Place(value), AccessAnswer::Name(name)) => self.place(name, value)?,
            (Access::Write(_, ptr, value), AccessAnswer::Unit) => self.write(ptr.name, value),
            (Access::Read(_, ptr), AccessAnswer::Value(_)) => self.read(ptr.name, position, true),
            (Access::Leave(ptr), AccessAnswer::Unit) => self.read(ptr.name, position, false),
            (Access::Take(_, ptr), AccessAnswer::Value(_)) => self.remove(ptr.name),
            (Access::Point(_, spot, change), _) => self.point(spot, change, answer)?,
            _ => {}
        }
        Ok(())
    }

    fn place(&mut self, name: Name, value: u64) -> Result<(), AllocError> {
        self.cells.push(FilledCell {
            name,
            value,
            is_reached: false,
            pointed: None,
            readers: 0,
        })?;
        self.trace();
        Ok(())
    }

    /// Empties the cell of this name. Its fields are gone with it.
    pub fn remove(&mut self, name: Option<Name>) {
        self.cells.retain(|cell| Some(cell.name) != name);
        self.pointers
            .retain(|pointer| owner_of(pointer.at) != name || name.is_none());
        self.trace();
    }

    fn write(&mut self, name: Option<Name>, value: u64) {
        for cell in &mut self.cells {
            if Some(cell.name) == name {
                cell.value = value;
            }
        }
    }

    /// The participant at this position begins to read the cell, or ends that.
    fn read(&mut self, name: Option<Name>, position: u64, begins: bool) {
        if position >= 64 {
            return;
        }
        let bit = 1_u64 << position;
        for cell in &mut self.cells {
            if Some(cell.name) == name {
                cell.readers = if begins {
                    cell.readers | bit
                } else {
                    cell.readers & !bit
                };
            }
        }
    }

    /// Does what a call on the pointer at this spot did.
    fn point(
        &mut self,
        spot: Spot,
        change: Change,
        answer: AccessAnswer,
    ) -> Result<(), AllocError> {
        let Some(to) = pointer_written(change, answer) else {
            return Ok(());
        };
        self.pointers.retain(|pointer| pointer.at != spot);
        if let Some(to) = to {
            self.pointers.push(Pointer { at: spot, to })?;
        }
        self.trace();
        Ok(())
    }

    /// Follows all pointers anew, from the roots on. A path has at most as many of them as there are cells.
    fn trace(&mut self) {
        for cell in &mut self.cells {
            cell.is_reached = false;
            cell.pointed = None;
        }
        for pointer in &self.pointers {
            note_pointer(&mut self.cells, *pointer);
        }
        for _ in 0..self.cells.len() {
            let mut goes_on = false;
            for pointer in &self.pointers {
                if starts_reached(&self.cells, *pointer) && reach(&mut self.cells, pointer.to) {
                    goes_on = true;
                }
            }
            if !goes_on {
                break;
            }
        }
    }
}

/// The cell whose field stands here, if it is one.
fn owner_of(spot: Spot) -> Option<Name> {
    match spot {
        Spot::Root(_) => None,
        Spot::Field(name, _) => Some(name),
    }
}

/// The cell that a call's pointer names, where it wrote one that may name another cell.
fn pointer_written(change: Change, answer: AccessAnswer) -> Option<Option<Name>> {
    match (change, answer) {
        (Change::Store(ptr), AccessAnswer::Unit) | (Change::Swap(ptr), AccessAnswer::Pointer(_)) =>
            { Some(ptr.name) }
        (Change::CompareExchange(_, ptr), AccessAnswer::Exchanged(_)) => Some(ptr.name),
        (Change::FetchUpdate(_, Update::To(ptr)), AccessAnswer::Updated(_)) => Some(ptr.name),
        _ => None,
    }
}

/// Notes at its cell that this pointer leads there.
fn note_pointer(cells: &mut [FilledCell], pointer: Pointer) {
    for cell in cells {
        if cell.name == pointer.to {
            cell.pointed = match cell.pointed {
                Some((first, more)) => Some((first, more.saturating_add(1))),
                None => Some((pointer.at, 0)),
            };
        }
    }
}

/// Whether a pointer stands in a root, or in a cell that is reached.
fn starts_reached(cells: &[FilledCell], pointer: Pointer) -> bool {
    match owner_of(pointer.at) {
        Some(name) => cells
            .iter()
            .any(|cell| cell.name == name && cell.is_reached),
        None => true,
    }
}

/// Notes that this cell is reached, and says whether that is new.
fn reach(cells: &mut [FilledCell], name: Name) -> bool {
    let mut is_new = false;
    for cell in cells {
        if cell.name == name && !cell.is_reached {
            cell.is_reached = true;
            is_new = true;
        }
    }
    is_new
}
