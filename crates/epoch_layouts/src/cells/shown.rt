//! What a picture shows of cells.

use crate::cells::run::{CallsUnderWay, answer_after};
use crate::cells::{FilledCell, FilledCells};
use epoch_cells::Name;
use epoch_laws::{Entry, Spot};
use std::alloc::{AllocError, Global};

/// One thing to be shown of a cell.
#[derive(Clone, Copy, Debug, PartialEq, Eq)]
pub enum CellLook {
    /// It holds this value, and whether a path of pointers leads to it from a root.
    Holds(u64, bool),
    /// There is a pointer to it at this spot, and at this many others.
    Pointed(Spot, u64),
    /// The participants whose bits are set read it.
    Read(u64),
}

/// How long a cell looks so.
#[derive(Clone, Copy, Debug)]
pub struct Shown {
    pub name: Name,
    pub look: CellLook,
    /// The step with which it begins.
    pub from: u32,
    /// The step with which it ends, or `None` where the run is over before.
    pub to: Option<u32>,
}

/// What is to be shown of the cells of a run. A step is a number, counted from 0. `AllocError`: an allocation was
/// refused.
///
/// A call on cells and pointers counts from its last step before it ends, which is the one that does it. Where the run
/// is over before the call, what it did isn't known, and isn't shown.
pub fn shown_of(alloc: Global, entries: &[Entry]) -> Result<Vec<Shown>, AllocError> {
    let (mut cells, mut run) = (FilledCells::new(alloc), CallsUnderWay::new(alloc));
    let mut shown = Vec::new(alloc);
    for at in 0..entries.len() {
        if run.step(&mut cells, entries[at], answer_after(entries, at))? {
            show(
                &mut shown,
                cells.all(),
                u32::try_from(at).unwrap_or(u32::MAX),
            )?;
        }
    }
    Ok(shown)
}

/// Ends what isn't so any more at this step, and begins what is so from now on.
fn show(shown: &mut Vec<Shown>, cells: &[FilledCell], at: u32) -> Result<(), AllocError> {
    for old in shown.as_mut_slice() {
        if old.to.is_none() && !looks_so(cells, old.name, old.look) {
            old.to = Some(at);
        }
    }
    for cell in cells {
        for look in looks_of(cell) {
            if let Some(look) = look
                && !is_shown(shown, cell.name, look)
            {
                shown.push(Shown {
                    name: cell.name,
                    look,
                    from: at,
                    to: None,
                })?;
            }
        }
    }
    Ok(())
}

/// All that is to be shown of a cell.
fn looks_of(cell: &FilledCell) -> [Option<CellLook>; 3] {
    let pointed = match cell.pointed {
        Some((first, more)) => Some(CellLook::Pointed(first, more)),
        None => None,
    };
    let read = match cell.readers {
        0 => None,
        readers => Some(CellLook::Read(readers)),
    };
    [
        Some(CellLook::Holds(cell.value, cell.is_reached)),
        pointed,
        read,
    ]
}

/// Whether the cell of this name looks so.
fn looks_so(cells: &[FilledCell], name: Name, look: CellLook) -> bool {
    cells.iter().any(|cell| cell.name == name && looks_of(cell).contains(&Some(look)))
}

/// Whether this is shown already, and goes on.
fn is_shown(shown: &[Shown], name: Name, look: CellLook) -> bool {
    shown.iter().any(|old| old.to.is_none() && old.name == name && old.look == look)
}
