//! An index of a map's ranges by slots.

ghost use Rattle.std.specs.Prelude.{◌≡◌, [], IfOk, slice_get};
ghost use Rattle.resp_cluster.specs.SlotIndexes.{Enters, IsIndex};

use crate::node::SlotRange;
use std::alloc::{AllocError, Global};
use std::marker::Model;

/// How many slots a cluster has.
const SLOTS: usize = 16384;

/// For each slot the distance of the first range that has it from the end of the list of ranges, and
/// 0 where none has it: distances stay the same when a range is put before all others.
///
/// Without entries it says nothing, and slots are searched.
#[derive(Drop)]
pub(crate) struct SlotIndex {
    distances: Vec<u16>,
}

impl Model for SlotIndex {
    ghost use Rattle.std.specs.Prelude.{List, ℕ};

    ghost Value = { List ℕ };

    ghost view = { λ index. index.distances.items };
}

impl SlotIndex {
    /// One without entries. Takes no memory.
    pub(crate) fn new(alloc: Global) -> SlotIndex
        ensures { result ≡ [] }
    {
        SlotIndex {
            distances: Vec::new(alloc),
        }
    }

    /// The index of these ranges. Fails only when out of memory.
    pub(crate) fn of(alloc: Global, ranges: &[SlotRange]) -> Result<SlotIndex, AllocError>
        ensures { IfOk result (IsIndex ranges.now) }
    {
        let mut index = SlotIndex {
            distances: zeros(alloc)?,
        };
        let mut place = ranges.len();
        while place > 0 {
            place -= 1;
            index.enter(&ranges[place], ranges.len() - place);
        }
        Ok(index)
    }

    /// Enters the slots of a range that stands before all ranges entered so far, at this distance
    /// from the end. A distance above 65535 has no entry: the index then loses all.
    pub(crate) fn enter(&mut self, range: &SlotRange, distance: usize)
        ensures { Enters range.now distance self.old self.new }
    {
        match u16::try_from(distance) {
            Ok(distance) => enter(self.distances.as_mut_slice(), range, distance),
            Err(_) => self.distances.clear(),
        }
    }

    /// The entry of a slot.
    pub(crate) fn distance(&self, slot: u16) -> Option<usize>
        ensures { result ≡ slice_get self.now slot }
    {
        match self.distances.get(usize::from(slot)) {
            Some(distance) => Some(usize::from(*distance)),
            None => None,
        }
    }
}

/// The entries where no range has a slot.
fn zeros(alloc: Global) -> Result<Vec<u16>, AllocError>
    ensures { IfOk result (λ entries. IsIndex [] entries.items) }
{
    let mut entries = Vec::with_capacity(alloc, SLOTS)?;
    for _ in 0..SLOTS {
        entries.push(0)?;
    }
    Ok(entries)
}

/// Sets the entries of a range's slots.
fn enter(entries: &mut [u16], range: &SlotRange, distance: u16)
    ensures { Enters range.now distance entries.old entries.new }
{
    let end = entries.len().min(usize::from(range.last) + 1);
    for slot in usize::from(range.first)..end {
        entries[slot] = distance;
    }
}
