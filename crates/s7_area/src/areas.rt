//! Areas by their names, and the guard that protects them.
ghost use Rattle.std.specs.Prelude.{◌≡◌, ◌≢◌, ◌≤◌, ◌++◌, [], None, false, length, drop, IfOk, IfErr, IfSome, IfNone};
ghost use Rattle.std.specs.Prelude.{OnErr, MatchResult, option_map};
ghost use Rattle.std.specs.Option.{option_copied};
ghost use Rattle.std.specs.Result.{result_ok};
ghost use Rattle.std.specs.Map.{keys_of};
ghost use Rattle.s7_item.specs.Codes.{good};
ghost use Rattle.s7_item.specs.Item.{octet_count};
ghost use Rattle.s7_item.specs.DataItem.{carries};
ghost use Rattle.s7_area.specs.Guards.{is_read_barred, is_write_barred};
ghost use Rattle.s7_area.specs.Memory.{no_areas, area_octets, with_area, without_area, entries_of, lengths_of};
ghost use Rattle.s7_area.specs.Memory.{shape_of};
ghost use Rattle.s7_area.specs.Memory.{read_code, read_octets, write_code, written};

use crate::area::Area;
use crate::db_numbers::DbNumbers;
use crate::guard::Guard;
use crate::key::{AreaKey, is_numbered};
use crate::place::{is_inside, is_misfit, key_of, read_place};
use crate::register::{RegisterFault, Unknown};
use s7_item::Item;
use s7_item::codes::{GOOD, NO_AREA, NOT_ALLOWED, OUT_OF_RANGE, WRONG_SIZE, WRONG_WORD};
use s7_outer::{Memory, Octets};
use std::alloc::Global;
use std::collections::BTreeMap;
use std::marker::Model;

/// The greatest number of octets of an area.
const MOST_OCTETS: usize = 2_097_152;

/// The greatest number of octets of all areas together.
const MOST_IN_ALL: usize = 16_777_216;

/// The greatest number of data blocks.
const MOST_DBS: usize = 2_048;

/// The answer to a read of an item: the return code, and the number of octets read.
#[derive(Clone, Copy, Debug, PartialEq, Eq)]
pub struct ItemAnswer {
    /// The return code.
    pub code: u8,
    /// The number of octets read; 0 with every code but FF.
    pub len: usize,
}

/// Areas by their names, and their guard, if they have one. Contracts see a memory: the list of names and octets in
/// the order of the names, and the guard.
#[derive(Drop)]
pub struct Areas {
    /// The areas; `None` before the first one, since a map can't be made without an allocator.
    map: Option<BTreeMap<AreaKey, Area>>,
    /// The number of octets of all areas together.
    total: usize,
    guard: Option<Guard>,
}

impl Model for Areas {
    ghost use Rattle.s7_area.specs.Memory.{Memory, memory_of};
    ghost use Rattle.s7_area.specs.Registers.{Keeps};

    ghost Value = { Memory };

    ghost view = { λ a. memory_of a.map a.guard };

    ghost invariant = { λ a. Keeps (memory_of a.map a.guard) a.total };
}

impl Areas {
    ghost use Rattle.s7_area.specs.Guards.{IsGuard};
    ghost use Rattle.s7_area.specs.Registers.{IsMemory, fault_of, is_wrong_size, db_numbers};

    /// No areas and no guard.
    pub fn new() -> Areas
        ensures { result ≡ no_areas }
    {
        Areas {
            map: None,
            total: 0,
            guard: None,
        }
    }

    /// The guard, if there is one.
    pub fn guard(&self) -> Option<Guard>
        ensures { result ≡ self.now.guard }
    {
        self.guard
    }

    /// Sets the guard, or removes it. The areas stay. A guard has level 2 or 3, and its password has the form
    /// described at `Guard`.
    pub fn set_guard(&mut self, guard: Option<Guard>)
        requires { IfSome guard IsGuard }
        ensures { self.new ≡ record self.old { guard = guard } }
    {
        self.guard = guard;
    }

    /// The octets of an area, borrowed; `None` exactly if no area of this name is registered.
    pub fn octets_of(&self, key: AreaKey) -> Option<&[u8]>
        ensures { option_map (λ octets. octets.now) result ≡ area_octets self.now key }
    {
        match self.area_of(key) {
            Some(area) => Some(area.as_slice()),
            None => None,
        }
    }

    /// The area of this name, borrowed.
    fn area_of(&self, key: AreaKey) -> Option<&Area>
        ensures { option_copied result ≡ area_octets self.now key }
    {
        match &self.map {
            Some(map) => map.get(&key),
            None => None,
        }
    }

    /// The numbers of the data blocks, in ascending order. The contract also states what is registered: areas in
    /// the order of their names, each with a name and a length that are allowed, within the limits of `register`.
    pub fn db_numbers(&self) -> DbNumbers<'_>
        ensures numbers { result ≡ db_numbers (keys_of self.now.areas) }
        ensures memory { IsMemory self.now }
    {
        DbNumbers {
            keys: self.map.as_ref().map(|map| map.keys()),
        }
    }

    /// What a read of an item gives, borrowed: the octets of its range, or 00 or 01 for a bit. If the read is
    /// refused, the error is the return code as for `read`, which is neither FF nor 00.
    #[tactic(auto, unfolding(crate::specs::Memory::read_code, crate::specs::Memory::read_octets))]
    pub fn look_up(&self, right: bool, item: &Item) -> Result<&[u8], u8>
        ensures good { IfOk result (λ octets. read_code self.now right item.now ≡ good) }
        ensures octets { IfOk result (λ octets. octets.now ≡ read_octets self.now right item.now) }
        ensures count { IfOk result (λ octets. length octets.now ≡ octet_count item.now) }
        ensures code { IfErr result (λ code. code ≡ read_code self.now right item.now) }
        ensures bad { IfErr result (λ code. carries code ≡ false) }
        ensures none { OnErr result (read_octets self.now right item.now ≡ []) }
    {
        if self.bars_read(right) {
            return Err(NOT_ALLOWED);
        }
        if is_misfit(item) {
            return Err(WRONG_WORD);
        }
        let Some(area) = self.area_of(key_of(item)) else {
            return Err(NO_AREA);
        };
        let area = area.as_slice();
        if !is_inside(item, area.len()) {
            return Err(OUT_OF_RANGE);
        }
        Ok(read_place(item, area))
    }

    /// Whether a read of an item is barred: it needs a right, and `right` is false.
    fn bars_read(&self, right: bool) -> bool
        ensures { result ≡ is_read_barred self.now.guard right }
    {
        match &self.guard {
            Some(guard) => guard.bars_read(right),
            None => false,
        }
    }

    /// Reads an item; `right` says whether the caller has the right to reads that are guarded. Returns the code,
    /// and with code FF writes the octets of the item's range to the beginning of `into`. The code is the first of
    /// these that applies: 03 if the guard has level 3 and there is no right; 06 if the word length is unknown, a
    /// bit's count isn't 1, exactly one of word length and area is 1C, or exactly one is 1D; 0A if the area isn't
    /// registered; 05 if the count is 0 or the range isn't inside the area; else FF.
    ///
    /// The range begins at octet `address / 8`, for counters and timers at `address * 2`, and has the octets of
    /// `count` elements. A bit is bit `address mod 8` of that octet, and is read as 00 or 01. The number of the
    /// data block is ignored in other areas, and so are the low three bits of an address unless the word length is
    /// a bit. `into` has room for `count` times the size of an element; its rest stays.
    pub fn read(&self, right: bool, item: &Item, into: &mut [u8]) -> ItemAnswer
        requires { octet_count item.now ≤ length into.old }
        ensures code { result.code ≡ read_code self.now right item.now }
        ensures len { result.len ≡ length (read_octets self.now right item.now) }
        ensures octets { into.new ≡ read_octets self.now right item.now ++ drop result.len into.old }
    {
        match self.look_up(right, item) {
            Ok(octets) => {
                into[..octets.len()].copy_from_slice(octets);
                ItemAnswer {
                    code: GOOD,
                    len: octets.len(),
                }
            }
            Err(code) => ItemAnswer { code, len: 0 },
        }
    }

    /// Writes octets to the range of an item; `right` says whether the caller has the right to writes that are
    /// guarded. Returns the code, the first of these that applies: 03 if the guard has level 2 or 3 and there is no
    /// right; 06, 0A and 05 as for `read`; 07 if the number of octets isn't `count` times the size of an element;
    /// else FF. Any octet but 00 turns a bit on, and 00 turns it off; the other bits stay. The guard stays. With
    /// every code but FF the areas stay, too.
    #[tactic(auto, unfolding(crate::specs::Memory::write_code, crate::specs::Memory::written))]
    pub fn write(&mut self, right: bool, item: &Item, octets: &[u8]) -> u8
        ensures code { result ≡ write_code self.old right item.now octets.now }
        ensures written { self.new ≡ written self.old right item.now octets.now }
        ensures refused { result ≢ good → self.new ≡ self.old }
    {
        if self.bars_write(right) {
            return NOT_ALLOWED;
        }
        if is_misfit(item) {
            return WRONG_WORD;
        }
        let Some(map) = &mut self.map else {
            return NO_AREA;
        };
        let Some(area) = map.get_mut(&key_of(item)) else {
            return NO_AREA;
        };
        if !is_inside(item, area.as_slice().len()) {
            return OUT_OF_RANGE;
        }
        if octets.len() != item.octet_count() {
            return WRONG_SIZE;
        }
        area.write(item, octets);
        GOOD
    }

    /// Whether a write of an item is barred: it needs a right, and `right` is false.
    fn bars_write(&self, right: bool) -> bool
        ensures { result ≡ is_write_barred self.now.guard right }
    {
        match &self.guard {
            Some(guard) => guard.bars_write(right),
            None => false,
        }
    }

    /// A copy of the areas and the guard. Returns `Memory` if an allocation fails.
    pub fn copy(&self, alloc: Global) -> Result<Areas, Memory>
        ensures { IfOk result (λ copy. copy ≡ self.now) }
    {
        Ok(Areas {
            map: copy_map(&self.map)?,
            total: self.total,
            guard: self.guard,
        })
    }

    /// Copies the octets and the guard of areas with the same names and lengths. Nothing is allocated.
    pub fn overwrite(&mut self, from: &Areas)
        requires { shape_of from.now ≡ shape_of self.old }
        ensures { self.new ≡ from.now }
    {
        overwrite_map(&mut self.map, &from.map);
        self.total = from.total;
        self.guard = from.guard;
    }

    /// Registers an area. The first fault in this order is returned: `Key` if no area may have this name; `Size` if
    /// there are no octets, more than 2,097,152, an odd number of them for counters or timers, or more than
    /// 16,777,216 with those of all areas; `Exists` if an area of this name is registered; `TooManyDbs` if it would
    /// be the data block after the 2,048th; `Memory` if an allocation fails. The guard stays. A refusal changes
    /// nothing and hands the octets back.
    pub fn register(
        &mut self,
        alloc: Global,
        key: AreaKey,
        octets: Octets,
    ) -> Result<(), (RegisterFault, Octets)>
        ensures refused { IfSome (fault_of self.old key (length octets))
            (λ fault. result ≡ Err (fault, octets)) }
        ensures taken { IfNone (fault_of self.old key (length octets))
            (MatchResult result (λ _. self.new ≡ with_area self.old key octets)
            (λ e. e ≡ (RegisterFault.Memory, octets))) }
        ensures err { OnErr result (self.new ≡ self.old) }
    {
        match self.fault_of(key, octets.as_slice().len()) {
            Some(fault) => Err((fault, octets)),
            None => self.add(alloc, key, octets),
        }
    }

    /// Adds an area for which `fault_of` finds no fault.
    fn add(
        &mut self,
        alloc: Global,
        key: AreaKey,
        octets: Octets,
    ) -> Result<(), (RegisterFault, Octets)>
        requires { fault_of self.old key (length octets) ≡ None }
        ensures taken { MatchResult result (λ _. self.new ≡ with_area self.old key octets)
            (λ e. e ≡ (RegisterFault.Memory, octets)) }
        ensures err { OnErr result (self.new ≡ self.old) }
    {
        let len = octets.as_slice().len();
        let mut map = take_or_make(&mut self.map, alloc);
        let inserted = map.insert(key, Area::new(octets));
        self.map = Some(map);
        match inserted {
            Ok(_) => {
                self.total += len;
                Ok(())
            }
            Err(refused) => Err((RegisterFault::Memory, refused.value.1.into_octets())),
        }
    }

    /// The first fault of an area of `len` octets with this name, if it were registered now; `None` if it has none.
    fn fault_of(&self, key: AreaKey, len: usize) -> Option<RegisterFault>
        ensures { result ≡ fault_of self.now key len }
    {
        if !key.is_key() {
            Some(RegisterFault::Key)
        } else if self.is_wrong_size(key, len) {
            Some(RegisterFault::Size)
        } else if self.area_of(key).is_some() {
            Some(RegisterFault::Exists)
        } else if key.is_db() && self.db_numbers().count() >= MOST_DBS {
            Some(RegisterFault::TooManyDbs)
        } else {
            None
        }
    }

    /// Whether an area of this name can't have this length, or the areas would have too many octets with it.
    fn is_wrong_size(&self, key: AreaKey, len: usize) -> bool
        ensures { result ≡ is_wrong_size self.now key len }
    {
        len == 0
            || len > MOST_OCTETS
            || is_numbered(key.area) && len % 2 != 0
            || len > MOST_IN_ALL - self.total
    }

    /// Removes an area and hands its octets back. Returns `Unknown` exactly if no area of this name is registered,
    /// and changes nothing then. The guard stays.
    pub fn unregister(&mut self, key: AreaKey) -> Result<Octets, Unknown>
        ensures octets { result_ok result ≡ area_octets self.old key }
        ensures rest { self.new ≡ without_area self.old key }
        ensures err { OnErr result (self.new ≡ self.old) }
    {
        let Some(map) = &mut self.map else {
            return Err(Unknown);
        };
        let Some(area) = map.remove(&key) else {
            return Err(Unknown);
        };
        self.total -= area.as_slice().len();
        Ok(area.into_octets())
    }
}

/// A copy of the map, if there is one.
fn copy_map(
    map: &Option<BTreeMap<AreaKey, Area>>,
) -> Result<Option<BTreeMap<AreaKey, Area>>, Memory>
    ensures { IfOk result (λ copy. entries_of copy ≡ entries_of map.now) }
{
    let Some(map) = map else {
        return Ok(None);
    };
    match map.clone() {
        Ok(map) => Ok(Some(map)),
        Err(_) => Err(Memory),
    }
}

/// Copies the octets of areas with the same names and lengths.
fn overwrite_map(map: &mut Option<BTreeMap<AreaKey, Area>>, from: &Option<BTreeMap<AreaKey, Area>>)
    requires { lengths_of (entries_of from.now) ≡ lengths_of (entries_of map.old) }
    ensures { entries_of map.new ≡ entries_of from.now }
{
    let Some(map) = map else {
        return;
    };
    let Some(from) = from else {
        return;
    };
    overwrite_each(map, from);
}

/// Copies the octets of each area of `from` to the area of the same name.
fn overwrite_each(map: &mut BTreeMap<AreaKey, Area>, from: &BTreeMap<AreaKey, Area>)
    requires { lengths_of from.now.entries ≡ lengths_of map.old.entries }
    ensures { map.new.entries ≡ from.now.entries }
{
    for (key, octets) in from {
        if let Some(area) = map.get_mut(key) {
            area.overwrite(octets);
        }
    }
}

/// Takes the map out, or makes it if there is none yet.
fn take_or_make(map: &mut Option<BTreeMap<AreaKey, Area>>, alloc: Global) -> BTreeMap<AreaKey, Area>
    ensures { result.entries ≡ entries_of map.old }
{
    match map.take() {
        Some(map) => map,
        None => BTreeMap::new(alloc),
    }
}
