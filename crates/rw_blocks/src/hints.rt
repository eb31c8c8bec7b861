//! Finds the entry of a block in a map without a hash, where it stands where it stood before.
ghost use Rattle.std.specs.Prelude.{◌≡◌, ◌<◌, None, Some, OnOk, OnErr, IfNone, IfSome, nat_eq, option_copied, slice_get};
ghost use Rattle.std.specs.Option.{option_map};
ghost use Rattle.indexmap.specs.IndexMap.{get, index_map_len, IsUnchanged};
ghost use Rattle.rw_blocks.specs.Maps.{Sets};

use indexmap::IndexMap;
use std::alloc::{AllocError, Global};

/// How many places are noted at first.
const FEW: usize = 64;

/// For each remainder of serials, where the block that was noted last stands in a map of blocks.
///
/// Serials are given in turn, so the blocks that are in use mostly have remainders of their own. A place is only a hint: it
/// is tested before it is used, and the map is searched by hash where another block stands there. So what a map gives rests
/// on no hint.
#[derive(Drop)]
pub struct Hints {
    places: Vec<u32>,
}

impl Hints {
    /// No hint.
    pub fn new(alloc: Global) -> Hints {
        Hints {
            places: Vec::new(alloc),
        }
    }

    /// Where the block's entry stands in the map. `None` exactly where the map has none.
    #[inline(always)]
    pub fn find<V>(&self, map: &IndexMap<u64, V>, serial: u64) -> Option<usize>
        ensures there { IfSome result (λ place. place < index_map_len map.now) }
        ensures entry { IfSome result (λ place. slice_get map.now.entries place
            ≡ option_map (λ v. (serial, v)) (get nat_eq map.now serial)) }
        ensures none { IfNone result (get nat_eq map.now serial ≡ None) }
    {
        let place = self.place(serial);
        if let Some((found, _)) = map.get_index(place) {
            if *found == serial {
                return Some(place);
            }
        }
        search(map, serial)
    }

    /// What the map has for the block.
    #[inline(always)]
    pub fn get<'a, V>(&self, map: &'a IndexMap<u64, V>, serial: u64) -> Option<&'a V>
        ensures { option_copied result ≡ get nat_eq map.now serial }
    {
        let place = self.find(map, serial)?;
        let (_, value) = map.get_index(place)?;
        Some(value)
    }

    /// Puts an entry into the map, and notes where it stands.
    ///
    /// # Errors
    ///
    /// [`AllocError`] where memory was refused; the map is then as it was.
    pub fn insert<V: Drop>(
        &mut self,
        map: &mut IndexMap<u64, V>,
        serial: u64,
        value: V,
    ) -> Result<(), AllocError>
        ensures updates { OnOk result
            (Sets (get nat_eq map.old) (get nat_eq map.new) serial (Some value)) }
        ensures same { OnErr result (IsUnchanged map.old map.new) }
    {
        map.insert(serial, value)?;
        if map.len() > self.places.len() / 2 {
            self.widen(map);
        }
        self.note(map, map.len().wrapping_sub(1));
        Ok(())
    }

    /// Takes the block's entry out of the map, if it has one, and notes where the one stands that took its place.
    pub fn remove<V: Drop>(&mut self, map: &mut IndexMap<u64, V>, serial: u64) -> Option<V>
        ensures updates { Sets (get nat_eq map.old) (get nat_eq map.new) serial None }
    {
        let place = self.find(map, serial)?;
        let (_, value) = map.swap_remove_index(place)?;
        self.note(map, place);
        Some(value)
    }

    /// Where the block's entry may stand.
    #[inline(always)]
    fn place(&self, serial: u64) -> usize {
        match self.places.get(self.remainder(serial)) {
            Some(place) => *place as usize,
            None => 0,
        }
    }

    /// The remainder of a serial, by how many places are noted.
    #[inline(always)]
    fn remainder(&self, serial: u64) -> usize {
        serial as usize & self.places.len().wrapping_sub(1)
    }

    /// Notes which entry stands at a place, if one does.
    fn note<V>(&mut self, map: &IndexMap<u64, V>, place: usize) {
        let Some((serial, _)) = map.get_index(place) else {
            return;
        };
        let remainder = self.remainder(*serial);
        if let (Some(noted), Ok(place)) = (self.places.get_mut(remainder), u32::try_from(place)) {
            *noted = place;
        }
    }

    /// Makes room for twice as many places, and notes all entries. Where memory is refused, the places stay as they are.
    #[inline(never)]
    fn widen<V>(&mut self, map: &IndexMap<u64, V>) {
        let wide = FEW.max(self.places.len().saturating_mul(2));
        if self.places.resize(wide, 0).is_ok() {
            for place in 0..map.len() {
                self.note(map, place);
            }
        }
    }
}

/// Where the block's entry stands in the map, found by its hash.
#[inline(never)]
fn search<V>(map: &IndexMap<u64, V>, serial: u64) -> Option<usize>
    ensures there { IfSome result (λ place. place < index_map_len map.now) }
    ensures entry { IfSome result (λ place. slice_get map.now.entries place
        ≡ option_map (λ v. (serial, v)) (get nat_eq map.now serial)) }
    ensures none { IfNone result (get nat_eq map.now serial ≡ None) }
{
    let (place, _, _) = map.get_full(&serial)?;
    Some(place)
}
