// The sections of a queue from head to tail, with an index of their blocks.
ghost use Rattle.std.specs.Prelude.{◌≡◌, ◌<◌, ◌≤◌, ◌+◌, [], ◌∷◌, length, Some, None, OnOk, OnErr, IfOk, IfSome, IsNone, if◌then◌else◌, ◌&&◌, nat_eq, position, slice_get, sum_by, true, false, ◌^◌};
ghost use Rattle.rw_blocks.specs.Sections.{active_of, section_in, new_section, has_block, has_serial, devices_in, NoneSealed, NoneSealedBehind};
ghost use Rattle.std.specs.List.{list_any};
ghost use Rattle.rw_blocks.specs.Changes.{sections_changing, section_sealing, section_losing, upper_of, joined_at, section_unsealing, section_gaining, lower_of, parted_at};
ghost use Rattle.rw_blocks.specs.Tags.{IsAbsent, IsOnlyIn, Retags, Parts, ComesFrom, JoinsNext, is_vanishing, IsGoneOnceUnsealed, IsOnceIn};

use crate::owners::Owners;
use crate::section::Section;
use crate::{Kind, Seam, Vanished};
use std::alloc::{AllocError, Global};
use std::marker::Model;
use std::mem;

/// The sections. Contracts see them as their list. Each has a tag, a number that no other section has, and `owners` has
/// the tag of each block's section.
///
/// A change that needs memory takes the list out while it works: where memory is refused, no section is left.
#[derive(Drop)]
pub struct Sections {
    alloc: Global,
    list: Vec<Section>,
    tags: Vec<u64>,
    owners: Owners,
}

impl Model for Sections {
    ghost use Rattle.std.specs.Prelude.{List, ◌<◌, length, nat_eq};
    ghost use Rattle.std.specs.HashMap.{get};
    ghost use Rattle.rw_blocks.specs.Sections.{SectionState};

    ghost Value = { List SectionState };

    ghost use Rattle.rw_blocks.specs.Tags.{IsTagged};

    ghost view = { λ s. s.list.items };

    ghost invariant = { λ s. 0 < length s.list.items
        → IsTagged s.list.items s.tags.items (λ b. get nat_eq s.owners.tags b) };
}

/// The least number that is none of `tags`.
fn free_tag(tags: &[u64]) -> u64
    ensures { list_any (nat_eq result) tags.now ≡ false }
{
    let mut tag = 0;
    while is_used(tags, tag) {
        tag += 1;
    }
    tag
}

/// Whether the tag is one of `tags`.
fn is_used(tags: &[u64], tag: u64) -> bool
    ensures { result ≡ list_any (nat_eq tag) tags.now }
{
    tags.iter().any(|t| tag == *t)
}

/// Where the tag stands in `tags`. `None` exactly where it is none of them.
fn place_of(tags: &[u64], tag: u64) -> Option<usize>
    ensures { result ≡ position (λ t. nat_eq t tag) tags.now }
{
    tags.iter().position(|t| *t == tag)
}

/// Each block of the section gets the tag.
///
/// # Errors
///
/// [`AllocError`] where memory was refused; nothing is said of the tags then. `tag_sealed` and `retag` say the same.
fn tag_all(owners: &mut Owners, section: &Section, tag: u64) -> Result<(), AllocError>
    ensures { OnOk result
        (Retags owners.old owners.new (λ b. has_block b section.now) (λ b. Some tag)) }
{
    tag_sealed(owners, section, tag)?;
    owners.insert(section.active(Kind::Device), tag)?;
    owners.insert(section.active(Kind::Virtual), tag)?;
    Ok(())
}

/// Each sealed block of the section gets the tag.
fn tag_sealed(owners: &mut Owners, section: &Section, tag: u64) -> Result<(), AllocError>
    ensures { OnOk result (Retags owners.old owners.new
        (λ b. list_any (has_serial b) section.now.sealed) (λ b. Some tag)) }
{
    for position in 0..section.sealed() {
        let (serial, _) = section.sealed_at(position);
        owners.insert(serial, tag)?;
    }
    Ok(())
}

/// Each block of the section gets the tag, but for the active ones that vanish: they get none.
fn retag(
    owners: &mut Owners,
    section: &Section,
    tag: u64,
    vanished: Vanished,
) -> Result<(), AllocError>
    ensures { OnOk result (Retags owners.old owners.new
        (λ b. has_block b section.now)
        (λ b. if is_vanishing vanished section.now b then None else Some tag)) }
{
    tag_all(owners, section, tag)?;
    untag(owners, section.active(Kind::Device), vanished.device);
    untag(
        owners,
        section.active(Kind::Virtual),
        vanished.virtual_block,
    );
    Ok(())
}

/// The block gets no tag, where it vanishes.
fn untag(owners: &mut Owners, serial: u64, vanishes: bool)
    ensures { Retags owners.old owners.new (λ b. vanishes && nat_eq serial b) (λ b. None) }
{
    if vanishes {
        owners.remove(serial);
    }
}

/// Questions.
impl Sections {
    /// How many sections there are.
    pub fn len(&self) -> usize
        ensures { result ≡ length self.now }
    {
        self.list.len()
    }

    /// The serial of the section's active block of the kind, which no other section has.
    pub fn active(&self, section: usize, kind: Kind) -> u64
        requires { section < length self.now }
        ensures active { result ≡ active_of kind (section_in self.now section) }
        ensures here { has_block result (section_in self.now section) ≡ true }
        ensures only { IsOnlyIn section result self.now }
    {
        self.list[section].active(kind)
    }

    /// How many sealed blocks the section has.
    pub fn sealed(&self, section: usize) -> usize
        requires { section < length self.now }
        ensures { result ≡ length (section_in self.now section).sealed }
    {
        self.list[section].sealed()
    }

    /// A sealed block of the section: its serial and its kind.
    pub fn sealed_at(&self, section: usize, position: usize) -> (u64, Kind)
        requires there { section < length self.now }
        requires sealed { position < length (section_in self.now section).sealed }
        ensures { slice_get (section_in self.now section).sealed position ≡ Some result }
    {
        self.list[section].sealed_at(position)
    }

    /// Where the last sealed block stands, as section and position. `None` exactly where no block is sealed.
    pub fn last_sealed(&self) -> Option<(usize, usize)>
        ensures there { IfSome result (λ at. at.0 < length self.now) }
        ensures last { IfSome result (λ at. at.1 + 1 ≡ length (section_in self.now at.0).sealed) }
        ensures behind { IfSome result (λ at. NoneSealedBehind at.0 self.now) }
        ensures none { IsNone result → NoneSealed self.now }
    {
        let section = self.list.iter().rposition(|s| s.sealed() > 0)?;
        Some((section, self.list[section].sealed() - 1))
    }

    /// How many device blocks are sealed.
    pub fn sealed_devices(&self) -> usize
        requires { sum_by devices_in self.now < 2 ^ 64 }
        ensures { result ≡ sum_by devices_in self.now }
    {
        self.list.iter().map(|s| s.sealed_devices()).sum()
    }

    /// The section that has the block. `None` exactly where there is none.
    #[inline(always)]
    pub fn section_of(&self, serial: u64) -> Option<usize>
        ensures first { result ≡ position (has_block serial) self.now }
        ensures there { IfSome result (λ i. i < length self.now) }
        ensures here { IfSome result (λ i. has_block serial (section_in self.now i) ≡ true) }
        ensures none { IsNone result → IsAbsent serial self.now }
        ensures only { IfSome result (λ i. IsOnlyIn i serial self.now) }
    {
        if self.list.is_empty() {
            return None;
        }
        let tag = self.owners.get(serial)?;
        place_of(&self.tags, tag)
    }
}

/// Changes.
impl Sections {
    /// One section, whose active blocks are `device` and `virtual_block`.
    ///
    /// # Errors
    ///
    /// [`AllocError`] where memory was refused. With the changes below no section is left then.
    pub fn new(alloc: Global, device: u64, virtual_block: u64) -> Result<Sections, AllocError>
        ensures { IfOk result (λ s. s ≡ new_section device virtual_block ∷ []) }
    {
        let mut owners = Owners::new(alloc);
        let section = Section::new(alloc, device, virtual_block);
        tag_all(&mut owners, &section, 0)?;
        let mut list = Vec::new(alloc);
        list.push(section)?;
        let mut tags = Vec::new(alloc);
        tags.push(0)?;
        Ok(Sections {
            alloc,
            list,
            tags,
            owners,
        })
    }

    /// Seals the section's active block of the kind; the fresh one, which no section has, is active in its place.
    pub fn seal(&mut self, section: usize, kind: Kind, fresh: u64) -> Result<(), AllocError>
        requires there { section < length self.old }
        requires fresh { IsAbsent fresh self.old }
        ensures sealed { OnOk result
            (self.new ≡ sections_changing self.old section (section_sealing kind fresh)) }
        ensures refused { OnErr result (self.new ≡ []) }
    {
        let mut list = mem::replace(&mut self.list, Vec::new(self.alloc));
        list[section].seal(kind, fresh)?;
        self.owners.insert(fresh, self.tags[section])?;
        self.list = list;
        Ok(())
    }

    /// Makes the front sealed block of the section active again, as one of the kind. The active block, which then is
    /// not the section's, is gone.
    pub fn unseal(&mut self, section: usize, kind: Kind)
        requires there { section < length self.old }
        requires some { 0 < length (section_in self.old section).sealed }
        requires gone { IsGoneOnceUnsealed kind (section_in self.old section) }
        ensures { self.new ≡ sections_changing self.old section (section_unsealing kind) }
    {
        let active = self.list[section].active(kind);
        self.list[section].unseal(kind);
        self.owners.remove(active);
    }

    /// Takes a sealed block out of its list, whose serial no other block of the section has.
    pub fn take_out(&mut self, section: usize, position: usize) -> (u64, Kind)
        requires there { section < length self.old }
        requires sealed { position < length (section_in self.old section).sealed }
        requires once { IsOnceIn position (section_in self.old section) }
        ensures block { slice_get (section_in self.old section).sealed position ≡ Some result }
        ensures rest { self.new ≡ sections_changing self.old section (section_losing position) }
    {
        let (serial, kind) = self.list[section].take_out(position);
        self.owners.remove(serial);
        (serial, kind)
    }

    /// Puts a block, which no section has, into the section's sealed list.
    pub fn put_back(
        &mut self,
        section: usize,
        position: usize,
        serial: u64,
        kind: Kind,
    ) -> Result<(), AllocError>
        requires there { section < length self.old }
        requires within { position ≤ length (section_in self.old section).sealed }
        requires absent { IsAbsent serial self.old }
        ensures put { OnOk result (self.new ≡ sections_changing self.old section
            (section_gaining position (serial, kind))) }
        ensures refused { OnErr result (self.new ≡ []) }
    {
        let mut list = mem::replace(&mut self.list, Vec::new(self.alloc));
        list[section].put_back(position, serial, kind)?;
        self.owners.insert(serial, self.tags[section])?;
        self.list = list;
        Ok(())
    }

    /// Parts a section at the seam: the upper one of the two keeps its active blocks and its first `upper_sealed` sealed
    /// blocks. The lower one has the seam's active blocks, and the other sealed ones, of which the first is dropped for
    /// each of the active ones that did not vanish.
    pub fn part(&mut self, section: usize, seam: Seam) -> Result<(), AllocError>
        requires there { section < length self.old }
        requires within { seam.upper_sealed ≤ length (section_in self.old section).sealed }
        requires parts { Parts (section_in self.old section)
            (upper_of seam.upper_sealed (section_in self.old section))
            (lower_of seam (section_in self.old section)) }
        requires from { ComesFrom (lower_of seam (section_in self.old section))
            (section_in self.old section) self.old }
        ensures parted { OnOk result (self.new ≡ parted_at self.old section seam) }
        ensures refused { OnErr result (self.new ≡ []) }
    {
        let mut list = mem::replace(&mut self.list, Vec::new(self.alloc));
        let lower = list[section].part(seam)?;
        let tag = free_tag(&self.tags);
        tag_all(&mut self.owners, &lower, tag)?;
        list.insert(section + 1, lower)?;
        self.tags.insert(section + 1, tag)?;
        self.list = list;
        Ok(())
    }

    /// Joins a section with the next one, but for those active blocks of the next one that vanish.
    pub fn join(&mut self, section: usize, vanished: Vanished) -> Result<(), AllocError>
        requires there { section + 1 < length self.old }
        requires joins { JoinsNext self.old section vanished }
        ensures joined { OnOk result (self.new ≡ joined_at self.old section vanished) }
        ensures refused { OnErr result (self.new ≡ []) }
    {
        let mut list = mem::replace(&mut self.list, Vec::new(self.alloc));
        let lower = list.remove(section + 1);
        let tag = self.tags[section];
        self.tags.remove(section + 1);
        retag(&mut self.owners, &lower, tag, vanished)?;
        list[section].join(lower, vanished)?;
        self.list = list;
        Ok(())
    }
}
