//! The decision lists of the clones.
ghost use Rattle.std.specs.Prelude.{◌≡◌, ◌++◌, ◌∷◌, [], ◌<◌, ◌≤◌, length, map};
ghost use Rattle.std.specs.Prelude.{OnOk, OnErr, IfOk, IsOk, vec_len, vec_capacity, codes, position};
ghost use Rattle.std.specs.List.{AllByRecursion};
ghost use Rattle.std.specs.Str.{bytes_eq};
ghost use Rattle.sim_base.specs.CloneListViews.{clone_of, list_at, base_list};
ghost use Rattle.sim_base.specs.CloneListViews.{list_fork, lists_with_plan, lists_with_end};

use crate::decision::Planned;
use crate::memory::NoMemory;
use crate::name::Name;
use crate::reserved::Reserved;
use std::alloc::Global;
use std::marker::Model;

/// The most clones of a study.
pub const MAX_CLONES: u32 = 256;
/// The most decisions of a clone.
pub const MAX_DECISIONS: u32 = 256;

// A clone as it is stored: its list has memory reserved.
#[derive(Drop)]
struct CloneList {
    name: Name,
    plans: Reserved<Planned>,
    end: Option<u64>,
}

impl Model for CloneList {
    ghost use Rattle.sim_base.specs.CloneListViews.{CloneListView};

    ghost Value = { CloneListView };

    ghost view = { λ c. record { name = c.name; plans = c.plans; end = c.end } };
}

/// The decision lists of the clones, in order of making.
#[derive(Drop)]
pub struct Lists {
    clones: Vec<CloneList>,
    reserved_clones: u32,
    // an empty list for each fork within the reserved memory
    spare: Reserved<Reserved<Planned>>,
    reserved_plans: u32,
}

impl Model for Lists {
    ghost use Rattle.std.specs.Prelude.{map, ◌≤◌, vec_capacity};
    ghost use Rattle.sim_base.specs.Clones.{ListsView};
    ghost use Rattle.sim_base.specs.CloneListViews.{clone_of, AreReserved, AreClones};

    ghost Value = { ListsView };

    ghost view = { λ l. record {
      clones = map clone_of l.clones.items;
      reserved_clones = l.reserved_clones;
      reserved_plans = l.reserved_plans;
    } };

    ghost invariant = { λ l. AreReserved l.clones.items l.reserved_clones l.spare l.reserved_plans
        × (l.reserved_clones ≤ vec_capacity l.clones)
        × AreClones (map clone_of l.clones.items) };
}

impl Lists {
    ghost use Rattle.std.specs.Prelude.{◌+◌, ◌^◌, None, Some, IfSome};
    ghost use Rattle.sim_base.specs.Clones.{base, clone_at, place_of};
    ghost use Rattle.sim_base.specs.Clones.{clones_with_end, clones_with_fork, clones_with_plan};

    /// The base clone alone, with no memory reserved.
    pub fn new(alloc: Global) -> Result<Lists, NoMemory>
        ensures value { IfOk result (λ l.
            l ≡ record { clones = base ∷ []; reserved_clones = 0; reserved_plans = 0 }) }
    {
        Ok(Lists {
            clones: base_alone(alloc, 0, Reserved::new(alloc))?,
            reserved_clones: 0,
            spare: Reserved::new(alloc),
            reserved_plans: 0,
        })
    }

    /// The base clone alone, with memory reserved for `clones` clones of `plans` decisions each.
    pub fn with_room(alloc: Global, clones: u32, plans: u32) -> Result<Lists, NoMemory>
        requires one { 1 ≤ clones }
        requires at_most { clones ≤ MAX_CLONES }
        requires length_max { plans ≤ MAX_DECISIONS }
        ensures value { IfOk result (λ l.
            l ≡ record { clones = base ∷ []; reserved_clones = clones; reserved_plans = plans }) }
    {
        let spare = spare_lists(alloc, clones as usize - 1, plans as usize)?;
        let list = Reserved::with_capacity(alloc, plans as usize)?;
        Ok(Lists {
            clones: base_alone(alloc, clones as usize, list)?,
            reserved_clones: clones,
            spare,
            reserved_plans: plans,
        })
    }

    /// The same clones, with no memory reserved.
    pub fn copy(&self, alloc: Global) -> Result<Lists, NoMemory>
        ensures value { IfOk result (λ l.
            l ≡ record { clones = self.now.clones; reserved_clones = 0; reserved_plans = 0 }) }
    {
        Ok(Lists {
            clones: copy_clones(alloc, self.clones.as_slice())?,
            reserved_clones: 0,
            spare: Reserved::new(alloc),
            reserved_plans: 0,
        })
    }

    /// The number of clones.
    pub fn len(&self) -> u32
        ensures value { result ≡ length self.now.clones }
        ensures at_least { 1 ≤ result }
    {
        self.clones.len() as u32
    }

    /// The index of the clone with this name.
    #[tactic(auto, using(crate::proofs::CloneLists::seen_place))]
    pub fn find(&self, name: &Name) -> Option<u32>
        ensures value { result ≡ place_of name.now self.now.clones }
        ensures in_range { IfSome result (λ c. c < length self.now.clones) }
    {
        let c = place(self.clones.as_slice(), name)?;
        Some(c as u32)
    }

    /// A clone's name.
    #[tactic(auto, using(crate::proofs::CloneLists::seen_at))]
    pub fn name(&self, c: u32) -> Name
        requires in_range { c < length self.now.clones }
        ensures value { result ≡ (clone_at self.now.clones c).name }
        // no two clones have the same name
        ensures only { place_of result self.now.clones ≡ Some c }
    {
        let clone = &self.clones[c as usize];
        clone.name
    }

    /// A clone's decisions.
    pub fn list(&self, c: u32) -> &[Planned]
        requires in_range { c < length self.now.clones }
        ensures value { result.now ≡ (clone_at self.now.clones c).plans }
    {
        let clone = &self.clones.as_slice()[c as usize];
        clone.plans.as_slice()
    }

    /// A clone's end.
    #[tactic(auto, using(crate::proofs::CloneLists::seen_end))]
    pub fn end_of(&self, c: u32) -> Option<u64>
        requires in_range { c < length self.now.clones }
        ensures value { result ≡ (clone_at self.now.clones c).end }
    {
        let clone = &self.clones[c as usize];
        clone.end
    }

    /// Sets a clone's end.
    #[tactic(auto, using(crate::proofs::CloneLists::seen_ended))]
    pub fn end(&mut self, c: u32, at: u64)
        requires in_range { c < length self.old.clones }
        requires once { (clone_at self.old.clones c).end ≡ None }
        ensures value { self.new ≡ record self.old { clones = clones_with_end self.old.clones c at } }
    {
        set_end(&mut self.clones, c as usize, at);
    }

    /// Adds a decision to a clone's list. Allocates nothing within the reserved memory; if out of memory, changes
    /// nothing.
    #[tactic(auto, using(crate::proofs::CloneLists::seen_added))]
    pub fn add(&mut self, c: u32, plan: Planned) -> Result<(), NoMemory>
        requires in_range { c < length self.old.clones }
        ensures ok { OnOk result (
            self.new ≡ record self.old { clones = clones_with_plan self.old.clones c plan }) }
        ensures err { OnErr result (self.new ≡ self.old) }
        ensures reserved { length (clone_at self.old.clones c).plans < self.old.reserved_plans
            → IsOk result }
    {
        push_plan(&mut self.clones, c as usize, plan)
    }

    /// Adds a clone with the old one's decisions and no end. Allocates nothing within the reserved memory; if out of
    /// memory, changes nothing.
    #[tactic(auto, using(crate::proofs::CloneLists::seen_fork))]
    pub fn fork(&mut self, alloc: Global, new: Name, old: u32) -> Result<(), NoMemory>
        requires in_range { old < length self.old.clones }
        requires unused { place_of new self.old.clones ≡ None }
        requires at_most { length self.old.clones + 1 < 2 ^ 32 }
        ensures ok { OnOk result (
            self.new ≡ record self.old { clones = clones_with_fork self.old.clones new old }) }
        ensures err { OnErr result (self.new ≡ self.old) }
        ensures reserved { length self.old.clones < self.old.reserved_clones
            → length (clone_at self.old.clones old).plans ≤ self.old.reserved_plans
            → IsOk result }
    {
        if self.len() < self.reserved_clones
            && self.list(old).len() <= self.reserved_plans as usize
        {
            self.fork_in_reserved(new, old);
            return Ok(());
        }
        let plans = Reserved::with_capacity(alloc, self.reserved_plans as usize)?;
        push_fork(&mut self.clones, plans, new, old as usize)
    }

    /// Adds a clone with the old one's decisions and no end, within the reserved memory. Allocates nothing.
    #[tactic(auto, using(crate::proofs::CloneLists::seen_fork))]
    pub fn fork_in_reserved(&mut self, new: Name, old: u32)
        requires in_range { old < length self.old.clones }
        requires unused { place_of new self.old.clones ≡ None }
        requires at_most { length self.old.clones < self.old.reserved_clones }
        requires length_max { length (clone_at self.old.clones old).plans ≤ self.old.reserved_plans }
        ensures value { self.new ≡ record self.old { clones = clones_with_fork self.old.clones new old } }
    {
        let Some(plans) = self.spare.pop() else {
            unreachable!()
        };
        let Ok(()) = push_fork(&mut self.clones, plans, new, old as usize) else {
            unreachable!()
        };
    }
}

// The index of the first clone with this name.
fn place(clones: &[CloneList], name: &Name) -> Option<usize>
    ensures value { result ≡ position (λ k. bytes_eq k.name name.now) clones.now }
{
    clones
        .iter()
        .position(|clone| clone.name.as_bytes() == name.as_bytes())
}

fn base_name() -> Name
    ensures value { result ≡ codes "base" }
{
    match Name::read(b"base") {
        Some(name) => name,
        None => unreachable!(),
    }
}

// The base clone alone, and memory for `capacity` clones.
fn base_alone(
    alloc: Global,
    capacity: usize,
    plans: Reserved<Planned>,
) -> Result<Vec<CloneList>, NoMemory>
    requires empty { plans.items ≡ [] }
    ensures value { IfOk result (λ v. (v.items ≡ base_list plans.reserved ∷ []) × (capacity ≤ vec_capacity v)) }
{
    let mut clones = Vec::with_capacity(alloc, capacity)?;
    clones.push(CloneList {
        name: base_name(),
        plans,
        end: None,
    })?;
    Ok(clones)
}

// `count` lists with no decision, each with memory for `reserved` decisions.
#[tactic(auto, using(crate::proofs::ListLaws::all_push))]
fn spare_lists(
    alloc: Global,
    count: usize,
    reserved: usize,
) -> Result<Reserved<Reserved<Planned>>, NoMemory>
    ensures value { IfOk result (λ s. AllByRecursion (λ l. (l.items ≡ []) × (reserved ≤ l.reserved)) s.items
        × (length s.items ≡ count)) }
{
    let mut spare = Reserved::with_capacity(alloc, count)?;
    for _ in 0..count {
        spare.push(Reserved::with_capacity(alloc, reserved)?)?;
    }
    Ok(spare)
}

// The same clones, with no memory reserved.
fn copy_clones(alloc: Global, clones: &[CloneList]) -> Result<Vec<CloneList>, NoMemory>
    ensures value { IfOk result (λ v. map clone_of v.items ≡ map clone_of clones.now) }
{
    let mut copies = Vec::with_capacity(alloc, clones.len())?;
    for clone in clones {
        let mut plans = Reserved::new(alloc);
        plans.extend(clone.plans.as_slice())?;
        copies.push(CloneList {
            name: clone.name,
            plans,
            end: clone.end,
        })?;
    }
    Ok(copies)
}

// Appends a fork of the old clone; `plans` is empty and becomes its list.
fn push_fork(
    clones: &mut Vec<CloneList>,
    plans: Reserved<Planned>,
    new: Name,
    old: usize,
) -> Result<(), NoMemory>
    requires in_range { old < length clones.old.items }
    requires empty { plans.items ≡ [] }
    ensures ok { OnOk result (clones.new.items ≡
        clones.old.items ++ list_fork clones.old.items new old plans.reserved ∷ []) }
    ensures err { OnErr result (clones.new.items ≡ clones.old.items) }
    ensures reserved { vec_len clones.old < vec_capacity clones.old
        → length (list_at clones.old.items old).plans.items ≤ plans.reserved
        → IsOk result }
    ensures capacity { vec_capacity clones.old ≤ vec_capacity clones.new }
{
    let mut plans = plans;
    let from = &clones[old];
    plans.extend(from.plans.as_slice())?;
    clones.push(CloneList {
        name: new,
        plans,
        end: None, // a fork does not inherit an end
    })?;
    Ok(())
}

// Sets the end of clone `c`.
fn set_end(clones: &mut Vec<CloneList>, c: usize, at: u64)
    requires in_range { c < length clones.old.items }
    ensures ok { clones.new.items ≡ lists_with_end clones.old.items c at }
    ensures capacity { vec_capacity clones.old ≤ vec_capacity clones.new }
{
    let clone = &mut clones[c];
    clone.end = Some(at);
}

// Adds a decision to the list of clone `c`.
fn push_plan(clones: &mut Vec<CloneList>, c: usize, plan: Planned) -> Result<(), NoMemory>
    requires in_range { c < length clones.old.items }
    ensures ok { OnOk result (clones.new.items ≡ lists_with_plan clones.old.items c plan) }
    ensures err { OnErr result (clones.new.items ≡ clones.old.items) }
    ensures reserved { length (list_at clones.old.items c).plans.items
        < (list_at clones.old.items c).plans.reserved → IsOk result }
    ensures capacity { vec_capacity clones.old ≤ vec_capacity clones.new }
{
    let clone = &mut clones[c];
    clone.plans.push(plan)
}
