//! The writer, which publishes racks.
ghost use Rattle.std.specs.Prelude.{All, ◌≡◌, ◌+◌, ◌<◌, ◌≤◌, ◌++◌, ◌∷◌, []};
ghost use Rattle.std.specs.Prelude.{length, map, true, false, List, Some, IfOk, IfSome, IfNone, OnOk, OnErr};
ghost use Rattle.std.specs.Arc.{arc_value};
ghost use Rattle.left_right.specs.Handles.{published as shown_version};
ghost use Rattle.net_model.specs.declared.limits.TheConstants.{MAX_STATIONS};
ghost use Rattle.phys_proc.specs.Racks.{RackView};
ghost use Rattle.shelf.specs.Racks.{AreShown, HasRack, MayBePublished, MayOpen, with_rack};
ghost use Rattle.shelf.specs.declared.history.TheConstants.{MAX_RACKS};
ghost use Rattle.shelf.specs.declared.stocker.TheConstants.{MAX_READERS};

use crate::history::{History, MAX_RACKS, Naming, NewHistory, PublishedRacks};
use crate::seat::{Seat, Told};
use crate::version::{NextVersion, ShownVersion, Version};
use left_right::{Absorb, WriteHandle};
use phys_proc::Rack;
use sim_base::NoMemory;
use sim_base::limits::MAX_ANALYSTS;
use std::alloc::Global;
use std::sync::{Arc, Wait};

/// The maximum number of readers of a shelf, one for each analyst.
pub const MAX_READERS: u32 = MAX_ANALYSTS;

// `many` handles of one version.
fn share_version<J: Naming>(
    alloc: Global,
    version: &Arc<Version<J>>,
    many: u32,
) -> Result<Vec<Arc<Version<J>>>, NoMemory>
    ensures many { IfOk result (λ v. length v.items ≡ many) }
    ensures each { IfOk result (λ v. All (λ a. arc_value a ≡ version.now.value) v.items) }
{
    let mut all = Vec::with_capacity(alloc, many as usize)?;
    for _ in 0..many {
        all.push(Arc::try_clone(version)?)?;
    }
    Ok(all)
}

// The rack at index `i` once `rack` is put at index `place`.
fn at_place(
    racks: &[Arc<Rack>],
    rack: &Arc<Rack>,
    place: usize,
    i: usize,
) -> Result<Arc<Rack>, NoMemory>
    requires in_range { i < length racks.now }
    ensures value { IfOk result (λ a. Some a.value ≡ with_rack (map arc_value racks.now) place rack.now.value i) }
{
    if i == place {
        return Ok(Arc::try_clone(rack)?);
    }
    Ok(Arc::try_clone(&racks[i])?)
}

// The racks, with this one in place of its station's last.
fn replace_rack(
    alloc: Global,
    racks: &[Arc<Rack>],
    rack: &Arc<Rack>,
) -> Result<Vec<Arc<Rack>>, NoMemory>
    ensures shown { IfOk result (λ v. (published : List RackView) → AreShown (map arc_value racks.now) published →
        HasRack rack.now.value.station published →
        AreShown (map arc_value v.items) (published ++ rack.now.value ∷ [])) }
{
    let place = rack.station().saturating_sub(1) as usize;
    let mut all = Vec::with_capacity(alloc, racks.len())?;
    for i in 0..racks.len() {
        let next = at_place(racks, rack, place, i)?;
        all.push(next)?;
    }
    Ok(all)
}

// Makes the opening racks the first of the history.
fn publish_opening<J: Naming>(history: &mut History<J>, racks: &[Arc<Rack>])
    requires nothing { history.old ≡ [] }
    requires opening { MayOpen (map arc_value racks.now) }
    requires at_most { length racks.now ≤ MAX_STATIONS }
    ensures opening { history.new ≡ map arc_value racks.now }
{
    for i in 0..racks.len() {
        history.add(&racks[i]);
    }
}

/// What the stocker has published, with a handle of the newest version for each reader, to tell the reader of it.
#[derive(Drop)]
pub struct Stock<J: Naming> {
    history: History<J>,
    newest: Arc<Version<J>>,
    /// The published racks, the opening ones first.
    pub published: PublishedRacks<J>,
    /// Whether a rack was published after the opening ones.
    pub has_published: bool,
    /// The number of readers.
    pub readers: u32,
    // Whether the history has a rack that no reader was shown: its publish ran out of memory.
    is_ahead: bool,
    /// A handle for each reader that was not told of the last publish yet.
    pub spares: Vec<Arc<Version<J>>>,
    ghost newest_is: { newest.value ≡ published },
    ghost history_is: { is_ahead ≡ false → history ≡ published },
    ghost spares_are: { All (λ a. arc_value a ≡ published) spares.items },
}

impl<J: Naming> Stock<J> {
    /// Reports what was published, once for each reader after each publish. It is `None` exactly if nothing was
    /// published after the opening racks. It takes no memory and waits for nobody.
    pub fn told(&mut self) -> Option<Told<J>>
        // some reader was not told of the last publish yet
        requires left { self.old.has_published ≡ true → 1 ≤ length self.old.spares.items }
        ensures some { IfSome result (λ t. (t ≡ self.old.published) × (self.old.has_published ≡ true)
            × (length self.old.spares.items ≡ length self.new.spares.items + 1)) }
        ensures none { IfNone result (self.old.has_published ≡ false) }
        ensures published { self.new.published ≡ self.old.published }
        ensures has_published { self.new.has_published ≡ self.old.has_published }
        ensures readers { self.new.readers ≡ self.old.readers }
    {
        if !self.has_published {
            return None;
        }
        let Some(version) = self.spares.pop() else {
            unreachable!()
        };
        Some(Told { version })
    }
}

/// The writer of the shelf. Its drop waits for readers that are in the middle of a look.
#[derive(Drop)]
pub struct Stocker<J: Naming, R: Wait + Drop>
where
    ShownVersion<J>: Absorb<NextVersion<J>, State = ()>,
{
    writer: WriteHandle<ShownVersion<J>, NextVersion<J>, R>,
    /// What it has published.
    pub stock: Stock<J>,
}

// Adds a rack to the history, and makes the next version, which shows these racks.
fn next_version<J: Naming>(
    alloc: Global,
    history: &mut History<J>,
    rack: &Rack,
    racks: Vec<Arc<Rack>>,
) -> Result<Arc<Version<J>>, NoMemory>
    requires at_most { length history.old < MAX_RACKS }
    requires may { MayBePublished history.old rack.now }
    requires shown { AreShown (map arc_value racks.items) (history.old ++ rack.now ∷ []) }
    ensures history { history.new ≡ history.old ++ rack.now ∷ [] }
    ensures version { IfOk result (λ v. v.value ≡ history.old ++ rack.now ∷ []) }
{
    history.add(rack);
    let version = Version::of(history.published(), racks);
    Ok(Arc::new(alloc, version)?)
}

impl<J: Naming, R: Wait + Drop> Stocker<J, R>
where
    ShownVersion<J>: Absorb<NextVersion<J>, State = ()>,
{
    /// Makes this the last rack of its station. Out of memory, readers are shown what they were shown before. If the
    /// rack was in the history by then, each later publish is out of memory too. So is one after `MAX_RACKS` racks.
    pub fn publish(&mut self, alloc: Global, rack: Rack) -> Result<(), NoMemory>
        requires has_rack { HasRack rack.station self.old.stock.published }
        requires may { MayBePublished self.old.stock.published rack }
        ensures published { OnOk result (self.new.stock.published ≡ self.old.stock.published ++ rack ∷ []) }
        ensures tells { OnOk result (self.new.stock.has_published ≡ true) }
        ensures spares { OnOk result (length self.new.stock.spares.items ≡ self.old.stock.readers) }
        ensures readers { self.new.stock.readers ≡ self.old.stock.readers }
        ensures same { OnErr result ((self.new.stock.published ≡ self.old.stock.published)
            × (self.new.stock.spares.items ≡ self.old.stock.spares.items)
            × (self.new.stock.has_published ≡ self.old.stock.has_published)) }
        ensures shown { OnErr result (shown_version self.new.writer ≡ shown_version self.old.writer) }
    {
        let stock = &mut self.stock;
        if stock.is_ahead || stock.published.len() >= MAX_RACKS {
            return Err(NoMemory);
        }
        let rack = Arc::new(alloc, rack)?;
        let racks = replace_rack(alloc, stock.newest.racks(), &rack)?;
        stock.is_ahead = true;
        let version = next_version(alloc, &mut stock.history, &rack, racks)?;
        let spares = share_version(alloc, &version, stock.readers)?;
        let newest = Arc::try_clone(&version)?;
        self.writer
            .append(NextVersion::of(version)?)
            .map_err(|_| NoMemory)?;
        self.writer.publish()?;
        stock.published = stock.history.published();
        stock.newest = newest;
        stock.has_published = true;
        stock.is_ahead = false;
        stock.spares = spares;
        Ok(())
    }
}

// A handle of each rack.
fn share_racks(alloc: Global, racks: Vec<Rack>) -> Result<Vec<Arc<Rack>>, NoMemory>
    ensures value { IfOk result (λ v. map arc_value v.items ≡ racks.items) }
{
    let mut all = Vec::with_capacity(alloc, racks.len())?;
    for rack in racks {
        all.push(Arc::new(alloc, rack)?)?;
    }
    Ok(all)
}

// A seat for each reader, with the opening version.
fn make_seats<J: Naming, R: Wait + Drop>(
    alloc: Global,
    writer: &WriteHandle<ShownVersion<J>, NextVersion<J>, R>,
    version: &Arc<Version<J>>,
    readers: u32,
) -> Result<Vec<Seat<J>>, NoMemory>
    ensures many { IfOk result (λ v. length v.items ≡ readers) }
    ensures each { IfOk result (λ v. All (λ s. s ≡ version.now.value) v.items) }
{
    let mut all = Vec::with_capacity(alloc, readers as usize)?;
    for _ in 0..readers {
        let handle = writer.factory()?.handle()?;
        let newest = Arc::try_clone(version)?;
        all.push(Seat { handle, newest })?;
    }
    Ok(all)
}

/// Opens a shelf with these racks: its stocker, and a seat for each reader. It names the history.
pub fn begin<J: Naming, R: Wait + Drop>(
    rt: R,
    alloc: Global,
    opened: NewHistory,
    racks: Vec<Rack>,
    readers: u32,
) -> Result<(Stocker<J, R>, Vec<Seat<J>>), NoMemory>
    requires name { (opened.seen.book ≡ J.book) × (opened.pen.nib.key ≡ J.start) }
    requires opening { MayOpen racks.items }
    requires at_most { length racks.items ≤ MAX_STATIONS }
    requires at_least { 1 ≤ readers }
    requires most { readers ≤ MAX_READERS }
    // what it gives: a stocker that has published these racks, without spares
    ensures published { IfOk result (λ r. r.0.stock.published ≡ racks.items) }
    ensures readers { IfOk result (λ r. r.0.stock.readers ≡ readers) }
    ensures quiet { IfOk result (λ r. r.0.stock.has_published ≡ false) }
    ensures spares { IfOk result (λ r. r.0.stock.spares.items ≡ []) }
    // and a seat for each reader, which has them
    ensures many { IfOk result (λ r. length r.1.items ≡ readers) }
    ensures seats { IfOk result (λ r. All (λ s. s ≡ racks.items) r.1.items) }
{
    let mut history = opened.named::<J>();
    let racks = share_racks(alloc, racks)?;
    publish_opening(&mut history, racks.as_slice());
    let published = history.published();
    let version = Arc::new(alloc, Version::of(published.again(), racks))?;
    let first = ShownVersion {
        version: Arc::try_clone(&version)?,
    };
    let second = ShownVersion {
        version: Arc::try_clone(&version)?,
    };
    let writer = WriteHandle::new(alloc, rt, first, second, readers as usize)?;
    let seats = make_seats(alloc, &writer, &version, readers)?;
    let stock = Stock {
        history,
        newest: version,
        published,
        has_published: false,
        readers,
        is_ahead: false,
        spares: Vec::new(alloc),
    };
    Ok((Stocker { writer, stock }, seats))
}
