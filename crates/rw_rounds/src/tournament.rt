// The least of the events at many places.
ghost use Rattle.std.specs.Prelude.{◌≡◌, ◌≢◌, ◌<◌, ◌≤◌, ◌+◌, ◌*◌, ◌/◌, ◌%◌, [], true, false, IfOk, IfSome, IfNone, Some, None, length, replicate, slice_index_or, slice_set};
ghost use Rattle.std.specs.Option.{option_map};
ghost use Rattle.std.specs.Ordering.{is_gt};
ghost use Rattle.rw_vt.specs.Words.{Position};
ghost use Rattle.rw_vt.specs.Order.{event_cmp, AtMost};
ghost use Rattle.rw_vt.specs.declared.event.Event.{Event};
ghost use Rattle.rw_rounds.specs.Tournament.{node_at, is_second_less, winner, IsPlayed};

use rw_vt::{Event, Model as VtModel};
use std::alloc::{AllocError, Global};
use std::marker::Model;

/// An event at a place.
#[derive(Clone, Copy)]
pub(crate) struct Entry<B> {
    /// Which place it is, from 0.
    pub(crate) place: usize,
    /// What stands there.
    pub(crate) event: Event<B>,
}

/// At each of some places an event, or none, and the least of them at hand. Contracts see it as what is at each place.
///
/// It is a tree: each node has the lesser of the two below it, so a change is played again on the way to the top alone, and
/// only as far as it matters.
#[derive(Drop)]
pub(crate) struct Tournament<M: VtModel> {
    places: usize,
    /// Node 1 is the top, below node k stand the nodes 2 k and 2 k + 1, and the last ones are the places.
    nodes: Vec<Option<Entry<M::Body>>>,
}

impl<M: VtModel> Model for Tournament<M> {
    ghost use Rattle.std.specs.Prelude.{List, Option};
    ghost use Rattle.rw_vt.specs.Order.{event_cmp};
    ghost use Rattle.rw_vt.specs.declared.event.Event.{Event};

    ghost Value = { List (Option (Event M.Body)) };

    ghost use Rattle.rw_rounds.specs.Tournament.{leaves, IsTournament};

    ghost view = { λ t. leaves t.places t.nodes.items };

    ghost invariant = { λ t. IsTournament (event_cmp M.Body.cmp) t.places t.nodes.items };
}

impl<M: VtModel> Tournament<M> {
    /// No event at so many places.
    pub(crate) fn new(alloc: Global, places: usize) -> Result<Tournament<M>, AllocError>
        ensures { IfOk result (λ t. t ≡ replicate places None) }
    {
        let mut nodes = Vec::with_capacity(alloc, places.saturating_mul(2))?;
        for _place in 0..places {
            nodes.push(None)?;
            nodes.push(None)?;
        }
        Ok(Tournament { places, nodes })
    }

    /// No place.
    pub(crate) fn none(alloc: Global) -> Tournament<M>
        ensures { result ≡ [] }
    {
        Tournament {
            places: 0,
            nodes: Vec::new(alloc),
        }
    }

    /// How many places there are.
    pub(crate) fn len(&self) -> usize
        ensures { result ≡ length self.now }
    {
        self.places
    }

    /// The least event, with its place. Takes no memory.
    pub(crate) fn least(&self) -> Option<&Entry<M::Body>>
        ensures none { IfNone result
            ((place : Position) → slice_index_or self.now place None ≡ None) }
        ensures there { IfSome result (λ e.
            slice_index_or self.now e.now.place None ≡ Some e.now.event) }
        ensures least { IfSome result (λ e. (place : Position) (f : Event M.Body)
            → slice_index_or self.now place None ≡ Some f
            → AtMost (event_cmp M.Body.cmp) e.now.event f) }
    {
        self.nodes.get(1)?.as_ref()
    }

    /// Puts this event, or none, at the place, if there is such a place. Takes no memory.
    pub(crate) fn set(&mut self, place: usize, event: Option<Event<M::Body>>)
        ensures { self.new ≡ slice_set self.old place event }
    {
        if self.places <= place {
            return;
        }
        let leaf = self.places + place;
        self.nodes[leaf] = entry_of(place, event);
        replay::<M>(&mut self.nodes, leaf);
    }
}

/// The event, if there is one, at its place.
fn entry_of<B>(place: usize, event: Option<Event<B>>) -> Option<Entry<B>>
    ensures { result ≡ option_map (λ e. record { place = place; event = e }) event }
{
    let event = event?;
    Some(Entry { place, event })
}

/// Plays again what is above a node that changed, up to the top or to a node where nothing changes.
fn replay<M: VtModel>(nodes: &mut [Option<Entry<M::Body>>], changed: usize)
    requires size { length nodes.old % 2 ≡ 0 }
    requires changed { changed < length nodes.old }
    requires others { (k : Position) → 0 < k → 2 * k + 1 < length nodes.old → k ≢ changed / 2
        → IsPlayed (event_cmp M.Body.cmp) nodes.old k }
    ensures played { (k : Position) → 0 < k → 2 * k + 1 < length nodes.old
        → IsPlayed (event_cmp M.Body.cmp) nodes.new k }
    ensures same { (k : Position) → length nodes.old ≤ 2 * k
        → node_at nodes.new k ≡ node_at nodes.old k }
{
    let mut node = changed;
    while node > 1 {
        node /= 2;
        if !play::<M>(nodes, node) {
            return;
        }
    }
}

/// Puts the lesser of the two below a node there, and answers whether that changed it.
fn play<M: VtModel>(nodes: &mut [Option<Entry<M::Body>>], node: usize) -> bool
    requires { 2 * node + 1 < length nodes.old }
    ensures won { nodes.new ≡ slice_set nodes.old node (winner (event_cmp M.Body.cmp)
        (node_at nodes.old (2 * node)) (node_at nodes.old (2 * node + 1))) }
    ensures same { result ≡ false → nodes.new ≡ nodes.old }
{
    let won = winner_below(nodes, node);
    if is_same::<M>(&nodes[node], &won) {
        return false;
    }
    nodes[node] = won;
    true
}

/// The lesser of the two below a node.
fn winner_below<B: Ord + Copy>(nodes: &[Option<Entry<B>>], node: usize) -> Option<Entry<B>>
    requires { 2 * node + 1 < length nodes.now }
    ensures { result ≡ winner (event_cmp B.cmp)
        (node_at nodes.now (2 * node)) (node_at nodes.now (2 * node + 1)) }
{
    let first = 2 * node;
    if is_second_less(&nodes[first], &nodes[first + 1]) {
        nodes[first + 1]
    } else {
        nodes[first]
    }
}

/// Whether the second has an event, and the first has none or a greater one.
fn is_second_less<B: Ord + Copy>(first: &Option<Entry<B>>, second: &Option<Entry<B>>) -> bool
    ensures { result ≡ is_second_less (event_cmp B.cmp) first.now second.now }
{
    let Some(second) = second else {
        return false;
    };
    let Some(first) = first else {
        return true;
    };
    is_less(&second.event, &first.event)
}

/// Whether the event is less than the other. What tells most events apart is compared first: their times, sources and numbers.
fn is_less<B: Ord + Copy>(event: &Event<B>, other: &Event<B>) -> bool
    ensures { result ≡ is_gt (event_cmp B.cmp other.now event.now) }
{
    if event.time != other.time {
        return event.time < other.time;
    }
    if event.source != other.source {
        return event.source < other.source;
    }
    if event.number != other.number {
        return event.number < other.number;
    }
    other.cmp(event).is_gt()
}

/// Whether both are the same event at one place, or both none.
fn is_same<M: VtModel>(one: &Option<Entry<M::Body>>, other: &Option<Entry<M::Body>>) -> bool
    ensures { result ≡ true → one.now ≡ other.now }
{
    let Some(one) = one else {
        return other.is_none();
    };
    let Some(other) = other else {
        return false;
    };
    one.place == other.place && one.event.cmp(&other.event).is_eq()
}
