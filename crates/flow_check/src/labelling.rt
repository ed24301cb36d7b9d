//! The labelling: the abstract state of each program point, and which of them changed.

ghost use Rattle.std.specs.Prelude.{◌≡◌, ◌≤◌, ◌<◌, ◌+◌, ◌*◌, ◌++◌, ◌∷◌, [], length, drop, true, false, ℕ};
ghost use Rattle.std.specs.Prelude.{List, Bool, IfSome, IfOk, OnOk, Some, None, slice_get, slice_set};
ghost use Rattle.flow_rule.specs.declared.AbstractState.{AbstractState};
ghost use Rattle.flow_rule.specs.Iterations.{join_in, join_all, ProgramPoint, PointState, FlowStep};
ghost use Rattle.flow_check.specs.internal.Points.{fronts_of, program_point, list_of, state_at, points_at};
ghost use Rattle.flow_check.specs.internal.Points.{point_at, points_of};
ghost use Rattle.flow_check.specs.internal.Labellings.{mark_at, changed_points, same_at, Listed, Fewer, KeptPoints, NoMark};
ghost use Rattle.flow_check.specs.internal.Labellings.{Absent, PointsPlaced, point_place, Reached, StillKept, joined_point};
ghost use Rattle.std.specs.List.Sorted.{IsNonDecreasing};

use crate::call_string::CallString;
use crate::domain::join_states;
use crate::point::{Key, Point};
use flow_rule::{AbstractState, Val};
use std::alloc::{AllocError, Global};
use std::collections::BTreeMap;
use std::marker::Model;

/// A program point with its state, and whether that changed in the last iteration.
#[derive(Clone, Copy)]
pub struct Node {
    pub point: Point,
    pub changed: bool,
}

/// A program point whose state changed, with its place.
#[derive(Clone, Copy)]
pub struct Changed {
    pub place: usize,
    pub point: Point,
}

/// The program points with their states.
#[derive(Drop)]
pub struct Labelling {
    nodes: Vec<Node>,
    /// The place of each program point.
    places: BTreeMap<Key, usize>,
    /// The places of those that changed.
    worklist: Vec<usize>,
}

impl Model for Labelling {
    ghost use Rattle.std.specs.Prelude.{List};
    ghost use Rattle.flow_check.specs.declared.labelling.Node.{Node};
    ghost use Rattle.flow_check.specs.internal.Labellings.{Listed, PointsPlaced};

    ghost Value = { List Node };

    ghost view = { λ l. l.nodes.items };

    // the map has the place of each program point, so that none stands twice, and the worklist those of them that changed
    ghost invariant = { λ l. PointsPlaced l.nodes.items l.places × Listed l.nodes.items l.worklist.items };
}

/// Whether one of these is this program point.
fn same_at(nodes: &[Node], point: &Point, i: usize) -> bool
    ensures { result ≡ same_at (program_point point.now) nodes.now i }
{
    match nodes.get(i) {
        Some(found) => found.point.is_same(point),
        None => false,
    }
}

/// The place that a map has of a program point.
fn place(places: &BTreeMap<Key, usize>, point: &Point) -> Option<usize>
    ensures { result ≡ point_place places.now (program_point point.now) }
{
    places.get(&point.key()).copied()
}

/// Notes the place of a program point that has none.
fn note_place(places: &mut BTreeMap<Key, usize>, point: &Point, at: usize) -> Result<(), AllocError>
    ensures placed { (ns : List Node) → Absent (program_point point.now) ns → PointsPlaced ns places.old → PointsPlaced ns places.new }
    ensures noted { OnOk result (point_place places.new (program_point point.now) ≡ Some at) }
{
    places.insert(point.key(), at)?;
    Ok(())
}

/// Joins a state to the state there, whose place is then in the worklist if it changed.
#[tactic(auto, using(crate::proofs::Taking::set_same, crate::proofs::Taking::points_rise, crate::proofs::Taking::kept_rise, crate::proofs::Marked::listed_set, crate::proofs::Marked::listed_same, crate::proofs::Placing::same_pairs))]
fn raise(
    nodes: &mut Vec<Node>,
    worklist: &mut Vec<usize>,
    at: usize,
    state: &AbstractState,
) -> Result<(), AllocError>
    requires { at < length nodes.old.items }
    ensures points { (n : Node) → slice_get nodes.old.items at ≡ Some n → points_of nodes.new.items
        ≡ slice_set (points_of nodes.old.items) at (joined_point (point_at n.point) state.now) }
    ensures pairs { (p : ProgramPoint) (i : ℕ) → same_at p nodes.new.items i ≡ same_at p nodes.old.items i }
    ensures listed { Listed nodes.old.items worklist.old.items → Listed nodes.new.items worklist.new.items }
    ensures kept { IfOk result (λ _. StillKept nodes.old.items nodes.new.items) }
{
    let node = &mut nodes[at];
    if join_states(&mut node.point.state, state) {
        if !node.changed {
            worklist.push(at)?;
        }
        node.changed = true;
    }
    Ok(())
}

/// The point there, if it changed.
#[tactic(auto, using(crate::proofs::Taking::node_is))]
fn changed_at(nodes: &[Node], i: usize) -> Option<Changed>
    ensures some { IfSome result (λ c. slice_get nodes.now i ≡ Some record { point = c.point; changed = true }) }
    ensures none { result ≡ None → mark_at nodes.now i ≡ false }
{
    match nodes.get(i) {
        Some(node) if node.changed => Some(Changed {
            place: i,
            point: node.point,
        }),
        Some(_) | None => None,
    }
}

/// Moves the program point there to the front, if it changed.
#[tactic(auto, using(crate::proofs::Taking::take_first, crate::proofs::Taking::points_cleared, crate::proofs::Taking::here_off, crate::proofs::Taking::fewer_set))]
fn take_mark(nodes: &mut Vec<Node>, i: usize, front: &mut Vec<Changed>) -> Result<(), AllocError>
    requires clear { (k : ℕ) → k < i → mark_at nodes.old.items k ≡ false }
    ensures more { IfOk result (λ _. fronts_of front.old.items ++ changed_points nodes.old.items
        ≡ fronts_of front.new.items ++ changed_points nodes.new.items) }
    ensures points { points_of nodes.new.items ≡ points_of nodes.old.items }
    ensures off { IfOk result (λ _. mark_at nodes.new.items i ≡ false) }
    ensures fewer { Fewer nodes.old.items nodes.new.items }
{
    if let Some(changed) = changed_at(nodes.as_slice(), i) {
        front.push(changed)?;
        nodes[i].changed = false;
    }
    Ok(())
}

/// The same of the program points in these places.
#[tactic(auto, using(crate::proofs::Taking::all_taken, crate::proofs::Marked::from_all, crate::proofs::Marked::none_below, crate::proofs::Marked::from_next, crate::proofs::Marked::from_end))]
fn take_marks(
    nodes: &mut Vec<Node>,
    places: &[usize],
    front: &mut Vec<Changed>,
) -> Result<(), AllocError>
    requires ascending { IsNonDecreasing places.now }
    requires listed { Listed nodes.old.items places.now }
    ensures more { IfOk result (λ _. fronts_of front.old.items ++ changed_points nodes.old.items
        ≡ fronts_of front.new.items) }
    ensures points { points_of nodes.new.items ≡ points_of nodes.old.items }
    ensures clear { IfOk result (λ _. NoMark nodes.new.items) }
    ensures fewer { Fewer nodes.old.items nodes.new.items }
{
    for at in places {
        take_mark(nodes, *at, front)?;
    }
    Ok(())
}

impl Labelling {
    /// The first program point with its state, which changed.
    #[tactic(auto, using(crate::proofs::Verdicts::started, crate::proofs::Placing::placed_none))]
    pub fn begin(alloc: Global, start: u16, first: &AbstractState) -> Result<Labelling, AllocError>
        ensures few { IfOk result (λ all. length all ≤ 16384) }
        ensures reached { IfOk result (λ all. (step : PointState → FlowStep) →
            Reached step record { point = record { addr = start; call_string = [] }; state = first.now } all) }
    {
        let mut all = Labelling {
            nodes: Vec::new(alloc),
            places: BTreeMap::new(alloc),
            worklist: Vec::new(alloc),
        };
        let point = Point {
            addr: start,
            call_string: CallString::new(),
            state: *first,
        };
        all.add(&point)?;
        Ok(all)
    }

    /// The number of program points.
    pub fn len(&self) -> usize
        ensures { result ≡ length self.now }
    {
        self.nodes.len()
    }

    /// The point there.
    #[tactic(auto, using(crate::proofs::Taking::points_drop))]
    pub fn point(&self, i: usize) -> Point
        requires { i < length self.now }
        ensures { points_of (drop i self.now) ≡ point_at result ∷ points_of (drop (i + 1) self.now) }
    {
        self.nodes[i].point
    }

    /// Moves the points that changed to the front, in order.
    #[tactic(auto, using(crate::proofs::Marked::listed_sorted, crate::proofs::Marked::listed_fewer, crate::proofs::Marked::listed_none, crate::proofs::Placing::placed_points))]
    pub fn take_changed(&mut self, front: &mut Vec<Changed>) -> Result<(), AllocError>
        requires empty { front.old.items ≡ [] }
        requires few { length self.old ≤ 16384 }
        ensures front { IfOk result (λ _. fronts_of front.new.items ≡ changed_points self.old) }
        ensures points { points_of self.new ≡ points_of self.old }
        ensures clear { IfOk result (λ _. NoMark self.new) }
    {
        self.worklist.sort_unstable();
        take_marks(&mut self.nodes, self.worklist.as_slice(), front)?;
        self.worklist.clear();
        Ok(())
    }

    /// Joins a point's state to that of its place.
    #[tactic(auto, using(crate::proofs::Placing::placed_same))]
    fn rise(&mut self, at: usize, point: &Point) -> Result<(), AllocError>
        requires { same_at (program_point point.now) self.old at ≡ true }
        ensures joined { points_of self.new ≡ join_in (point_at point.now) (points_of self.old) }
        ensures kept { IfOk result (λ _. StillKept self.old self.new) }
    {
        raise(&mut self.nodes, &mut self.worklist, at, &point.state)
    }

    /// One program point more.
    #[tactic(auto, using(crate::proofs::Taking::kept_new, crate::proofs::Labellings::joins_new, crate::proofs::Marked::listed_push, crate::proofs::Marked::listed_more, crate::proofs::Placing::placed_push))]
    fn add(&mut self, point: &Point) -> Result<(), AllocError>
        requires { (k : ℕ) → k < length self.old → same_at (program_point point.now) self.old k ≡ false }
        ensures added { IfOk result (λ _. self.new ≡ self.old ++ record { point = point.now; changed = true } ∷ []) }
        ensures joined { IfOk result (λ _. points_of self.new ≡ join_in (point_at point.now) (points_of self.old)) }
        ensures kept { IfOk result (λ _. StillKept self.old self.new) }
    {
        let at = self.nodes.len();
        self.worklist.push(at)?;
        note_place(&mut self.places, point, at)?;
        self.nodes.push(Node {
            point: *point,
            changed: true,
        })?;
        Ok(())
    }

    /// The place of a program point, if it is there: where memory ran out, the map has one more.
    #[tactic(auto, using(crate::proofs::Placing::absent_none, crate::proofs::Placing::absent_other))]
    fn find(&self, point: &Point) -> Option<usize>
        ensures there { IfSome result (λ i. same_at (program_point point.now) self.now i ≡ true) }
        ensures absent { result ≡ None → Absent (program_point point.now) self.now }
    {
        match place(&self.places, point) {
            Some(at) if same_at(self.nodes.as_slice(), point, at) => Some(at),
            Some(_) | None => None,
        }
    }

    /// Joins a point's state to that of its place.
    fn join_in(&mut self, point: &Point) -> Result<(), AllocError>
        ensures joined { IfOk result (λ _. points_of self.new ≡ join_in (point_at point.now) (points_of self.old)) }
        ensures kept { IfOk result (λ _. StillKept self.old self.new) }
    {
        match self.find(point) {
            Some(at) => self.rise(at, point),
            None => self.add(point),
        }
    }

    /// Joins a state, with this address in PC's place.
    #[tactic(auto, using(crate::proofs::Points::take_more))]
    fn take_one(
        &mut self,
        to: u16,
        state: &mut AbstractState,
        call_string: &CallString,
    ) -> Result<(), AllocError>
        ensures state { state.new ≡ state_at to state.old }
        ensures joined { IfOk result (λ _. (rest : List ℕ) →
            join_all (points_at (to ∷ rest) (list_of call_string.now) state.old) (points_of self.old)
            ≡ join_all (points_at rest (list_of call_string.now) state.new) (points_of self.new)) }
        ensures kept { IfOk result (λ _. StillKept self.old self.new) }
    {
        state.core[0] = Val::Known(to);
        let point = Point {
            addr: to,
            call_string: *call_string,
            state: *state,
        };
        self.join_in(&point)
    }

    /// Joins what a step gave.
    pub fn take(
        &mut self,
        state: &mut AbstractState,
        targets: &[u16],
        call_string: &CallString,
    ) -> Result<(), AllocError>
        ensures joined { IfOk result (λ _. points_of self.new
            ≡ join_all (points_at targets.now (list_of call_string.now) state.old) (points_of self.old)) }
        ensures kept { IfOk result (λ _. StillKept self.old self.new) }
    {
        for to in targets {
            self.take_one(*to, state, call_string)?;
        }
        Ok(())
    }
}
