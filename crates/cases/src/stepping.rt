// Rows done in a case.
ghost use Rattle.std.specs.Prelude.{◌≡◌, ℕ, suc, ◌+◌, ◌<◌, ◌≤◌, true, not, ◌||◌, List, ◌++◌, ◌==◌};
ghost use Rattle.heap.specs.declared.atoms.Atom.{Atom};
ghost use Rattle.heap.specs.Piles.{capacity, entries};
ghost use Rattle.pieces.specs.ModelCases.{aim as aim_of, cells};
ghost use Rattle.pieces.specs.ModelCover.{is_dead};
ghost use Rattle.pieces.specs.ModelShapes.{Shape, short, long, new_apart, SoundShape};
ghost use Rattle.cases.specs.declared.cases.Case.{Case};
ghost use Rattle.cases.specs.Items.{shape_of, items_of, Ready, LaidOn};
ghost use Rattle.cases.specs.Rooms.{HasRoom, Acts};
ghost use Rattle.cases.specs.Steps.{loaded, stored, freed, misses_by, SmallStep, touching, new_at, nexts_by, weighs};

use crate::cases::{Case, Stage};
use crate::piling::{put, put_each};
use crate::steps::Step;
use heap::{Name, Pile};
use pieces::{Edge, Node};

impl Case {
    // The node of a name.
    pub(crate) fn node(&self, x: Name) -> Node
        requires { x < 9 }
        ensures { result ≡ (shape_of self.now).name x }
    {
        self.names[usize::from(x)]
    }

    // Whether the node of a name is dead.
    fn is_dead_at(&self, x: Name) -> bool
        requires name { x < 9 }
        requires node { (shape_of self.now).name x < 17 }
        ensures { result ≡ is_dead ((shape_of self.now).edge ((shape_of self.now).name x)) }
    {
        self.edges[usize::from(self.node(x))] == Edge::Dead
    }

    // Whether the step touches a cell that is not live.
    pub fn misses(&self, step: Step) -> bool
        requires sound { SoundShape (shape_of self.now) }
        requires small { SmallStep step }
        ensures { result ≡ misses_by step (shape_of self.now) }
    {
        match step {
            Step::Load { cell, .. } | Step::Store { cell, .. } | Step::Free { cell } =>
                self.is_dead_at(cell),
            _ => false,
        }
    }
}

// Where an edge leads. Nil where it is dead and no Option: no row loads from a dead cell, and an Option would have to be opened again where it cannot be none.
fn aim(edge: Edge) -> Node
    ensures { result ≡ aim_of edge }
{
    match edge {
        Edge::Dead => 0,
        Edge::Cell(to) | Edge::Segment(to) => to,
    }
}

impl Case {
    // The case at another row.
    fn at_row(mut self, row: u8) -> Case
        ensures shape { shape_of result ≡ shape_of self }
        ensures row { result.row ≡ row }
        ensures stage { result.stage ≡ self.stage }
    {
        self.row = row;
        self
    }

    fn next_row(self) -> Case
        requires { self.row ≤ 41 }
        ensures shape { shape_of result ≡ shape_of self }
        ensures row { result.row ≡ suc self.row }
        ensures stage { result.stage ≡ self.stage }
    {
        self.at_row(self.row + 1)
    }

    // The name at the link of the cell of another; the row is then the next.
    fn loaded(self, into: Name, cell: Name) -> Case
        requires sound { SoundShape (shape_of self) }
        requires into { into < 9 }
        requires cell { cell < 9 }
        requires low { self.row ≤ 41 }
        ensures shape { shape_of result ≡ loaded into cell (shape_of self) }
        ensures row { result.row ≡ suc self.row }
        ensures stage { result.stage ≡ self.stage }
    {
        let edge = self.edges[usize::from(self.node(cell))];
        self.with_name(into, aim(edge)).next_row()
    }

    // The cell of a name linked to the node of another; the row is then the next.
    fn stored(self, cell: Name, link: Name) -> Case
        requires sound { SoundShape (shape_of self) }
        requires cell { cell < 9 }
        requires link { link < 9 }
        requires low { self.row ≤ 41 }
        ensures shape { shape_of result ≡ stored cell link (shape_of self) }
        ensures row { result.row ≡ suc self.row }
        ensures stage { result.stage ≡ self.stage }
    {
        let target = self.node(link);
        self.with_edge(self.node(cell), Edge::Cell(target))
            .next_row()
    }

    // The cell of a name no longer live; the row is then the next.
    fn freed(self, cell: Name) -> Case
        requires sound { SoundShape (shape_of self) }
        requires cell { cell < 9 }
        requires low { self.row ≤ 41 }
        ensures shape { shape_of result ≡ freed cell (shape_of self) }
        ensures row { result.row ≡ suc self.row }
        ensures stage { result.stage ≡ self.stage }
    {
        self.with_edge(self.node(cell), Edge::Dead).next_row()
    }

    // A segment from node i to node t as one cell.
    fn shorter(self, i: Node, t: Node) -> Case
        requires { i < 17 }
        ensures shape { shape_of result ≡ short (shape_of self) i t }
        ensures row { result.row ≡ self.row }
        ensures stage { result.stage ≡ self.stage }
    {
        self.with_edge(i, Edge::Cell(t))
    }

    // A segment from node i to node t as a cell and a segment from a new node.
    fn longer(self, i: Node, t: Node) -> Case
        requires node { i < 17 }
        requires room { self.nodes < 17 }
        ensures shape { shape_of result ≡ long (shape_of self) i t }
        ensures row { result.row ≡ self.row }
        ensures stage { result.stage ≡ self.stage }
    {
        self.with_edge(i, Edge::Cell(self.nodes))
            .with_node(Edge::Segment(t))
    }
}

// What `act` makes of a case with a cell at the node of name x: nothing where that is dead; a segment there is first split.
fn touch<F: Fn(Case) -> Case>(pile: &mut Pile<Case>, case: Case, x: Name, act: F)
    requires callable { (k : Case) → SoundShape (shape_of k) → k.row ≤ 41 → F.pre act k }
    requires ready { Ready case }
    requires grows { case.nodes < 17 }
    requires name { x < 9 }
    requires room { (f : Shape → Shape) × HasRoom (touching f case.row (cells (shape_of case) ((shape_of case).name x))) pile.old }
    ensures piled { (f : Shape → Shape) → Acts (F.post act) f → LaidOn (touching f case.row (cells (shape_of case) ((shape_of case).name x))) (entries pile.old) (entries pile.new) }
    ensures room { capacity pile.new ≡ capacity pile.old }
{
    let i = case.node(x);
    let edge = case.edges[usize::from(i)];
    match edge {
        Edge::Dead => {}
        Edge::Cell(_) => put(pile, act(case)),
        Edge::Segment(t) => {
            put(pile, act(case.longer(i, t)));
            put(pile, act(case.shorter(i, t)));
        }
    }
}

impl Case {
    // Whether a cell may come to be at the node: it is dead, and not nil.
    pub(crate) fn is_spare(&self, j: Node) -> bool
        requires { j < 17 }
        ensures { result ≡ not (j == 0 || not (is_dead ((shape_of self.now).edge j))) }
    {
        j != 0 && self.edges[usize::from(j)] == Edge::Dead
    }

    // The name at a new cell at the node, if one may be there, its link nil; the row is then the next.
    fn new_at(self, x: Name, j: Node) -> Option<Case>
        requires ready { Ready self }
        requires name { x < 9 }
        requires node { j < 17 }
        ensures { (names : List ℕ) (atoms : List Atom) → items_of names atoms result ≡ new_at x self.row (shape_of self) j }
    {
        self.is_spare(j).then_some(self.with_edge(j, Edge::Cell(0)).with_name(x, j).next_row())
    }

    // The name at a new cell at a node of its own, its link nil; the row is then the next.
    fn new_apart(self, x: Name) -> Case
        requires name { x < 9 }
        requires room { self.nodes < 17 }
        requires low { self.row ≤ 41 }
        ensures shape { shape_of result ≡ new_apart (shape_of self) x }
        ensures row { result.row ≡ suc self.row }
        ensures stage { result.stage ≡ self.stage }
    {
        self.with_node(Edge::Cell(0))
            .with_name(x, self.nodes)
            .next_row()
    }
}

// A new cell: at a node of its own, or at each dead one but nil.
fn allocate(pile: &mut Pile<Case>, case: Case, x: Name)
    requires ready { Ready case }
    requires grows { case.nodes < 17 }
    requires name { x < 9 }
    requires room { HasRoom (nexts_by (Step.New x) case.row (shape_of case)) pile.old }
    ensures piled { LaidOn (nexts_by (Step.New x) case.row (shape_of case)) (entries pile.old) (entries pile.new) }
    ensures room { capacity pile.new ≡ capacity pile.old }
{
    put_each(pile, case.nodes, |j| case.new_at(x, j));
    put(pile, case.new_apart(x));
}

// One row done: the cases behind a case, laid on the pile. By `match`: a step is data, that of a row that was read.
pub(crate) fn advance(pile: &mut Pile<Case>, case: Case, step: Step)
    requires ready { Ready case }
    requires grows { weighs step ≡ true → case.nodes < 17 }
    requires small { SmallStep step }
    requires room { HasRoom (nexts_by step case.row (shape_of case)) pile.old }
    ensures piled { LaidOn (nexts_by step case.row (shape_of case)) (entries pile.old) (entries pile.new) }
    ensures room { capacity pile.new ≡ capacity pile.old }
{
    match step {
        Step::Set { into, from } => put(pile, case.with_name(into, case.node(from)).next_row()),
        Step::Load { into, cell } => touch(pile, case, cell, |k| k.loaded(into, cell)),
        Step::Store { cell, link } => touch(pile, case, cell, |k| k.stored(cell, link)),
        Step::Free { cell } => touch(pile, case, cell, |k| k.freed(cell)),
        Step::New { into } => allocate(pile, case, into),
        Step::Jump { to } => put(pile, case.at_row(to)),
        Step::Branch { left, right, to } => {
            if case.are_equal(left, right) {
                put(pile, case.at_row(to));
            } else {
                put(pile, case.next_row());
            }
        }
        Step::Close => {}
    }
}
