// The opening of a piece: its names are placed one by one, then its atoms are added.
ghost use Rattle.std.specs.Prelude.{◌≡◌, ℕ, ◌+◌, ◌<◌, ◌≤◌, not, ◌||◌, List, length, drop, slice_index_or, ◌==◌};
ghost use Rattle.heap.specs.declared.atoms.Atom.{Atom as AtomT};
ghost use Rattle.heap.specs.Piles.{capacity, entries};
ghost use Rattle.pieces.specs.ModelBounds.{AtomSmall};
ghost use Rattle.pieces.specs.ModelOpening.{clashes, clash as clash_in};
ghost use Rattle.pieces.specs.ModelShapes.{SoundShape, set_edge};
ghost use Rattle.pieces.specs.ModelStages.{laid};
ghost use Rattle.cases.specs.Items.{shape_of, stage_in, items_of, LaidAs, SmallAtoms, SmallNames, Workable, Grows};
ghost use Rattle.cases.specs.Openings.{placed_at, placings, addings, linkings, afters_by};
ghost use Rattle.cases.specs.Rooms.{HasRoom};
ghost use Rattle.cases.specs.Steps.{SmallStep};

use crate::cases::{Case, Stage};
use crate::piling::{put, put_each, put_some};
use crate::stepping::advance;
use crate::steps::Step;
use heap::{Atom, Name, Pile};
use pieces::{Edge, Node};

// The names and the atoms that a piece opens with.
#[derive(Clone, Copy)]
pub struct Opening<'a> {
    names: &'a [Name],
    atoms: &'a [Atom],
    ghost few_names: { length names.now ≤ 8 },
    ghost small_names: { (i d : ℕ) → i < length names.now → slice_index_or names.now i d < 9 },
    ghost few_atoms: { length atoms.now ≤ 16 },
    ghost small_atoms: { SmallAtoms atoms.now },
}

impl Case {
    // Whether two names are at one node.
    pub(crate) fn are_equal(&self, x: Name, y: Name) -> bool
        requires left { x < 9 }
        requires right { y < 9 }
        ensures { result ≡ ((shape_of self.now).name x == (shape_of self.now).name y) }
    {
        self.node(x) == self.node(y)
    }

    // Whether an atom is an Eq or a Neq whose names are both placed, and is false; `later` are the names that are not placed yet.
    fn clashes_with(&self, atom: &Atom, later: &[Name]) -> bool
        requires { AtomSmall atom.now }
        ensures { result ≡ clashes later.now (shape_of self.now) atom.now }
    {
        match atom {
            Atom::Eq { left, right } => !(later.contains(left)
                || (later.contains(right) || self.are_equal(*left, *right))),
            Atom::Neq { left, right } => !(later.contains(left)
                || (later.contains(right) || !self.are_equal(*left, *right))),
            _ => false,
        }
    }

    // Whether some atom of the list is false already.
    fn clashes_in(&self, atoms: &[Atom], later: &[Name]) -> bool
        requires { SmallAtoms atoms.now }
        ensures { result ≡ clash_in later.now (shape_of self.now) atoms.now }
    {
        atoms.iter().any(|atom| self.clashes_with(atom, later))
    }

    // A segment from node i to node k, and then another stage.
    fn linked(self, i: Node, k: Node, stage: Stage) -> Case
        requires { i < 17 }
        ensures shape { shape_of result ≡ set_edge (shape_of self) i (Edge.Segment k) }
        ensures row { result.row ≡ self.row }
        ensures stage { result.stage ≡ stage }
    {
        self.with_edge(i, Edge::Segment(k)).at_stage(stage)
    }

    // A segment from node i on its way to node j goes over node k, unless k is one of the two, or nil, or has an edge; the atoms from `next` on come behind it.
    fn linked_over(self, i: Node, j: Node, k: Node, next: u8) -> Option<Case>
        requires from { i < 17 }
        requires over { k < 17 }
        ensures { (names : List ℕ) (atoms : List AtomT) → items_of names atoms result ≡ laid (shape_of self) i j (drop next atoms) self.row k }
    {
        let may_pass = k != i && k != j && self.is_spare(k);
        may_pass.then_some(self.linked(
            i,
            k,
            Stage::Linking {
                from: k,
                to: j,
                next,
            },
        ))
    }

    // One atom added, if it does not contradict what is there; the atoms from `next` on come behind it. Of a segment only where it starts and ends.
    fn added(self, atom: &Atom, next: u8) -> Option<Case>
        requires sound { SoundShape (shape_of self) }
        requires small { AtomSmall atom.now }
        ensures { (names : List ℕ) (atoms : List AtomT) → items_of names atoms result ≡ addings atom.now (drop next atoms) self.row (shape_of self) }
    {
        let onward = self.at_stage(Stage::Adding(next));
        match atom {
            Atom::Eq { left, right } => self.are_equal(*left, *right).then_some(onward),
            Atom::Neq { left, right } => (!self.are_equal(*left, *right)).then_some(onward),
            Atom::Next { cell, link } => {
                let i = self.node(*cell);
                let to = self.node(*link);
                self.is_spare(i)
                    .then_some(onward.with_edge(i, Edge::Cell(to)))
            }
            Atom::Lseg { from, to } => {
                let i = self.node(*from);
                let j = self.node(*to);
                let linking = Stage::Linking {
                    from: i,
                    to: j,
                    next,
                };
                Some(if i == j {
                    onward
                } else {
                    self.at_stage(linking)
                })
            }
        }
    }
}

// A segment from node i to node j: straight there, or first to a node on its way; the atoms from `next` on come behind it.
fn link(pile: &mut Pile<Case>, case: Case, i: Node, j: Node, next: u8)
    requires node { i < 17 }
    requires room { (atoms : List AtomT) × HasRoom (linkings i j (drop next atoms) case.row (shape_of case)) pile.old }
    ensures piled { (names : List ℕ) (atoms : List AtomT) → LaidAs names atoms (linkings i j (drop next atoms) case.row (shape_of case)) (entries pile.old) (entries pile.new) }
    ensures room { capacity pile.new ≡ capacity pile.old }
{
    if case.is_spare(i) {
        put_each(pile, case.nodes, |k| case.linked_over(i, j, k, next));
        put(pile, case.linked(i, j, Stage::Adding(next)));
    }
}

impl<'a> Opening<'a> {
    // What a piece opens with. It asks that names and atoms are small, which whoever reads a sheet knows of it.
    pub fn new(names: &'a [Name], atoms: &'a [Atom]) -> Opening<'a>
        requires names { SmallNames names.now }
        requires atoms { SmallAtoms atoms.now }
        requires few { length atoms.now ≤ 16 }
        ensures names { result.names.now ≡ names.now }
        ensures atoms { result.atoms.now ≡ atoms.now }
    {
        Opening { names, atoms }
    }

    // The name of index k at node j, unless an atom is false then.
    fn placed_at(&self, case: Case, k: u8, j: Node) -> Option<Case>
        requires { k < length self.now.names.now }
        ensures { items_of self.now.names.now self.now.atoms.now result ≡ placed_at self.now.names.now self.now.atoms.now k case.row (shape_of case) j }
    {
        let at = usize::from(k);
        let placed = case
            .with_name(self.names[at], j)
            .at_stage(Stage::Placing(k + 1));
        (!placed.clashes_in(self.atoms, &self.names[at + 1..])).then_some(placed)
    }

    // The name of index k placed: at a node of its own, or at any that is there.
    fn place(&self, pile: &mut Pile<Case>, case: Case, k: u8)
        requires index { k < length self.now.names.now }
        requires nodes { case.nodes < 17 }
        requires room { HasRoom (placings self.now.names.now self.now.atoms.now k case.row (shape_of case)) pile.old }
        ensures piled { LaidAs self.now.names.now self.now.atoms.now (placings self.now.names.now self.now.atoms.now k case.row (shape_of case)) (entries pile.old) (entries pile.new) }
        ensures room { capacity pile.new ≡ capacity pile.old }
    {
        put_each(pile, case.nodes, |j| self.placed_at(case, k, j));
        put_some(
            pile,
            self.placed_at(case.with_node(Edge::Dead), k, case.nodes),
        );
    }

    // The name of index k placed, or on to the atoms where all are.
    fn place_next(&self, pile: &mut Pile<Case>, case: Case, k: u8)
        requires nodes { k < length self.now.names.now → case.nodes < 17 }
        requires room { HasRoom (afters_by Step.Close (stage_in self.now.names.now self.now.atoms.now (Stage.Placing k)) case.row (shape_of case)) pile.old }
        ensures piled { LaidAs self.now.names.now self.now.atoms.now (afters_by Step.Close (stage_in self.now.names.now self.now.atoms.now (Stage.Placing k)) case.row (shape_of case)) (entries pile.old) (entries pile.new) }
        ensures room { capacity pile.new ≡ capacity pile.old }
    {
        if usize::from(k) < self.names.len() {
            self.place(pile, case, k);
        } else {
            put(pile, case.at_stage(Stage::Adding(0)));
        }
    }

    // The case with the atom of index k added, if that can be, or on to the rows where all are.
    fn add_next(&self, case: Case, k: u8) -> Option<Case>
        requires { SoundShape (shape_of case) }
        ensures { items_of self.now.names.now self.now.atoms.now result ≡ afters_by Step.Close (stage_in self.now.names.now self.now.atoms.now (Stage.Adding k)) case.row (shape_of case) }
    {
        match self.atoms.get(usize::from(k)) {
            Some(atom) => case.added(atom, k + 1),
            None => Some(case.at_stage(Stage::Running)),
        }
    }

    // Lays the cases behind a case on the pile; the step is that of its row.
    // By `match`: how far an opening is done lies in lent memory, where no function can lie.
    pub fn expand(&self, pile: &mut Pile<Case>, case: Case, step: Step)
        requires work { Workable self.now.names.now self.now.atoms.now case }
        requires grows { Grows self.now.names.now step case.stage case.nodes }
        requires step { SmallStep step }
        requires room { HasRoom (afters_by step (stage_in self.now.names.now self.now.atoms.now case.stage) case.row (shape_of case)) pile.old }
        ensures piled { LaidAs self.now.names.now self.now.atoms.now (afters_by step (stage_in self.now.names.now self.now.atoms.now case.stage) case.row (shape_of case)) (entries pile.old) (entries pile.new) }
        ensures room { capacity pile.new ≡ capacity pile.old }
    {
        match case.stage {
            Stage::Placing(k) => self.place_next(pile, case, k),
            Stage::Adding(k) => put_some(pile, self.add_next(case, k)),
            Stage::Linking { from, to, next } => link(pile, case, from, to, next),
            Stage::Running => advance(pile, case, step),
        }
    }
}
