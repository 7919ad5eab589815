// Cases laid on a pile that is known to have room. The pile is the search's, which goes on with it, so it is handed on beside each case. How much room is said at each call: it depends on the pile and on what is to be laid there.
ghost use Rattle.std.specs.Prelude.{◌≡◌, ℕ, ◌<◌, List, [], ◌∷◌, length};
ghost use Rattle.heap.specs.declared.atoms.Atom.{Atom};
ghost use Rattle.heap.specs.Piles.{capacity, entries};
ghost use Rattle.pieces.specs.ModelChoices.{gather};
ghost use Rattle.pieces.specs.ModelStages.{Item};
ghost use Rattle.cases.specs.Items.{items_of, LaidAs};
ghost use Rattle.cases.specs.Rooms.{HasRoom, Gives, RoomFor};

use crate::cases::Case;
use heap::Pile;
use pieces::Node;

// One case on top. The pile has a slot free, by the bound that is proved; so it is never full here.
pub fn put(pile: &mut Pile<Case>, case: Case)
    requires { length (entries pile.old) < capacity pile.old }
    ensures piled { entries pile.new ≡ case ∷ entries pile.old }
    ensures room { capacity pile.new ≡ capacity pile.old }
{
    match pile.push(case) {
        Ok(()) => {}
        Err(_) => unreachable(),
    }
}

// The case on top, if there is one.
pub(crate) fn put_some(pile: &mut Pile<Case>, case: Option<Case>)
    requires { HasRoom (items_of [] [] case) pile.old }
    ensures piled { (names : List ℕ) (atoms : List Atom) → LaidAs names atoms (items_of names atoms case) (entries pile.old) (entries pile.new) }
    ensures room { capacity pile.new ≡ capacity pile.old }
{
    if let Some(case) = case {
        put(pile, case);
    }
}

// A case for each node that `make` gives one, that of the highest node on top.
pub(crate) fn put_each<F: Fn(Node) -> Option<Case>>(pile: &mut Pile<Case>, nodes: u8, make: F)
    requires callable { (j : ℕ) → j < nodes → F.pre make j }
    requires room { RoomFor (F.post make) nodes pile.old }
    ensures piled { (names : List ℕ) (atoms : List Atom) (f : ℕ → List Item) → Gives (F.post make) nodes names atoms f → LaidAs names atoms (gather nodes f) (entries pile.old) (entries pile.new) }
    ensures room { capacity pile.new ≡ capacity pile.old }
{
    for j in 0..nodes {
        put_some(pile, make(j));
    }
}
