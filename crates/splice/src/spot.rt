// Where a node is put, by the target's links, once for the four places and chosen by values.
ghost use Rattle.std.specs.Prelude.{◌≡◌};
ghost use Rattle.link.specs.Words.{PARENT, link};
ghost use Rattle.moves.specs.Places.{spot};
ghost use Rattle.splice.specs.Splice.{Within, beside_word, is_under, is_behind};

use link::choice::choose;
use link::id::slot_of;
use link::words::{Slot, get_word};
use moves::place::{Place, Spot};

// The word of the target that names the node's other neighbour.
fn beside_word(place: Place) -> u32
    ensures { result ≡ beside_word place }
{
    match place {
        Place::Append => Slot::LAST,
        Place::Prepend => Slot::FIRST,
        Place::After => Slot::NEXT,
        Place::Before => Slot::PREVIOUS,
    }
}

// Whether the target is the parent.
fn is_under(place: Place) -> bool
    ensures { result ≡ is_under place }
{
    matches!(place, Place::Append | Place::Prepend)
}

// Whether that neighbour comes before the node.
fn is_behind(place: Place) -> bool
    ensures { result ≡ is_behind place }
{
    matches!(place, Place::Append | Place::Before)
}

// Above is the target's parent.
pub fn spot(words: &[u32], place: Place, target: u32, above: u32) -> Spot
    requires { Within words.now target × (above ≡ link words.now target PARENT) }
    ensures { result ≡ spot place words.now target }
{
    let beside = get_word(words, slot_of(target), beside_word(place));
    let under = is_under(place);
    let behind = is_behind(place);
    let other = choose(under, 0, target);
    Spot {
        parent: choose(under, target, above),
        previous: choose(behind, beside, other),
        next: choose(behind, other, beside),
    }
}
