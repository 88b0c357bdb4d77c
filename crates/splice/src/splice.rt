// A node taken out of its chain, and nodes tied into one. All that is asked for is that the nodes named lie within the memory.
// Which word is written is chosen by values, not by branches: in a tree there is nothing to predict.
ghost use Rattle.std.specs.Prelude.{◌≡◌, ◌+◌, ◌*◌, ◌<◌};
ghost use Rattle.link.specs.Ids.{slot_of};
ghost use Rattle.link.specs.Words.{width, PARENT, PREVIOUS, NEXT, link};
ghost use Rattle.splice.specs.Splice.{Within, NoneOrWithin, PlaceWithin, led, taken_out, tied_in, put_in};

use link::choice::choose;
use link::id::slot_of;
use link::words::{Slot, get_word, set_word};
use moves::place::Spot;

// Where word k of an identifier's slot lies, counted from a slot before the first: so that none has one too, for `choose` to pick from.
fn place_of(id: u32, k: u32) -> usize
    requires { k < width }
    ensures { result ≡ slot_of id * width + k }
{
    (slot_of(id) as usize) * Slot::WORDS + (k as usize)
}

// The two words that lead to a place from one side: the neighbour's along the chain, or the parent's to that end of it.
#[derive(Clone, Copy)]
struct Side {
    along: u32,
    end: u32,
}

impl Side {
    const LEFT: Side = Side {
        along: Slot::NEXT,
        end: Slot::FIRST,
    };

    const RIGHT: Side = Side {
        along: Slot::PREVIOUS,
        end: Slot::LAST,
    };
}

// Writes v to the word that leads to a place from one side: a word of the neighbour, else of the parent, else of a spare node.
// The neighbour and the parent are no `Spot`: it has two neighbours, and here the side's one counts, so taking it apart is plainer.
fn lead(words: &mut [u32], spare: u32, parent: u32, neighbour: u32, side: Side, v: u32)
    requires { Within words.old spare × NoneOrWithin words.old parent × NoneOrWithin words.old neighbour × (side.along < width) × (side.end < width) }
    ensures { words.new ≡ led words.old spare parent neighbour side.along side.end v }
{
    let own = place_of(spare, side.along);
    let above = place_of(parent, side.end);
    let beside = place_of(neighbour, side.along);
    let other = choose(parent == 0, own, above);
    let at = choose(neighbour == 0, other, beside);
    words[at - Slot::WORDS] = v;
}

// The node with its subtree leaves parent and siblings.
pub fn take_out(words: &mut [u32], id: u32)
    requires { Within words.old id × NoneOrWithin words.old (link words.old id PARENT) × NoneOrWithin words.old (link words.old id PREVIOUS) × NoneOrWithin words.old (link words.old id NEXT) }
    ensures { words.new ≡ taken_out words.old id }
{
    let slot = slot_of(id);
    let parent = get_word(words, slot, Slot::PARENT);
    let previous = get_word(words, slot, Slot::PREVIOUS);
    let next = get_word(words, slot, Slot::NEXT);
    lead(words, id, parent, previous, Side::LEFT, next);
    lead(words, id, parent, next, Side::RIGHT, previous);
    set_word(words, slot, Slot::PARENT, 0);
    set_word(words, slot, Slot::PREVIOUS, 0);
    set_word(words, slot, Slot::NEXT, 0);
}

// The siblings from first to last, which name the parent already, come between two neighbours under it.
pub fn tie_in(words: &mut [u32], first: u32, last: u32, to: Spot)
    requires { Within words.old first × Within words.old last × PlaceWithin words.old to }
    ensures { words.new ≡ tied_in words.old first last to.parent to.previous to.next }
{
    let Spot {
        parent,
        previous,
        next,
    } = to;
    lead(words, last, parent, previous, Side::LEFT, first);
    lead(words, first, parent, next, Side::RIGHT, last);
    set_word(words, slot_of(first), Slot::PREVIOUS, previous);
    set_word(words, slot_of(last), Slot::NEXT, next);
}

// A node that stands alone comes between two neighbours under a parent.
pub fn put_in(words: &mut [u32], id: u32, to: Spot)
    requires { Within words.old id × PlaceWithin words.old to }
    ensures { words.new ≡ put_in words.old id to.parent to.previous to.next }
{
    set_word(words, slot_of(id), Slot::PARENT, to.parent);
    tie_in(words, id, id, to);
}
