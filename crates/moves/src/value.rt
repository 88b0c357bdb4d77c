// The four value forms, once over where they put the new node: REMOVED, FULL, then a creation, and in.
ghost use Rattle.std.specs.Prelude.{◌≡◌, ◌≤◌, length};
ghost use Rattle.link.specs.Words.{capacity_of};
ghost use Rattle.rules.specs.Answers.{answer_created};
ghost use Rattle.rules.specs.Sound.{Ready};
ghost use Rattle.moves.specs.Values.{put_new, value_node};

use crate::place::Place;
use arena::arena::create;
use link::header::Header;
use link::id::found;
use link::relations::{insert_first_unchecked, insert_last_unchecked, insert_with_neighbors};
use link::siblings_range::ConsistencyError;
use rules::answer::{Created, Refusal};

// A new node, which has no neighbours yet, goes to its place. First and last are put with no detaching before, as in the Rust: on any
// memory that is not the same, so it is not the spot alone.
pub fn put_new(
    words: &mut [u32],
    place: Place,
    target: u32,
    new: u32,
    steps: u32,
) -> Result<(), ConsistencyError>
    ensures { (words.new, result) ≡ put_new place steps words.old target new }
{
    match place {
        Place::Append => insert_last_unchecked(words, new, target, steps),
        Place::Prepend => insert_first_unchecked(words, new, target, steps),
        Place::After | Place::Before => {
            let to = place.spot(words, target);
            insert_with_neighbors(words, new, to.parent, to.previous, to.next, steps)
        }
    }
}

// The work of the four value forms.
pub fn value_node(
    words: &mut [u32],
    h: Header,
    place: Place,
    target: u32,
    number: u32,
) -> Result<Created, Refusal>
    requires { Ready words.old h × (h.used ≤ capacity_of (length words.old)) }
    ensures { (words.new, answer_created h result) ≡ value_node place words.old h target number }
{
    if !found(words, h.used, target) {
        return Err(Refusal::Removed);
    }
    let made = create(words, h, number)?;
    let _ = put_new(words, place, target, made.id, h.used + 1);
    Ok(made)
}
