// The public calls: FRAME, SCRATCH, INVALID, then the work. Every output is determined on every input.
// Document 01 names each call, so each stands here by itself, in one line where it differs from another in the place alone.
ghost use Rattle.std.specs.Prelude.{◌≡◌};
ghost use Rattle.rules.specs.Answers.{answer_kept, answer_created};
ghost use Rattle.sound.specs.Guard.{guarded};
ghost use Rattle.moves.specs.Detach.{detach_node, detach_children_node};
ghost use Rattle.moves.specs.Moves.{move_node};
ghost use Rattle.moves.specs.Values.{value_node};

use crate::detach::{detach_children_node, detach_node};
use crate::id::move_node;
use crate::place::Place;
use crate::value::value_node;
use link::header::Header;
use rules::answer::{Created, Refusal};
use sound::guard;

// A move under its guard, once over where it puts the node.
fn checked_move(
    words: &mut [u32],
    h: Header,
    scratch: &mut [u32],
    place: Place,
    target: u32,
    moved: u32,
) -> Result<(), Refusal>
    ensures { (words.new, scratch.new, answer_kept h result) ≡ guarded words.old h scratch.old (move_node place words.old h target moved) }
{
    guard(words, h, scratch)?;
    move_node(words, h, place, target, moved)
}

// The moved node with its subtree becomes the last child of the target.
pub fn checked_append(
    words: &mut [u32],
    h: Header,
    scratch: &mut [u32],
    target: u32,
    moved: u32,
) -> Result<(), Refusal>
    ensures { (words.new, scratch.new, answer_kept h result) ≡ guarded words.old h scratch.old (move_node Place.Append words.old h target moved) }
{
    checked_move(words, h, scratch, Place::Append, target, moved)
}

// The first child.
pub fn checked_prepend(
    words: &mut [u32],
    h: Header,
    scratch: &mut [u32],
    target: u32,
    moved: u32,
) -> Result<(), Refusal>
    ensures { (words.new, scratch.new, answer_kept h result) ≡ guarded words.old h scratch.old (move_node Place.Prepend words.old h target moved) }
{
    checked_move(words, h, scratch, Place::Prepend, target, moved)
}

// The sibling after the target.
pub fn checked_insert_after(
    words: &mut [u32],
    h: Header,
    scratch: &mut [u32],
    target: u32,
    moved: u32,
) -> Result<(), Refusal>
    ensures { (words.new, scratch.new, answer_kept h result) ≡ guarded words.old h scratch.old (move_node Place.After words.old h target moved) }
{
    checked_move(words, h, scratch, Place::After, target, moved)
}

// The sibling before it.
pub fn checked_insert_before(
    words: &mut [u32],
    h: Header,
    scratch: &mut [u32],
    target: u32,
    moved: u32,
) -> Result<(), Refusal>
    ensures { (words.new, scratch.new, answer_kept h result) ≡ guarded words.old h scratch.old (move_node Place.Before words.old h target moved) }
{
    checked_move(words, h, scratch, Place::Before, target, moved)
}

// A value form under its guard, once over where it puts the new node.
fn place_value(
    words: &mut [u32],
    h: Header,
    scratch: &mut [u32],
    place: Place,
    target: u32,
    value: u32,
) -> Result<Created, Refusal>
    ensures { (words.new, scratch.new, answer_created h result) ≡ guarded words.old h scratch.old (value_node place words.old h target value) }
{
    guard(words, h, scratch)?;
    value_node(words, h, place, target, value)
}

// A new node with this number becomes the last child of the target.
pub fn append_value(
    words: &mut [u32],
    h: Header,
    scratch: &mut [u32],
    target: u32,
    value: u32,
) -> Result<Created, Refusal>
    ensures { (words.new, scratch.new, answer_created h result) ≡ guarded words.old h scratch.old (value_node Place.Append words.old h target value) }
{
    place_value(words, h, scratch, Place::Append, target, value)
}

// The first child.
pub fn prepend_value(
    words: &mut [u32],
    h: Header,
    scratch: &mut [u32],
    target: u32,
    value: u32,
) -> Result<Created, Refusal>
    ensures { (words.new, scratch.new, answer_created h result) ≡ guarded words.old h scratch.old (value_node Place.Prepend words.old h target value) }
{
    place_value(words, h, scratch, Place::Prepend, target, value)
}

// The sibling after the target.
pub fn insert_after_value(
    words: &mut [u32],
    h: Header,
    scratch: &mut [u32],
    target: u32,
    value: u32,
) -> Result<Created, Refusal>
    ensures { (words.new, scratch.new, answer_created h result) ≡ guarded words.old h scratch.old (value_node Place.After words.old h target value) }
{
    place_value(words, h, scratch, Place::After, target, value)
}

// The sibling before it.
pub fn insert_before_value(
    words: &mut [u32],
    h: Header,
    scratch: &mut [u32],
    target: u32,
    value: u32,
) -> Result<Created, Refusal>
    ensures { (words.new, scratch.new, answer_created h result) ≡ guarded words.old h scratch.old (value_node Place.Before words.old h target value) }
{
    place_value(words, h, scratch, Place::Before, target, value)
}

// The node with its subtree becomes a chain of one.
pub fn checked_detach(
    words: &mut [u32],
    h: Header,
    scratch: &mut [u32],
    id: u32,
) -> Result<(), Refusal>
    ensures { (words.new, scratch.new, answer_kept h result) ≡ guarded words.old h scratch.old (detach_node words.old h id) }
{
    guard(words, h, scratch)?;
    detach_node(words, h, id)
}

// So does each of its children.
pub fn checked_detach_children(
    words: &mut [u32],
    h: Header,
    scratch: &mut [u32],
    id: u32,
) -> Result<(), Refusal>
    ensures { (words.new, scratch.new, answer_kept h result) ≡ guarded words.old h scratch.old (detach_children_node words.old h id) }
{
    guard(words, h, scratch)?;
    detach_children_node(words, h, id)
}
