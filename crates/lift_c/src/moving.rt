// The four moves, detach and detach children.
ghost use Rattle.std.specs.Prelude.{◌≡◌};
ghost use Rattle.rules.specs.Answers.{answer};
ghost use Rattle.sound.specs.Guard.{guarded};
ghost use Rattle.moves.specs.Moves.{move_node};
ghost use Rattle.moves.specs.Detach.{detach_node, detach_children_node};
ghost use Rattle.moves.specs.declared.place.Place.TheVariants.{Append, Prepend, After, Before};
ghost use Rattle.lift_c.specs.Face.{header_of};

use crate::packing::{header_of, put_answer};
use moves::calls::{
    checked_append, checked_detach, checked_detach_children, checked_insert_after,
    checked_insert_before, checked_prepend,
};

pub fn lift_checked_append(
    words: &mut [u32],
    header: &mut [u32; 3],
    scratch: &mut [u32],
    target: u32,
    moved: u32,
    res: &mut u32,
) -> u32
    ensures { (words.new, scratch.new, answer (header_of header.new) result res.new) ≡ guarded words.old (header_of header.old) scratch.old (move_node Append words.old (header_of header.old) target moved) }
{
    let h = header_of(header);
    let said = checked_append(words, h, scratch, target, moved);
    put_answer(header, res, h, said)
}

pub fn lift_checked_prepend(
    words: &mut [u32],
    header: &mut [u32; 3],
    scratch: &mut [u32],
    target: u32,
    moved: u32,
    res: &mut u32,
) -> u32
    ensures { (words.new, scratch.new, answer (header_of header.new) result res.new) ≡ guarded words.old (header_of header.old) scratch.old (move_node Prepend words.old (header_of header.old) target moved) }
{
    let h = header_of(header);
    let said = checked_prepend(words, h, scratch, target, moved);
    put_answer(header, res, h, said)
}

pub fn lift_checked_insert_after(
    words: &mut [u32],
    header: &mut [u32; 3],
    scratch: &mut [u32],
    target: u32,
    moved: u32,
    res: &mut u32,
) -> u32
    ensures { (words.new, scratch.new, answer (header_of header.new) result res.new) ≡ guarded words.old (header_of header.old) scratch.old (move_node After words.old (header_of header.old) target moved) }
{
    let h = header_of(header);
    let said = checked_insert_after(words, h, scratch, target, moved);
    put_answer(header, res, h, said)
}

pub fn lift_checked_insert_before(
    words: &mut [u32],
    header: &mut [u32; 3],
    scratch: &mut [u32],
    target: u32,
    moved: u32,
    res: &mut u32,
) -> u32
    ensures { (words.new, scratch.new, answer (header_of header.new) result res.new) ≡ guarded words.old (header_of header.old) scratch.old (move_node Before words.old (header_of header.old) target moved) }
{
    let h = header_of(header);
    let said = checked_insert_before(words, h, scratch, target, moved);
    put_answer(header, res, h, said)
}

pub fn lift_checked_detach(
    words: &mut [u32],
    header: &mut [u32; 3],
    scratch: &mut [u32],
    id: u32,
    res: &mut u32,
) -> u32
    ensures { (words.new, scratch.new, answer (header_of header.new) result res.new) ≡ guarded words.old (header_of header.old) scratch.old (detach_node words.old (header_of header.old) id) }
{
    let h = header_of(header);
    let said = checked_detach(words, h, scratch, id);
    put_answer(header, res, h, said)
}

pub fn lift_checked_detach_children(
    words: &mut [u32],
    header: &mut [u32; 3],
    scratch: &mut [u32],
    id: u32,
    res: &mut u32,
) -> u32
    ensures { (words.new, scratch.new, answer (header_of header.new) result res.new) ≡ guarded words.old (header_of header.old) scratch.old (detach_children_node words.old (header_of header.old) id) }
{
    let h = header_of(header);
    let said = checked_detach_children(words, h, scratch, id);
    put_answer(header, res, h, said)
}
