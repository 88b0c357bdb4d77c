// Removal of a node, of a subtree, of the children.
ghost use Rattle.std.specs.Prelude.{◌≡◌};
ghost use Rattle.rules.specs.Answers.{answer};
ghost use Rattle.sound.specs.Guard.{guarded};
ghost use Rattle.removal.specs.Remove.{remove_node, remove_subtree, remove_children};
ghost use Rattle.lift_c.specs.Face.{header_of};

use crate::packing::{header_of, put_answer};
use removal::removal::{checked_remove, checked_remove_subtree, remove_children};

pub fn lift_checked_remove(
    words: &mut [u32],
    header: &mut [u32; 3],
    scratch: &mut [u32],
    id: u32,
    res: &mut u32,
) -> u32
    ensures { (words.new, scratch.new, answer (header_of header.new) result res.new) ≡ guarded words.old (header_of header.old) scratch.old (remove_node words.old (header_of header.old) id) }
{
    let h = header_of(header);
    let said = checked_remove(words, h, scratch, id);
    put_answer(header, res, h, said)
}

pub fn lift_checked_remove_subtree(
    words: &mut [u32],
    header: &mut [u32; 3],
    scratch: &mut [u32],
    id: u32,
    res: &mut u32,
) -> u32
    ensures { (words.new, scratch.new, answer (header_of header.new) result res.new) ≡ guarded words.old (header_of header.old) scratch.old (remove_subtree words.old (header_of header.old) id) }
{
    let h = header_of(header);
    let said = checked_remove_subtree(words, h, scratch, id);
    put_answer(header, res, h, said)
}

pub fn lift_remove_children(
    words: &mut [u32],
    header: &mut [u32; 3],
    scratch: &mut [u32],
    id: u32,
    res: &mut u32,
) -> u32
    ensures { (words.new, scratch.new, answer (header_of header.new) result res.new) ≡ guarded words.old (header_of header.old) scratch.old (remove_children words.old (header_of header.old) id) }
{
    let h = header_of(header);
    let said = remove_children(words, h, scratch, id);
    put_answer(header, res, h, said)
}
