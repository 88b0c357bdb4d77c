// Removal of a node, of a subtree, of the children.
ghost use Rattle.std.specs.Prelude.{◌≡◌};
ghost use Rattle.rules.specs.Answers.{answer};
ghost use Rattle.sound.specs.Guard.{guarded};
ghost use Rattle.removal.specs.Remove.{remove_node, remove_subtree, remove_children};
ghost use Rattle.lift_c.specs.Face.{header_of};

use lift_c::removing;

#[unsafe(no_mangle)]
pub extern "C" fn lift_checked_remove(
    words: &mut [u32],
    header: &mut [u32; 3],
    scratch: &mut [u32],
    id: u32,
    res: &mut u32,
) -> u32
    ensures { (words.new, scratch.new, answer (header_of header.new) result res.new) ≡ guarded words.old (header_of header.old) scratch.old (remove_node words.old (header_of header.old) id) }
{
    removing::lift_checked_remove(words, header, scratch, id, res)
}

#[unsafe(no_mangle)]
pub extern "C" fn lift_checked_remove_subtree(
    words: &mut [u32],
    header: &mut [u32; 3],
    scratch: &mut [u32],
    id: u32,
    res: &mut u32,
) -> u32
    ensures { (words.new, scratch.new, answer (header_of header.new) result res.new) ≡ guarded words.old (header_of header.old) scratch.old (remove_subtree words.old (header_of header.old) id) }
{
    removing::lift_checked_remove_subtree(words, header, scratch, id, res)
}

#[unsafe(no_mangle)]
pub extern "C" fn lift_remove_children(
    words: &mut [u32],
    header: &mut [u32; 3],
    scratch: &mut [u32],
    id: u32,
    res: &mut u32,
) -> u32
    ensures { (words.new, scratch.new, answer (header_of header.new) result res.new) ≡ guarded words.old (header_of header.old) scratch.old (remove_children words.old (header_of header.old) id) }
{
    removing::lift_remove_children(words, header, scratch, id, res)
}
