// Two subtrees compared. One memory may be lent twice: it is only read.
ghost use Rattle.std.specs.Prelude.{◌≡◌};
ghost use Rattle.rules.specs.Answers.{reply};
ghost use Rattle.subtree.specs.Compare.{subtrees_compared};
ghost use Rattle.lift_c.specs.Face.{header_of};

use crate::packing::{header_of, put_reply};
use subtree::subtree_eq;

pub fn lift_subtree_eq(
    words: &[u32],
    header: &[u32; 3],
    id: u32,
    other_words: &[u32],
    other_header: &[u32; 3],
    other_id: u32,
    scratch: &mut [u32],
    res: &mut u32,
) -> u32
    ensures { (scratch.new, reply result res.new) ≡ subtrees_compared words.now (header_of header.now) id other_words.now (header_of other_header.now) other_id scratch.old }
{
    let h = header_of(header);
    let other_h = header_of(other_header);
    put_reply(
        res,
        subtree_eq(words, h, id, other_words, other_h, other_id, scratch),
    )
}
