// Level order, with the list itself as the queue.
ghost use Rattle.std.specs.Prelude.{◌≡◌, ◌*◌, ◌≤◌, length};
ghost use Rattle.rules.specs.Answers.{reply_of};
ghost use Rattle.walk.specs.Written.{written};
ghost use Rattle.lists.specs.Levels.{level_order};
ghost use Rattle.lists.specs.Listing.{levels_listed};

use crate::lists::{count_listed, write_along};
use crate::order::Order;
use link::id::found;
use link::words::{Slot, link_of};
use rules::answer::Refusal;

// Each node listed is asked for its children in turn, and they are written behind the list so far, as far as its places go.
fn write_levels(words: &[u32], root: u32, size: u32, list: &mut [u32]) -> u32
    requires { size ≤ length list.old }
    ensures { (list.new ≡ written (level_order words.now size root) list.old) × (result ≡ length (level_order words.now size root)) }
{
    if size == 0 {
        return 0;
    }
    list[0] = root;
    let mut asked: usize = 0;
    let mut at: usize = 1;
    // Not by `for`: each turn may put off the end, up to which nodes are asked.
    while asked < at {
        let x = list[asked];
        let first = link_of(words, x, Slot::FIRST);
        at = write_along(
            words,
            size - (at as u32),
            Slot::NEXT,
            Slot::NEXT,
            first,
            list,
            at,
        );
        asked += 1;
    }
    at as u32
}

// Level order on ready memory: REMOVED, then ROOM. It is counted first, so that a list that does not fit is left alone.
pub fn list_levels(words: &[u32], used: u32, root: u32, list: &mut [u32]) -> Result<u32, Refusal>
    ensures { (list.new, reply_of result) ≡ levels_listed words.now used root list.old }
{
    if !found(words, used, root) {
        return Err(Refusal::Removed);
    }
    let size = count_listed(words, used, Order::Descendants, root);
    if list.len() < size as usize {
        return Err(Refusal::Room);
    }
    Ok(write_levels(words, root, size, list))
}
