// The node and all below it as a call on any memory: FRAME, SCRATCH, INVALID, then REMOVED, then ROOM.
ghost use Rattle.std.specs.Prelude.{◌≡◌, ◌*◌, ◌≤◌, length};
ghost use Rattle.rules.specs.Answers.{reply_of};
ghost use Rattle.rules.specs.Sound.{Sound};
ghost use Rattle.examine.specs.Scratch.{zeroed};
ghost use Rattle.lists.specs.Listing.{listed, guarded_list};
ghost use Rattle.lists.specs.declared.order.Order.TheVariants.{Descendants};

use crate::preorder::write_preorder;
use link::header::Header;
use link::id::found;
use lists::lists::fits;
use lists::order::Order;
use rules::answer::Refusal;
use sound::guard;

// On ready memory: REMOVED, then ROOM. Scratch is zero before and after.
fn list_descendants(
    words: &[u32],
    h: Header,
    scratch: &mut [u32],
    id: u32,
    list: &mut [u32],
) -> Result<u32, Refusal>
    requires { Sound words.now h × (2 * h.used ≤ length scratch.old) × (zeroed (2 * h.used) scratch.old ≡ scratch.old) }
    ensures { (scratch.new ≡ scratch.old) × ((list.new, reply_of result) ≡ listed words.now h.used Descendants id list.old) }
{
    if !found(words, h.used, id) {
        return Err(Refusal::Removed);
    }
    if !fits(words, h.used, Order::Descendants, id, list.len()) {
        return Err(Refusal::Room);
    }
    Ok(write_preorder(words, h, scratch, id, list) as u32)
}

// The node and all below it, in preorder.
pub fn descendants(
    words: &[u32],
    h: Header,
    scratch: &mut [u32],
    id: u32,
    list: &mut [u32],
) -> Result<u32, Refusal>
    ensures { (scratch.new, list.new, reply_of result) ≡ guarded_list words.now h scratch.old list.old (listed words.now h.used Descendants id list.old) }
{
    guard(words, h, scratch)?;
    list_descendants(words, h, scratch, id, list)
}
