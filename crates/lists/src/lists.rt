// Lists of nodes by an order: counted and written, over the nodes one after another. A list is written whole or not at all.
ghost use Rattle.std.specs.Prelude.{◌≡◌, true, ◌*◌, not, ◌+◌, ◌≤◌, ltb, length};
ghost use Rattle.rules.specs.Answers.{reply_of};
ghost use Rattle.lists.specs.Orders.{ordered};
ghost use Rattle.lists.specs.OrderLinks.{down_b, linked};
ghost use Rattle.lists.specs.Storing.{stored_at};
ghost use Rattle.lists.specs.Listing.{listed, counted};

use crate::nodes::{Along, Below};
use crate::order::Order;
use link::id::found;
use rules::answer::Refusal;

// How long the list is.
pub fn count_listed(words: &[u32], used: u32, order: Order, root: u32) -> u32
    ensures { result ≡ length (ordered words.now used order root) }
{
    if order.goes_down() {
        let nodes = Below::of(words, used, root);
        return nodes.filter(|x| order.keeps(words, *x)).count() as u32;
    }
    Along::of(words, used, order, root).count() as u32
}

// List and place come apart here, as the definition `stored_at` takes them: lists are written one behind another to a lent list.

// Writes a list that goes down from a place on; the place behind it.
fn write_below(
    words: &[u32],
    used: u32,
    order: Order,
    root: u32,
    list: &mut [u32],
    start: usize,
) -> usize
    requires { (down_b order ≡ true) × (start + length (ordered words.now used order root) ≤ length list.old) }
    ensures { (list.new, result) ≡ stored_at (ordered words.now used order root) list.old start }
{
    let mut at = start;
    for x in Below::of(words, used, root) {
        if order.keeps(words, x) {
            list[at] = x;
            at += 1;
        }
    }
    at
}

// Writes one that goes by links.
pub fn write_along(
    words: &[u32],
    used: u32,
    near: u32,
    far: u32,
    first: u32,
    list: &mut [u32],
    start: usize,
) -> usize
    requires { start + length (linked words.now near far used first) ≤ length list.old }
    ensures { (list.new, result) ≡ stored_at (linked words.now near far used first) list.old start }
{
    let nodes = Along {
        words,
        near,
        far,
        next: first,
        left: used,
    };
    let mut at = start;
    for x in nodes {
        list[at] = x;
        at += 1;
    }
    at
}

// Writes the list from a place on; the place behind it.
pub fn write_listed(
    words: &[u32],
    used: u32,
    order: Order,
    root: u32,
    list: &mut [u32],
    start: usize,
) -> usize
    requires { start + length (ordered words.now used order root) ≤ length list.old }
    ensures { (list.new, result) ≡ stored_at (ordered words.now used order root) list.old start }
{
    if order.goes_down() {
        return write_below(words, used, order, root, list, start);
    }
    let first = order.first_of(words, root);
    write_along(
        words,
        used,
        order.near_link(),
        order.far_link(),
        first,
        list,
        start,
    )
}

// Whether the list fits the places; it is counted only where it could be longer.
pub fn fits(words: &[u32], used: u32, order: Order, root: u32, places: usize) -> bool
    ensures { result ≡ not (ltb places (length (ordered words.now used order root))) }
{
    used as usize <= places || count_listed(words, used, order, root) as usize <= places
}

// A list on ready memory: REMOVED, then ROOM. Written out beside `list_levels` and `list_descendants`: their writers ask for a
// count and for a stack besides, so one function over a closure is no plainer than two tests and a call.
pub fn list_nodes(
    words: &[u32],
    used: u32,
    order: Order,
    root: u32,
    list: &mut [u32],
) -> Result<u32, Refusal>
    ensures { (list.new, reply_of result) ≡ listed words.now used order root list.old }
{
    if !found(words, used, root) {
        return Err(Refusal::Removed);
    }
    if !fits(words, used, order, root, list.len()) {
        return Err(Refusal::Room);
    }
    Ok(write_listed(words, used, order, root, list, 0) as u32)
}

// How many nodes there are from a node down, on ready memory.
pub fn count_nodes(words: &[u32], used: u32, root: u32) -> Result<u32, Refusal>
    ensures { reply_of result ≡ counted words.now used root }
{
    if !found(words, used, root) {
        return Err(Refusal::Removed);
    }
    Ok(count_listed(words, used, Order::Descendants, root))
}
