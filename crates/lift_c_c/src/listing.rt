// The eight lists, and the descendant count.
ghost use Rattle.std.specs.Prelude.{◌≡◌};
ghost use Rattle.rules.specs.Answers.{reply};
ghost use Rattle.sound.specs.Guard.{guarded_read};
ghost use Rattle.lists.specs.Listing.{listed, levels_listed, counted, guarded_list};
ghost use Rattle.lists.specs.declared.order.Order.TheVariants.{Ancestors, Predecessors, PrecedingSiblings, FollowingSiblings, Children, Descendants, Leaves};
ghost use Rattle.lift_c.specs.Face.{header_of};

use lift_c::listing;

#[unsafe(no_mangle)]
pub extern "C" fn lift_descendants(
    words: &[u32],
    header: &[u32; 3],
    scratch: &mut [u32],
    id: u32,
    list: &mut [u32],
    res: &mut u32,
) -> u32
    ensures { (scratch.new, list.new, reply result res.new) ≡ guarded_list words.now (header_of header.now) scratch.old list.old (listed words.now (header_of header.now).used Descendants id list.old) }
{
    listing::lift_descendants(words, header, scratch, id, list, res)
}

#[unsafe(no_mangle)]
pub extern "C" fn lift_leaves(
    words: &[u32],
    header: &[u32; 3],
    scratch: &mut [u32],
    id: u32,
    list: &mut [u32],
    res: &mut u32,
) -> u32
    ensures { (scratch.new, list.new, reply result res.new) ≡ guarded_list words.now (header_of header.now) scratch.old list.old (listed words.now (header_of header.now).used Leaves id list.old) }
{
    listing::lift_leaves(words, header, scratch, id, list, res)
}

#[unsafe(no_mangle)]
pub extern "C" fn lift_ancestors(
    words: &[u32],
    header: &[u32; 3],
    scratch: &mut [u32],
    id: u32,
    list: &mut [u32],
    res: &mut u32,
) -> u32
    ensures { (scratch.new, list.new, reply result res.new) ≡ guarded_list words.now (header_of header.now) scratch.old list.old (listed words.now (header_of header.now).used Ancestors id list.old) }
{
    listing::lift_ancestors(words, header, scratch, id, list, res)
}

#[unsafe(no_mangle)]
pub extern "C" fn lift_children(
    words: &[u32],
    header: &[u32; 3],
    scratch: &mut [u32],
    id: u32,
    list: &mut [u32],
    res: &mut u32,
) -> u32
    ensures { (scratch.new, list.new, reply result res.new) ≡ guarded_list words.now (header_of header.now) scratch.old list.old (listed words.now (header_of header.now).used Children id list.old) }
{
    listing::lift_children(words, header, scratch, id, list, res)
}

#[unsafe(no_mangle)]
pub extern "C" fn lift_following_siblings(
    words: &[u32],
    header: &[u32; 3],
    scratch: &mut [u32],
    id: u32,
    list: &mut [u32],
    res: &mut u32,
) -> u32
    ensures { (scratch.new, list.new, reply result res.new) ≡ guarded_list words.now (header_of header.now) scratch.old list.old (listed words.now (header_of header.now).used FollowingSiblings id list.old) }
{
    listing::lift_following_siblings(words, header, scratch, id, list, res)
}

#[unsafe(no_mangle)]
pub extern "C" fn lift_preceding_siblings(
    words: &[u32],
    header: &[u32; 3],
    scratch: &mut [u32],
    id: u32,
    list: &mut [u32],
    res: &mut u32,
) -> u32
    ensures { (scratch.new, list.new, reply result res.new) ≡ guarded_list words.now (header_of header.now) scratch.old list.old (listed words.now (header_of header.now).used PrecedingSiblings id list.old) }
{
    listing::lift_preceding_siblings(words, header, scratch, id, list, res)
}

#[unsafe(no_mangle)]
pub extern "C" fn lift_predecessors(
    words: &[u32],
    header: &[u32; 3],
    scratch: &mut [u32],
    id: u32,
    list: &mut [u32],
    res: &mut u32,
) -> u32
    ensures { (scratch.new, list.new, reply result res.new) ≡ guarded_list words.now (header_of header.now) scratch.old list.old (listed words.now (header_of header.now).used Predecessors id list.old) }
{
    listing::lift_predecessors(words, header, scratch, id, list, res)
}

#[unsafe(no_mangle)]
pub extern "C" fn lift_breadth_first(
    words: &[u32],
    header: &[u32; 3],
    scratch: &mut [u32],
    id: u32,
    list: &mut [u32],
    res: &mut u32,
) -> u32
    ensures { (scratch.new, list.new, reply result res.new) ≡ guarded_list words.now (header_of header.now) scratch.old list.old (levels_listed words.now (header_of header.now).used id list.old) }
{
    listing::lift_breadth_first(words, header, scratch, id, list, res)
}

#[unsafe(no_mangle)]
pub extern "C" fn lift_descendant_count(
    words: &[u32],
    header: &[u32; 3],
    scratch: &mut [u32],
    id: u32,
    res: &mut u32,
) -> u32
    ensures { (scratch.new, reply result res.new) ≡ guarded_read words.now (header_of header.now) scratch.old (counted words.now (header_of header.now).used id) }
{
    listing::lift_descendant_count(words, header, scratch, id, res)
}
