// Creation: a root, and the four value forms.
ghost use Rattle.std.specs.Prelude.{◌≡◌};
ghost use Rattle.rules.specs.Answers.{answer};
ghost use Rattle.sound.specs.Guard.{guarded};
ghost use Rattle.arena.specs.Create.{new_call};
ghost use Rattle.moves.specs.Values.{value_node};
ghost use Rattle.moves.specs.declared.place.Place.TheVariants.{Append, Prepend, After, Before};
ghost use Rattle.lift_c.specs.Face.{header_of};

use lift_c::creating;

#[unsafe(no_mangle)]
pub extern "C" fn lift_new_node(
    words: &mut [u32],
    header: &mut [u32; 3],
    scratch: &mut [u32],
    number: u32,
    res: &mut u32,
) -> u32
    ensures { (words.new, scratch.new, answer (header_of header.new) result res.new) ≡ new_call words.old (header_of header.old) scratch.old number }
{
    creating::lift_new_node(words, header, scratch, number, res)
}

#[unsafe(no_mangle)]
pub extern "C" fn lift_append_value(
    words: &mut [u32],
    header: &mut [u32; 3],
    scratch: &mut [u32],
    target: u32,
    number: u32,
    res: &mut u32,
) -> u32
    ensures { (words.new, scratch.new, answer (header_of header.new) result res.new) ≡ guarded words.old (header_of header.old) scratch.old (value_node Append words.old (header_of header.old) target number) }
{
    creating::lift_append_value(words, header, scratch, target, number, res)
}

#[unsafe(no_mangle)]
pub extern "C" fn lift_prepend_value(
    words: &mut [u32],
    header: &mut [u32; 3],
    scratch: &mut [u32],
    target: u32,
    number: u32,
    res: &mut u32,
) -> u32
    ensures { (words.new, scratch.new, answer (header_of header.new) result res.new) ≡ guarded words.old (header_of header.old) scratch.old (value_node Prepend words.old (header_of header.old) target number) }
{
    creating::lift_prepend_value(words, header, scratch, target, number, res)
}

#[unsafe(no_mangle)]
pub extern "C" fn lift_insert_after_value(
    words: &mut [u32],
    header: &mut [u32; 3],
    scratch: &mut [u32],
    target: u32,
    number: u32,
    res: &mut u32,
) -> u32
    ensures { (words.new, scratch.new, answer (header_of header.new) result res.new) ≡ guarded words.old (header_of header.old) scratch.old (value_node After words.old (header_of header.old) target number) }
{
    creating::lift_insert_after_value(words, header, scratch, target, number, res)
}

#[unsafe(no_mangle)]
pub extern "C" fn lift_insert_before_value(
    words: &mut [u32],
    header: &mut [u32; 3],
    scratch: &mut [u32],
    target: u32,
    number: u32,
    res: &mut u32,
) -> u32
    ensures { (words.new, scratch.new, answer (header_of header.new) result res.new) ≡ guarded words.old (header_of header.old) scratch.old (value_node Before words.old (header_of header.old) target number) }
{
    creating::lift_insert_before_value(words, header, scratch, target, number, res)
}
