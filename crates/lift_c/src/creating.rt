// Creation: a root, and the four value forms.
ghost use Rattle.std.specs.Prelude.{◌≡◌};
ghost use Rattle.rules.specs.Answers.{answer};
ghost use Rattle.sound.specs.Guard.{guarded};
ghost use Rattle.arena.specs.Create.{new_call};
ghost use Rattle.moves.specs.Values.{value_node};
ghost use Rattle.moves.specs.declared.place.Place.TheVariants.{Append, Prepend, After, Before};
ghost use Rattle.lift_c.specs.Face.{header_of};

use crate::packing::{header_of, put_answer};
use arena::arena::new_node;
use moves::calls::{append_value, insert_after_value, insert_before_value, prepend_value};

pub fn lift_new_node(
    words: &mut [u32],
    header: &mut [u32; 3],
    scratch: &mut [u32],
    number: u32,
    res: &mut u32,
) -> u32
    ensures { (words.new, scratch.new, answer (header_of header.new) result res.new) ≡ new_call words.old (header_of header.old) scratch.old number }
{
    let h = header_of(header);
    let said = new_node(words, h, scratch, number);
    put_answer(header, res, h, said)
}

pub fn lift_append_value(
    words: &mut [u32],
    header: &mut [u32; 3],
    scratch: &mut [u32],
    target: u32,
    number: u32,
    res: &mut u32,
) -> u32
    ensures { (words.new, scratch.new, answer (header_of header.new) result res.new) ≡ guarded words.old (header_of header.old) scratch.old (value_node Append words.old (header_of header.old) target number) }
{
    let h = header_of(header);
    let said = append_value(words, h, scratch, target, number);
    put_answer(header, res, h, said)
}

pub fn lift_prepend_value(
    words: &mut [u32],
    header: &mut [u32; 3],
    scratch: &mut [u32],
    target: u32,
    number: u32,
    res: &mut u32,
) -> u32
    ensures { (words.new, scratch.new, answer (header_of header.new) result res.new) ≡ guarded words.old (header_of header.old) scratch.old (value_node Prepend words.old (header_of header.old) target number) }
{
    let h = header_of(header);
    let said = prepend_value(words, h, scratch, target, number);
    put_answer(header, res, h, said)
}

pub fn lift_insert_after_value(
    words: &mut [u32],
    header: &mut [u32; 3],
    scratch: &mut [u32],
    target: u32,
    number: u32,
    res: &mut u32,
) -> u32
    ensures { (words.new, scratch.new, answer (header_of header.new) result res.new) ≡ guarded words.old (header_of header.old) scratch.old (value_node After words.old (header_of header.old) target number) }
{
    let h = header_of(header);
    let said = insert_after_value(words, h, scratch, target, number);
    put_answer(header, res, h, said)
}

pub fn lift_insert_before_value(
    words: &mut [u32],
    header: &mut [u32; 3],
    scratch: &mut [u32],
    target: u32,
    number: u32,
    res: &mut u32,
) -> u32
    ensures { (words.new, scratch.new, answer (header_of header.new) result res.new) ≡ guarded words.old (header_of header.old) scratch.old (value_node Before words.old (header_of header.old) target number) }
{
    let h = header_of(header);
    let said = insert_before_value(words, h, scratch, target, number);
    put_answer(header, res, h, said)
}
