// The live count and the census.
ghost use Rattle.std.specs.Prelude.{◌≡◌};
ghost use Rattle.rules.specs.Answers.{reply};
ghost use Rattle.arena.specs.Census.{counted, census_call, live_call};
ghost use Rattle.lift_c.specs.Face.{header_of, census_of};

use lift_c::counting;

#[unsafe(no_mangle)]
pub extern "C" fn lift_live_count(
    words: &[u32],
    header: &[u32; 3],
    scratch: &mut [u32],
    res: &mut u32,
) -> u32
    ensures { (scratch.new, reply result res.new) ≡ live_call words.now (header_of header.now) scratch.old }
{
    counting::lift_live_count(words, header, scratch, res)
}

#[unsafe(no_mangle)]
pub extern "C" fn lift_census(
    words: &[u32],
    header: &[u32; 3],
    scratch: &mut [u32],
    counts: &mut [u32; 4],
) -> u32
    ensures { (scratch.new, counted result (census_of counts.new)) ≡ census_call words.now (header_of header.now) scratch.old }
{
    counting::lift_census(words, header, scratch, counts)
}
