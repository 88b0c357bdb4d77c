// The second pass: from each slot along what leads to it, until nothing does or a slot passed before is met.
// Place s of the scratch holds the slot that leads to s, and 65,536 + i once the climb from slot i has passed it. Place 0 is none, and
// holds 65,536 from the start, so that a climb ends at none as it does at a mark: one test a step.
ghost use Rattle.std.specs.Prelude.{◌≡◌, ◌+◌, ◌*◌, ◌<◌, ◌≤◌, length, set};
ghost use Rattle.examine.specs.Marks.{climb_run, climbs_run};

// A mark is this much or more, and what leads to a slot is less: one number a place, since the lent scratch is the only memory.
const MARK: u32 = 65536;

// Place 0 as passed already, by no climb.
pub fn mark_none(scratch: &mut [u32])
    requires { 0 < length scratch.old }
    ensures { scratch.new ≡ set scratch.old 0 65536 }
{
    scratch[0] = MARK;
}

// From x, with i's marks: yes at an earlier climb's mark and at none's, no at an own one.
#[tactic(auto, using(crate::specs::MarkLaws::climb_turns))]
pub fn climb(scratch: &mut [u32], used: u32, i: u32) -> bool
    requires { (used ≤ 65535) × (2 * used ≤ length scratch.old) × (0 < i) × (i ≤ used) }
    ensures { (scratch.new, result) ≡ climb_run (used + 2) used i i scratch.old }
{
    let mark = MARK + i;
    let mut x = i;
    for _ in 0..used + 2 {
        let at = x as usize;
        let v = scratch[at];
        if used < v {
            return v != mark;
        }
        scratch[at] = mark;
        x = v;
    }
    false
}

// From every slot in use.
#[tactic(auto, using(crate::specs::MarkLaws::climbs_turns))]
pub fn climb_all(scratch: &mut [u32], used: u32) -> bool
    requires { (used ≤ 65535) × (2 * used ≤ length scratch.old) }
    ensures { (scratch.new, result) ≡ climbs_run used used 1 scratch.old }
{
    for i in 1..=used {
        if !climb(scratch, used, i) {
            return false;
        }
    }
    true
}
