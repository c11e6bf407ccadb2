//! The schedule of levels beside a table that was written by hand.
use cola_clock::{Below, Part, Phase, flips, next_of, own_part, phase, visible_slot, works};

// At which of the levels 0 to 3 the mutations at the clocks 0 to 7 work.
const WORKING: [[bool; 4]; 8] = [
    [true, true, false, false],
    [true, false, true, false],
    [true, true, false, true],
    [true, false, false, true],
    [true, true, false, false],
    [true, false, true, false],
    [true, true, false, false],
    [true, false, false, false],
];

// The visible slots of the levels 0 to 3 at the clock 11.
const VISIBLE: [u8; 4] = [1, 1, 0, 1];

#[test]
fn levels_work_and_flip_by_the_table(rt: HostRuntime) {
    for level in 0..4 {
        for clock in 0..8 {
            let is_right = works(clock as u64, level as u8) == WORKING[clock][level];
            assert!(rt; is_right, "level {level} at {clock}");
        }
        assert!(rt; visible_slot(11, level as u8) == VISIBLE[level]);
    }
    assert!(rt; flips(11, 2) && !flips(11, 3));
    let phases = [phase(11, 1), phase(11, 3), phase(9, 3)];
    assert!(rt; phases == [Phase::After, Phase::Inside(1), Phase::Before]);
    let parts = [own_part(11, 0, 3), own_part(11, 3, 3)];
    assert!(rt; parts == [Part::Young, Part::All]);
    let below = [next_of(11, 0, 3), next_of(11, 2, 3), next_of(11, 3, 3)];
    assert!(rt; below == [Below::Shadow, Below::Visible, Below::Nothing]);
}
