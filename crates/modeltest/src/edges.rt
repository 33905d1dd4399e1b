// The numbers at which the paper's tests turn, for fields, registers and arguments.
use crate::packing::*;
use crate::sides::{EPOCH, State, TARGET};

// 0 and 1; about P, the latest ValidTill, s and the target; about N, L, S and the limits.
pub fn edges(s: &State) -> [u64; 30] {
    let persisted = s.persisted();
    let epoch = s.registers[EPOCH];
    let target = s.registers[TARGET];
    let lines = s.lines();
    let entries = s.entries();
    let slots = s.slots();
    [
        0,
        1,
        persisted.wrapping_sub(1),
        persisted,
        persisted.wrapping_add(1),
        persisted.wrapping_add(MOST_AHEAD),
        persisted.wrapping_add(MOST_AHEAD + 1),
        epoch.wrapping_sub(1),
        epoch,
        epoch.wrapping_add(1),
        target,
        target.wrapping_add(1),
        lines.wrapping_sub(1),
        lines,
        entries.wrapping_sub(1),
        entries,
        entries.wrapping_add(1),
        slots.wrapping_sub(1),
        slots,
        slots.wrapping_add(1),
        BUFFER_ENTRIES - 1,
        BUFFER_ENTRIES,
        LAST_EPOCH,
        MOST_LINES,
        MOST_LINES + 1,
        MOST_ENTRIES,
        MOST_ENTRIES + 1,
        MOST_SPAN,
        MOST_SPAN + 1,
        u64::MAX,
    ]
}
