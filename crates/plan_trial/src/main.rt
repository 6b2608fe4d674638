// Tries the reading of plans. Each line of standard input is a plan in hexadecimal, and after a space there may be a note of what it shows;
// for each it prints `ok`, or the refusal with its number and the record that it names, 0 where it names none.
//
// The file `stdin` has 400 plans, and below them, with notes, plans at the edges of each rule; `stdout` has the answers: to the
// former those that a model made apart gives, to the latter those that the rules give, worked out by hand.
#![tactic(auto)]

use anyhow::bail;
use plan::Plan;
use std::alloc::Global;
use std::io::{BufRead, BufReader};

// The library's digits take capitals too, and a plan here has none.
fn digit(c: u8) -> Option<u8> {
    match c {
        b'0'..=b'9' => Some(c - b'0'),
        b'a'..=b'f' => Some(c - b'a' + 10),
        _ => None,
    }
}

// The byte of two digits, or what is wrong with them.
fn byte_of(pair: &[u8]) -> Result<u8, &'static str> {
    let [high, low] = pair else {
        return Err("half a byte");
    };
    match (digit(*high), digit(*low)) {
        (Some(high), Some(low)) => Ok(high << 4 | low),
        _ => Err("not hexadecimal"),
    }
}

// The bytes of a line, up to its note.
fn bytes_of(heap: Global, line: &[u8]) -> anyhow::Result<Vec<u8>> {
    let mut bytes = Vec::new(heap);
    // a `for`: `try_collect` makes of each byte a result with room for an error, and takes half as long again
    for pair in line.chunks(2).take_while(|pair| !pair.starts_with(b" ")) {
        match byte_of(pair) {
            Ok(byte) => bytes.push(byte)?,
            Err(what) => bail!("\"{what}\""),
        }
    }
    Ok(bytes)
}

fn main(rt: HostRuntime) -> anyhow::Result<()> {
    let heap = rt.alloc();
    for line in BufReader::new(heap, rt.stdin())?.lines(heap) {
        let bytes = bytes_of(heap, line?.as_bytes())?;
        match Plan::read(heap, &bytes) {
            Ok(_) => println!(rt; "ok")?,
            Err(refusal) => println!(rt; "{refusal}")?,
        }
    }
    Ok(())
}

#[cfg(test)]
mod tests {
    use super::*;
    use std::test::Fail;

    // Three levels; the walk meets areas 1, 4, 5, 2, 3, 6.
    const THREE_LEVELS: [u8; 36] = [
        3, 4, 0, 0, 0, 0, //
        1, 0, 0, 0, 3, 0, //
        2, 6, 0, 0, 0, 0, //
        2, 5, 3, 0, 0, 0, //
        1, 0, 2, 0, 2, 0, //
        1, 0, 0, 0, 4, 0,
    ];

    // Areas 0 to 7 of six: whether it is lowest, its first and last slot, and how many slots it has.
    const AREAS: [(bool, Option<(u16, u16)>, Option<u16>); 8] = [
        (false, None, None),
        (false, Some((1, 9)), Some(9)),
        (true, Some((3, 5)), Some(3)),
        (false, Some((6, 9)), Some(4)),
        (false, Some((1, 5)), Some(5)),
        (true, Some((1, 2)), Some(2)),
        (true, Some((6, 9)), Some(4)),
        (false, None, None),
    ];

    // Slots and their homes.
    const HOMES: [(u16, Option<u16>); 8] = [
        (0, None),
        (1, Some(5)),
        (2, Some(5)),
        (3, Some(2)),
        (5, Some(2)),
        (6, Some(6)),
        (9, Some(6)),
        (10, None),
    ];

    // An area, a level, and the area over it.
    const OVER: [(u16, u8, Option<u16>); 11] = [
        (5, 0, None),
        (5, 1, Some(5)),
        (5, 2, Some(4)),
        (5, 3, Some(1)),
        (5, 4, None),
        (2, 2, Some(4)),
        (6, 2, Some(3)),
        (4, 2, None),
        (1, 3, None),
        (0, 1, None),
        (7, 1, None),
    ];

    // Two areas and their common level.
    const COMMON: [(u16, u16, Option<u8>); 8] = [
        (5, 5, Some(1)),
        (5, 2, Some(2)),
        (2, 6, Some(3)),
        (6, 5, Some(3)),
        (4, 5, None),
        (5, 4, None),
        (0, 5, None),
        (5, 7, None),
    ];

    #[test]
    fn a_plan_is_asked(rt: HostRuntime) -> Result<(), Fail> {
        let Ok(plan) = Plan::read(rt.alloc(), &THREE_LEVELS) else {
            return Err(Fail::new("refused"));
        };
        assert_eq!(rt;
            (plan.area_count(), plan.slot_count(), plan.top_level()),
            (6, 9, 3)
        );
        for (i, area) in (0u16..8).zip(AREAS) {
            let ends = plan.slots(i).map(|slots| (slots.first, slots.last));
            assert_eq!(rt; (plan.is_lowest(i), ends, plan.slots_in(i)), area);
        }
        for (slot, home) in HOMES {
            assert_eq!(rt; plan.home(slot), home);
        }
        for (area, level, over) in OVER {
            assert_eq!(rt; plan.area_over(area, level), over);
        }
        for (x, y, level) in COMMON {
            assert_eq!(rt; plan.common_level(x, y), level);
        }
        Ok(())
    }
}
