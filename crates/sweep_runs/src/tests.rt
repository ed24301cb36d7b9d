//! Sweeps over the cycles in which the two ways of the branch run different instructions.

use crate::images::{MODULE_0, MODULE_1, PLAIN_0, PLAIN_1};
use pulse_sweep::{Pulses, sweep};
use std::alloc::Global;
use std::process::Abort;
use std::test::Fail;

// From cycle 16 on one way runs a load of three cycles and a move, the other four moves of a cycle each.
const PULSES: Pulses = Pulses {
    line: 0,
    from: 16,
    to: 19,
    cycles: 60,
};

/// Sweeps two images, and compares what comes of it.
fn assert_swept(
    rt: &impl Abort,
    alloc: Global,
    images: [&str; 2],
    text: &str,
    different: u64,
) -> Result<(), Fail> {
    let first = image_text::read(alloc, images[0].as_bytes())?;
    let second = image_text::read(alloc, images[1].as_bytes())?;
    let swept = sweep(alloc, &first, &second, &PULSES)?;
    assert_eq!(rt; swept.text.as_slice(), text.as_bytes());
    assert_eq!(rt; swept.different, different);
    Ok(())
}

#[test]
fn plain_code_differs(rt: HostRuntime) -> Result<(), Fail> {
    assert_swept(
        &rt,
        rt.alloc(),
        [PLAIN_0, PLAIN_1],
        "\
pulse 16 begins 6 6 leave - - out 44 44 same\n\
pulse 17 begins 6 8 leave - - out 44 44 line 1\n\
1 17 irq 1\n\
2 19 irq 1\n\
pulse 18 begins 6 7 leave - - out 44 44 line 1\n\
1 18 irq 1\n\
2 19 irq 1\n\
pulse 19 begins 6 6 leave - - out 44 44 same\n\
end 2 same 2 different\n",
        2,
    )
}

#[test]
fn module_does_not(rt: HostRuntime) -> Result<(), Fail> {
    assert_swept(
        &rt,
        rt.alloc(),
        [MODULE_0, MODULE_1],
        "\
pulse 16 begins 12 12 leave 50 50 out 50 50 same\n\
pulse 17 begins 12 12 leave 50 50 out 50 50 same\n\
pulse 18 begins 12 12 leave 50 50 out 50 50 same\n\
pulse 19 begins 12 12 leave 50 50 out 50 50 same\n\
end 4 same 0 different\n",
        0,
    )
}
