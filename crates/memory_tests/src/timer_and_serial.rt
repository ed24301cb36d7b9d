ghost use Rattle.std.specs.Prelude.{◌≡◌, ◌≤◌, ◌<◌, ◌+◌, ◌-◌, ◌^◌};

use crate::plain::Plain;
use devices::{Bus, BusMark, Device, Lines, Serial, Timer};
use schedule_file::{Entry, read_schedule};
use std::alloc::{AllocError, Global};
use std::test::Fail;

#[test]
fn a_timer_comes_round(rt: HostRuntime) {
    let mut timer = Timer::new();
    timer.write(0x0160, 3);
    timer.write(0x0164, 3);
    assert_eq!(rt; timer.quiet(), 3);
    timer.tick();
    timer.tick();
    timer.tick();
    assert_eq!(rt; (timer.read(0x0162), timer.line()), (3, None));
    timer.tick();
    assert_eq!(rt;
        (timer.read(0x0162), timer.read(0x0160), timer.line()),
        (0, 7, Some(8))
    );
    timer.accept(6);
    assert_eq!(rt; timer.line(), Some(8));
    timer.accept(8);
    assert_eq!(rt; (timer.read(0x0160), timer.line()), (3, None));
    timer.skip(1_000_000_000);
    assert_eq!(rt; (timer.read(0x0162), timer.line()), (0, Some(8)));
}

#[test]
fn a_timer_past_its_limit_goes_on_to_the_top(rt: HostRuntime) {
    let mut timer = Timer::new();
    timer.write(0x0160, 3);
    timer.write(0x0162, 5);
    timer.write(0x0164, 3);
    assert_eq!(rt; timer.quiet(), 65_534);
    timer.skip(65_534);
    assert_eq!(rt; (timer.read(0x0162), timer.line()), (3, None));
    timer.tick();
    assert_eq!(rt; (timer.read(0x0162), timer.line()), (0, Some(8)));
}

#[test]
fn a_timer_with_limit_0_rings_in_each_tick(rt: HostRuntime) {
    let mut timer = Timer::new();
    timer.write(0x0160, 3);
    for _ in 0..3 {
        timer.tick();
        assert_eq!(rt; (timer.read(0x0162), timer.line()), (0, Some(8)));
        timer.accept(8);
    }
}

#[test]
fn a_byte_overruns_another(rt: HostRuntime) {
    let mut serial = Serial::new();
    serial.receive(0x41);
    serial.receive(0x42);
    assert_eq!(rt; (serial.read(0x0070), serial.line()), (6, None));
    serial.write(0x0070, 0xff);
    assert_eq!(rt; (serial.read(0x0070), serial.line()), (7, Some(6)));
    assert_eq!(rt;
        (serial.read(0x0071), serial.read(0x0070), serial.line()),
        (0x42, 1, None)
    );
    serial.write(0x0071, 0x43);
    assert_eq!(rt; (serial.read(0x0071), serial.sent()), (0x42, Some(0x43)));
    serial.skip(0);
    assert_eq!(rt; serial.sent(), Some(0x43));
    serial.tick();
    assert_eq!(rt; serial.sent(), None);
}

// A read of the data takes the byte and the overrun away where they may not interrupt, too.
#[test]
fn a_byte_is_read_without_an_interrupt(rt: HostRuntime) {
    let mut serial = Serial::new();
    serial.receive(0x41);
    serial.receive(0x42);
    assert_eq!(rt; (serial.read(0x0070), serial.read(0x0071)), (6, 0x42));
    assert_eq!(rt; (serial.read(0x0070), serial.line()), (0, None));
}

#[test]
fn the_highest_line_counts(rt: HostRuntime) {
    let mut lines = Lines::new();
    lines.raise(1);
    lines.raise(2);
    lines.write(0x0041, 0);
    assert_eq!(rt; (lines.read(0x0041), lines.line()), (6, None));
    lines.write(0x0040, 0xf3);
    assert_eq!(rt; (lines.read(0x0040), lines.line()), (3, Some(2)));
    lines.write(0x0040, 7);
    lines.accept(3);
    assert_eq!(rt; lines.line(), Some(3));
    lines.lower(2);
    assert_eq!(rt; lines.line(), Some(2));
}

#[test]
fn a_schedule_moves_the_bus(rt: HostRuntime) -> Result<(), Fail> {
    let schedule = read_schedule(rt.alloc(), b"20 line 0 up")?;
    let mut bus = Bus::new(rt.alloc(), &schedule)?;
    assert_eq!(rt; (bus.quiet(), bus.moves()), (20, 0));
    bus.skip(15);
    assert_eq!(rt; (bus.quiet(), bus.moves()), (5, 1));
    bus.write(0x0040, 1);
    bus.skip(5);
    assert_eq!(rt; (bus.quiet(), bus.line()), (0, None));
    bus.tick();
    assert_eq!(rt;
        (bus.quiet(), bus.line(), bus.moves()),
        (1 << 62, Some(1), 3)
    );
    Ok(())
}

#[test]
fn entries_of_one_cycle_act_in_order(rt: HostRuntime) -> Result<(), Fail> {
    let text =
        b"0 line 3 up\n0 line 3 down\n0 line 2 down\n0 line 2 up\n0 serial 41\n0 serial 42\n";
    let schedule = read_schedule(rt.alloc(), text)?;
    let mut bus = Bus::new(rt.alloc(), &schedule)?;
    bus.write(0x0160, 7);
    bus.write(0x0161, 0xff);
    bus.write(0x0071, 9);
    assert_eq!(rt;
        (bus.read(0x0160), bus.read(0x0161), bus.sent()),
        (7, 0, Some(9))
    );
    bus.tick();
    assert_eq!(rt;
        (bus.read(0x0041), bus.read(0x0070), bus.sent()),
        (4, 6, None)
    );
    bus.write(0x0040, 15);
    bus.write(0x0070, 1);
    assert_eq!(rt; bus.line(), Some(8));
    bus.accept(8);
    assert_eq!(rt; (bus.line(), bus.read(0x0071)), (Some(6), 0x42));
    assert_eq!(rt; bus.line(), Some(3));
    for addr in [0x0000, 0x0042, 0x006f, 0x0072, 0x015f, 0x0166, 0x01ff] {
        bus.write(addr, 0xff);
        assert_eq!(rt; bus.read(addr), 0);
    }
    Ok(())
}

// What the lines and the serial device show.
fn shown(bus: &mut Bus) -> (u8, u8, Option<u8>)
    ensures ticks { bus.new.ticks ≡ bus.old.ticks }
{
    (bus.read(0x0041), bus.read(0x0070), bus.line())
}

// Eight cycles on, and back to a moment: what is shown at both.
fn on_and_back(bus: &mut Bus, mark: &BusMark) -> [(u8, u8, Option<u8>); 2]
    requires few { bus.old.ticks ≤ 100 }
    ensures ticks { bus.new.ticks ≡ mark.now.ticks }
{
    bus.skip(8);
    let on = shown(bus);
    bus.back(mark);
    [on, shown(bus)]
}

// The line rises in cycle 6 and in cycle 10 once more, whatever was done in between.
#[test]
fn a_bus_goes_back_and_on(rt: HostRuntime) -> Result<(), Fail> {
    let schedule = read_schedule(
        rt.alloc(),
        b"6 line 0 up\n8 line 0 down\n10 line 0 up\n12 serial 41\n",
    )?;
    let mut bus = Bus::new(rt.alloc(), &schedule)?;
    bus.write(0x0040, 1);
    bus.skip(5);
    bus.write(0x0071, 9);
    let early = bus.mark();
    bus.skip(4);
    let late = bus.mark();
    for seen in [
        on_and_back(&mut bus, &early),
        on_and_back(&mut bus, &late),
        on_and_back(&mut bus, &early),
    ] {
        assert_eq!(rt; seen, [(1, 2, Some(1)), (0, 0, None)]);
    }
    assert_eq!(rt; (bus.sent(), bus.quiet()), (Some(9), 1));
    bus.skip(2);
    assert_eq!(rt; (bus.sent(), bus.line(), bus.quiet()), (None, Some(1), 1));
    bus.back(&late);
    assert_eq!(rt; (bus.quiet(), bus.moves()), (1, 6));
    Ok(())
}

// A row of numbers that looks like chance.
#[derive(Drop)]
struct Chance(u32);

impl Chance {
    fn below(&mut self, bound: u32) -> u32
        requires { 0 < bound }
        ensures { result < bound }
    {
        self.0 = self.0.wrapping_mul(1_103_515_245).wrapping_add(12_345);
        self.0 / 65_536 % bound
    }
}

const ADDRESSES: [u16; 16] = [
    0x0040, 0x0041, 0x0042, 0x0070, 0x0071, 0x0072, 0x0160, 0x0160, 0x0161, 0x0162, 0x0163, 0x0164,
    0x0165, 0x0166, 0x0164, 0x01ff,
];

const WHATS: [&[u8]; 6] = [
    b" line 0 up\n",
    b" line 0 down\n",
    b" line 3 up\n",
    b" line 3 down\n",
    b" serial 41\n",
    b" serial 7f\n",
];

// The text of a few entries from cycle 10 on, some of one cycle.
fn some_text(alloc: Global, chance: &mut Chance) -> Result<Vec<u8>, AllocError> {
    let mut text = Vec::new(alloc);
    let mut cycle = 10u32;
    for _ in 0..chance.below(8) {
        cycle = cycle
            .wrapping_add(chance.below(2) * chance.below(30))
            .clamp(10, 99);
        text.push(b'0' + (cycle / 10) as u8)?;
        text.push(b'0' + (cycle % 10) as u8)?;
        text.extend_from_slice(WHATS[chance.below(6) as usize])?;
    }
    Ok(text)
}

// One call on the bus and on the plain program, and what both read.
fn both(bus: &mut Bus, plain: &mut Plain, schedule: &[Entry], chance: &mut Chance) -> (u8, u8)
    requires { bus.old.ticks < 2 ^ 32 }
    ensures { bus.new.ticks ≤ bus.old.ticks + 64 }
{
    let addr = ADDRESSES[chance.below(16) as usize];
    match chance.below(6) {
        0 => {
            bus.tick();
            plain.tick(schedule);
        }
        1 => {
            let n = chance.below(64);
            bus.skip(u64::from(n));
            plain.ticks(n, schedule);
        }
        2 => return (bus.read(addr), plain.read(addr)),
        3 => {
            bus.accept(8);
            plain.accept(8);
        }
        _ => {
            let byte = chance.below(64) as u8;
            bus.write(addr, byte);
            plain.write(addr, byte);
        }
    }
    (0, 0)
}

#[test]
fn ten_thousand_scripts_agree_with_the_plain_program(rt: HostRuntime) -> Result<(), Fail> {
    let mut chance = Chance(1);
    for _ in 0..10_000 {
        let text = some_text(rt.alloc(), &mut chance)?;
        let schedule = read_schedule(rt.alloc(), text.as_slice())?;
        let mut bus = Bus::new(rt.alloc(), &schedule)?;
        let mut plain = Plain::default();
        for _ in 0..20u64 {
            let (byte, wanted) = both(&mut bus, &mut plain, &schedule.entries, &mut chance);
            assert!(rt; byte == wanted);
            assert!(rt; bus.line() == plain.line());
            assert!(rt; bus.sent() == plain.sent);
            assert!(rt; bus.quiet() == plain.quiet(&schedule.entries));
        }
    }
    Ok(())
}
