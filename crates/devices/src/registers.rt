//! The addresses of the devices' registers, the weights of their control bits, and their vectors.

/// Bits 0 to 3 enable lines 0 to 3.
pub const LINES_ENABLE: u16 = 0x0040;
/// Bits 0 to 3 are the lines' levels.
pub const LINES_LEVELS: u16 = 0x0041;
/// Enable, received and overrun.
pub const SERIAL_CONTROL: u16 = 0x0070;
/// The last byte that was received; the byte to send.
pub const SERIAL_DATA: u16 = 0x0071;
/// Run, enable and flag.
pub const TIMER_CONTROL: u16 = 0x0160;
/// The low byte of the count.
pub const TIMER_COUNT: u16 = 0x0162;
/// The high byte of the count.
pub const TIMER_COUNT_HIGH: u16 = 0x0163;
/// The low byte of the limit.
pub const TIMER_LIMIT: u16 = 0x0164;
/// The high byte of the limit.
pub const TIMER_LIMIT_HIGH: u16 = 0x0165;

/// The vector of line 0; line N has the N-th after it.
pub const LINES_VECTOR: u8 = 1;
/// The serial device's vector.
pub const SERIAL_VECTOR: u8 = 6;
/// The timer's vector.
pub const TIMER_VECTOR: u8 = 8;

// What the rules say of them: a changed number is refused here.
const _: () = prove!(LINES_ENABLE == 0x0040 && LINES_LEVELS == 0x0041 && LINES_VECTOR == 1);

const _: () = prove!(SERIAL_CONTROL == 0x0070 && SERIAL_DATA == 0x0071 && SERIAL_VECTOR == 6);

const _: () = prove!(TIMER_CONTROL == 0x0160 && TIMER_COUNT == 0x0162);

const _: () = prove!(TIMER_COUNT_HIGH == 0x0163 && TIMER_LIMIT == 0x0164);

const _: () = prove!(TIMER_LIMIT_HIGH == 0x0165 && TIMER_VECTOR == 8);
