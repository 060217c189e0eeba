// Where two refusals hold at once, the first in their order comes.
use blocks::device::Device;
use blocks::faulty::{FaultyDevice, Wear};
use blocks::refusal::Refusal;
use blocks::state::State;
use std::process::Abort;

// The bytes of the buffer, the block asked for, the allowance, and what comes of it.
#[derive(Clone, Copy)]
struct Row(usize, u32, u64, Result<(), Refusal>);

// Blocks 0, 1 and 2 of the device are sound, damaged and lost; past its size every block is lost.
const STATES: [State; 3] = [State::Sound, State::Damaged, State::Lost];

const READS: [Row; 9] = [
    Row(4096, 0, 0, Ok(())),
    Row(4096, 1, 0, Err(Refusal::Damaged)),
    Row(4096, 2, 0, Err(Refusal::Lost)),
    Row(4096, 3, 0, Err(Refusal::NoSuchBlock)),
    Row(4096, 4294967295, 1, Err(Refusal::NoSuchBlock)),
    Row(4095, 0, 1, Err(Refusal::BadBuffer)),
    Row(4095, 2, 1, Err(Refusal::BadBuffer)),
    Row(4097, 3, 1, Err(Refusal::BadBuffer)),
    Row(0, 1, 1, Err(Refusal::BadBuffer)),
];

const WRITES: [Row; 10] = [
    Row(4096, 0, 1, Ok(())),
    Row(4096, 1, 1, Ok(())),
    Row(4096, 2, 1, Err(Refusal::Lost)),
    Row(4096, 2, 0, Err(Refusal::Spent)),
    Row(4096, 0, 0, Err(Refusal::Spent)),
    Row(4096, 3, 1, Err(Refusal::NoSuchBlock)),
    Row(4096, 3, 0, Err(Refusal::NoSuchBlock)),
    Row(4097, 3, 0, Err(Refusal::BadBuffer)),
    Row(4095, 2, 0, Err(Refusal::BadBuffer)),
    Row(0, 0, 1, Err(Refusal::BadBuffer)),
];

// Makes the access of a row on a device of the three blocks.
fn meet<A>(rt: &impl Abort, row: Row, access: A)
where
    A: FnOnce(&mut FaultyDevice<'_>, u32, &mut [u8]) -> Result<(), Refusal>,
    requires { A.IsAlwaysCallable access }
{
    let Row(len, block, allowance, expected) = row;
    let mut bytes = [0u8; 12288];
    let mut states = STATES;
    let mut buffer = [0u8; 4097];
    assert!(rt; len <= 4097);
    let mut device = FaultyDevice::new(&mut bytes, &mut states, Wear::EveryWrite, allowance);
    assert_eq!(rt; access(&mut device, block, &mut buffer[0..len]), expected);
}

#[test]
fn reads_meet_the_first_refusal(rt: HostRuntime) {
    for row in &READS {
        meet(
            &rt,
            *row,
            |device, block, buffer| device.read(block, buffer),
        );
    }
}

#[test]
fn writes_meet_the_first_refusal(rt: HostRuntime) {
    for row in &WRITES {
        meet(
            &rt,
            *row,
            |device, block, buffer| device.write(block, buffer),
        );
    }
}

// A damaged block that is written is sound, and reads as it was written.
#[test]
fn a_write_heals_a_damaged_block(rt: HostRuntime) {
    let mut bytes = [0u8; 4096];
    let mut states = [State::Damaged];
    let mut buffer = [0u8; 4096];
    let mut device = FaultyDevice::new(&mut bytes, &mut states, Wear::NoWrite, 1);
    assert_eq!(rt; device.write(0, &[7; 4096]), Ok(()));
    assert_eq!(rt; device.read(0, &mut buffer), Ok(()));
    assert_eq!(rt; buffer[4095], 7);
}
