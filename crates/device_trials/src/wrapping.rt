// Counts go on from 0 after 2^64 - 1, and the allowance falls as the wear says.
use blocks::device::Device;
use blocks::faulty::{FaultyDevice, Wear};
use blocks::state::State;

#[test]
fn counts_wrap(rt: HostRuntime) {
    let mut bytes = [0u8; 4096];
    let mut states = [State::Sound];
    let mut buffer = [0u8; 4096];
    let mut device = FaultyDevice::new(&mut bytes, &mut states, Wear::EveryWrite, 3);
    device.count_from(18446744073709551614, 18446744073709551615);
    assert!(rt; device.read(0, &mut buffer).is_ok());
    assert_eq!(rt; device.reads(), 18446744073709551615);
    assert!(rt; device.read(0, &mut buffer).is_ok());
    assert!(rt; device.write(0, &buffer).is_ok());
    assert_eq!(rt; device.reads(), 0);
    assert_eq!(rt; device.writes(), 0);
}

// What is left of an allowance of 5 after four writes.
fn left_after_four(wear: Wear) -> u64 {
    let mut bytes = [0u8; 4096];
    let mut states = [State::Sound];
    let mut device = FaultyDevice::new(&mut bytes, &mut states, wear, 5);
    for _ in 0..4 {
        let _ = device.write(0, &[1; 4096]);
    }
    device.allowance()
}

#[test]
fn the_allowance_falls_as_the_wear_says(rt: HostRuntime) {
    assert_eq!(rt; left_after_four(Wear::EveryWrite), 1);
    assert_eq!(rt; left_after_four(Wear::EverySecondWrite), 3);
    assert_eq!(rt; left_after_four(Wear::NoWrite), 5);
}
