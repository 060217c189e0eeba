// The size of a device in memory, by its bytes.
use blocks::device::Device;
use blocks::memory::MemoryDevice;
use std::test::Fail;

fn size_of(bytes: &mut [u8]) -> u32 {
    MemoryDevice::new(bytes, 0).size()
}

#[test]
fn a_rest_that_fills_no_block_does_not_count(rt: HostRuntime) {
    assert_eq!(rt; size_of(&mut []), 0);
    assert_eq!(rt; size_of(&mut [0; 4095]), 0);
    assert_eq!(rt; size_of(&mut [0; 4096]), 1);
    assert_eq!(rt; size_of(&mut [0; 8191]), 1);
}

#[test]
fn no_device_has_more_than_65536_blocks(rt: HostRuntime) -> Result<(), Fail> {
    let mut bytes = vec![in rt.alloc(); 0u8; 268439552]?;
    assert_eq!(rt; size_of(&mut bytes), 65536);
    Ok(())
}
