//! Refusals of files that the program does not print: their messages, and numbers that its words never name.
use cola_device::MemoryDevice;
use cola_opening::HeaderFault;
use cola_store::{CreateFault, OpenFault, create};
use cola_wide::UpgradeFault;
use std::test::Fail;

const REFUSED: [(u64, u8, CreateFault); 5] = [
    (0, 2, CreateFault::Keys),
    (16_777_217, 5, CreateFault::Keys),
    (1, 2, CreateFault::Block),
    (32, 6, CreateFault::Block),
    (16_777_216, 10, CreateFault::Block),
];

#[test]
fn new_files_of_no_size(rt: HostRuntime) -> Result<(), Fail> {
    let mut device = MemoryDevice::new(rt.alloc(), 8192, Vec::new(rt.alloc()))?;
    for (keys, block_exp, fault) in REFUSED {
        assert!(rt;
            create(&mut device, keys, block_exp) == Err(fault),
            "{keys} keys"
        );
    }
    assert!(rt; device.calls() == 0);
    Ok(())
}

const MESSAGES: &str = "Keys Block NotEmpty Device \
    NotStore Small Device \
    NotStore NotClosed Small Device OutOfMemory BadCell 87 \
    Small NotStore Already NotClosed OutOfMemory NotEmpty Device BadCell 87 ";

#[test]
fn messages(rt: HostRuntime) -> Result<(), Fail> {
    let mut text = String::new(rt.alloc());
    for fault in [
        CreateFault::Keys,
        CreateFault::Block,
        CreateFault::NotEmpty,
        CreateFault::Device,
    ] {
        write!(text, "{fault} ")?;
    }
    for fault in [
        HeaderFault::NotStore,
        HeaderFault::Small,
        HeaderFault::Device,
    ] {
        write!(text, "{fault} ")?;
    }
    for fault in [
        OpenFault::NotStore,
        OpenFault::NotClosed,
        OpenFault::Small,
        OpenFault::Device,
        OpenFault::OutOfMemory,
        OpenFault::BadCell(87),
    ] {
        write!(text, "{fault} ")?;
    }
    for fault in [
        UpgradeFault::Small,
        UpgradeFault::NotStore,
        UpgradeFault::Already,
        UpgradeFault::NotClosed,
        UpgradeFault::OutOfMemory,
        UpgradeFault::NotEmpty,
        UpgradeFault::Device,
        UpgradeFault::BadCell(87),
    ] {
        write!(text, "{fault} ")?;
    }
    assert!(rt; text.as_str() == MESSAGES);
    Ok(())
}
