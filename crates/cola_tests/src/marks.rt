//! Devices with marks: each call at a concrete type, through its bound.
use cola_device::{Device, DeviceFault, MemoryDevice};
use cola_marks::{MarkedDevice, Marks};
use std::alloc::Global;
use std::process::Abort;
use std::test::Fail;

/// Writes two bytes over the end of a page, once the size tells that they are there.
fn write_over_an_end<D: Device>(device: &mut D) -> Result<(), DeviceFault> {
    if device.size()? < 12_288 {
        return Err(DeviceFault);
    }
    device.write(4_095, &[7, 8])
}

/// Reads them.
fn read_over_an_end<D: Device>(device: &mut D) -> Result<[u8; 2], DeviceFault> {
    let mut found = [0; 2];
    if device.size()? < 12_288 {
        return Err(DeviceFault);
    }
    device.read(4_095, &mut found)?;
    device.settle()?;
    Ok(found)
}

/// Marks the last page, where there is one.
fn mark_the_last<M: Marks>(marks: &mut M) {
    let pages = marks.pages();
    if pages > 0 {
        marks.mark(pages - 1);
    }
}

/// A device of three pages, which refuses these of its calls.
fn three_pages(
    alloc: Global,
    failing: Vec<u64>,
) -> Result<MarkedDevice<MemoryDevice, Vec<u8>>, Fail> {
    let bytes = vec![in alloc; 0u8; 12_288]?;
    let marks = vec![in alloc; 0u8; 3]?;
    Ok(MarkedDevice::over(MemoryDevice::holding(bytes, failing), marks))
}

#[test]
fn pages_of_a_write_are_marked(rt: HostRuntime) -> Result<(), Fail> {
    let mut device = three_pages(rt.alloc(), Vec::new(rt.alloc()))?;
    write_over_an_end(&mut device)?;
    let found = read_over_an_end(&mut device)?;
    let marked = device.marks().as_slice() == [1, 1, 0].as_slice();
    assert!(rt; marked && found == [7, 8] && device.writes() == 1 && device.reads() == 1);
    let (below, mut marks) = device.into_parts();
    mark_the_last(&mut marks);
    assert!(rt; below.writes() == 1 && marks.as_slice() == [1, 1, 1].as_slice());
    Ok(())
}

#[test]
fn a_refused_write_marks_its_pages(rt: HostRuntime) -> Result<(), Fail> {
    let mut device = three_pages(rt.alloc(), vec![in rt.alloc(); 2]?)?;
    let said = write_over_an_end(&mut device);
    let marked = device.marks().as_slice() == [1, 1, 0].as_slice();
    assert!(rt; marked && said.is_err() && device.faults() == 1 && device.inner().faults() == 1);
    Ok(())
}

#[test]
fn a_layout_marks_every_page(rt: HostRuntime) -> Result<(), Fail> {
    let below = MemoryDevice::new(rt.alloc(), 5_000, Vec::new(rt.alloc()))?;
    let mut device = MarkedDevice::over(below, vec![in rt.alloc(); 0u8; 2]?);
    device.lay_out(5_000)?;
    let lent = device.view(0, 1).is_some();
    assert!(rt; !lent && device.marks().as_slice() == [1, 1].as_slice());
    Ok(())
}
