//! A store in bytes of memory, from its making to its second opening.
ghost use Rattle.std.specs.Prelude.{◌≡◌, ◌<◌};

use cola_handle::{create, size};
use std::process::Abort;
use std::test::Fail;

#[test]
fn sizes(rt: HostRuntime) -> Result<(), Fail> {
    let mut bytes = Vec::from_elem(rt.alloc(), 0u8, 32768)?;
    let codes = [
        create(&mut bytes, 100, 5, 1).code(),
        create(&mut bytes, 100, 5, 1).code(),
    ];
    assert!(rt; size(100, 5, 1) == Some(32768) && codes == [0, 10]);
    Ok(())
}
