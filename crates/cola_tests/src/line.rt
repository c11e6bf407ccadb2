//! Replies that no session brings about, and a sink with little room.
use cola_io::{MemorySink, SinkFault};
use cola_line::{Refusal, Reply, write_reply};
use std::test::Fail;

#[test]
fn texts_of_replies(rt: HostRuntime) -> Result<(), Fail> {
    let alloc = rt.alloc();
    let last = "at 18446744073709551615 # 7\n";
    for (reply, room, wrote, text) in [
        (Reply::Stamped(Some(u64::MAX)), 64, Ok(()), last),
        (Reply::Refused(Refusal::Memory), 64, Ok(()), "memory\n"),
        (Reply::Shut, 2, Err(SinkFault), "sh"),
    ] {
        let mut sink = MemorySink::new(alloc, room, Vec::new(alloc))?;
        let answer = write_reply(&reply, true, 7, &mut sink);
        assert!(rt;
            answer == wrote && sink.bytes() == text.as_bytes(),
            "{text}"
        );
    }
    Ok(())
}
