//! A store over a device in memory, by each call once.
ghost use Rattle.std.specs.Prelude.{◌≡◌, ◌<◌};

use cola_cell::Value;
use cola_device::MemoryDevice;
use cola_kv::{Answer, Call, Error, Format, Kv, Options, Put, PutIf, create};
use cola_outside::Steps;
use std::alloc::Global;
use std::marker::Brand;
use std::sync::ledger::{Blank, Ledger};
use std::test::Fail;

/// A value of these bytes.
fn value(bytes: &[u8]) -> Option<Value> {
    Value::of(bytes)
}

/// A new store of version 2 for 100 keys.
fn open(alloc: Global) -> Result<Kv<MemoryDevice>, Fail> {
    let mut device = MemoryDevice::new(alloc, 65536, Vec::new(alloc))?;
    let mut options = Options::new(100);
    options.format = Format::Two;
    if create(&mut device, &options).is_err() {
        return Err("not made".into());
    }
    match Kv::open(alloc, device, options.cache) {
        Ok(kv) => Ok(kv),
        Err(_) => Err("not opened".into()),
    }
}

/// Whether each call is answered as it should, on a new store.
fn answers(kv: &mut Kv<MemoryDevice>) -> bool {
    kv.put(b"a", b"one") == Ok(Put::New)
        && kv.get(b"a") == Ok(value(b"one"))
        && kv.stamp(b"a") == Ok(Some(1))
        && kv.put_if(b"a", 2, b"x") == Ok(PutIf::Other(1))
        && kv.delete(b"a") == Ok(value(b"one"))
        && kv.count() == 0
}

#[test]
fn each_call_is_answered(rt: HostRuntime) -> Result<(), Fail> {
    let mut kv = open(rt.alloc())?;
    assert!(rt; answers(&mut kv));
    Ok(())
}

/// A store that was kept safe, closed and opened again.
fn reopened(alloc: Global, kv: Kv<MemoryDevice>) -> Result<Kv<MemoryDevice>, Fail> {
    let Ok(kv) = kv.checkpoint(alloc) else {
        return Err("no checkpoint".into());
    };
    let Ok(device) = kv.close() else {
        return Err("not closed".into());
    };
    match Kv::open(alloc, device, 0) {
        Ok(kv) => Ok(kv),
        Err(_) => Err("not opened".into()),
    }
}

#[test]
fn what_was_put_is_kept(rt: HostRuntime) -> Result<(), Fail> {
    let alloc = rt.alloc();
    let mut kv = open(alloc)?;
    let put = kv.put(b"a", b"one").is_ok();
    let mut kv = reopened(alloc, kv)?;
    assert!(rt; put && kv.get(b"a") == Ok(value(b"one")));
    Ok(())
}

const CALLS: [Call; 6] = [
    Call::Put(b"a", b"one"),
    Call::PutIf(b"a", 1, b""),
    Call::Get(b"a"),
    Call::Stamp(b"a"),
    Call::Delete(b"a"),
    Call::Get(b""),
];

/// Whether these are the answers to the calls.
fn are_answers(found: &[Result<Answer, Error>]) -> bool {
    let Some(one) = value(b"one") else {
        return false;
    };
    let wanted = [
        Ok(Answer::Put(Put::New)),
        Ok(Answer::PutIf(PutIf::Old(one))),
        Ok(Answer::Got(value(b""))),
        Ok(Answer::Stamped(Some(2))),
        Ok(Answer::Deleted(value(b""))),
        Err(Error::KeyLength),
    ];
    found == wanted.as_slice()
}

/// A list of calls on a ledger that the blank opens; whether the answers are as they should be.
fn play<L: Ledger>(alloc: Global, blank: Blank) -> Result<bool, Fail>
    requires name { blank.name ≡ L.name }
    requires parts { blank.parts ≡ L.parts }
    requires some { 0 < L.parts }
{
    let mut steps = Steps::<L>::begin(blank);
    let mut kv = open(alloc)?;
    let answers = kv.carry_out_all(alloc, &CALLS, &mut steps)?;
    Ok(are_answers(&answers))
}

#[test]
fn a_list_of_calls_is_answered(rt: HostRuntime) -> Result<(), Fail> {
    let answered = play::<Brand>(rt.alloc(), Blank::new(1))?;
    assert!(rt; answered);
    Ok(())
}
