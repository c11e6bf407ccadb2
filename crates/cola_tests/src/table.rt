//! The table in memory, through the trait: what the session has no words for in format One; and messages.
ghost use Rattle.std.specs.Prelude.{◌≡◌, ◌<◌};

use crate::made::value;
use cola_cell::Key;
use cola_outside::Steps;
use cola_table::{FlatTable, Put, PutFault, PutIf, Table};
use std::marker::Brand;
use std::process::Abort;
use std::sync::ledger::{Blank, Ledger};
use std::test::Fail;

// A put, and puts that depend on the stamp 0, on a table for one key: of a key, the stamp seen, and what is answered.
fn put_if<T: Table, L: Ledger>(
    rt: &impl Abort,
    table: &mut T,
    steps: &mut Steps<L>,
) -> Result<(), Fail> {
    let value = value("v")?;
    let key = Key::of(&[3]).ok_or("no key")?;
    let format = table.format();
    assert!(rt; key.fits(format) && value.fits(format));
    let (put, _) = table.put(&key, &value, steps)?;
    assert!(rt; put == Put::New);
    for (place, seen, wanted) in [
        (3u8, 1, Ok(PutIf::Other(0))),
        (3, 0, Ok(PutIf::Old(value))),
        (77, 0, Err(PutFault::Full)),
    ] {
        let key = Key::of(&[place]).ok_or("no key")?;
        let format = table.format();
        assert!(rt; key.fits(format) && value.fits(format));
        let found = table
            .put_if(&key, seen, &value, steps)
            .map(|answer| answer.0);
        assert!(rt; found == wanted, "key {place} where the stamp is {seen}");
    }
    let (stamp, _) = table.stamp(&key, steps)?;
    assert!(rt; stamp == Some(0));
    Ok(())
}

fn put_once<L: Ledger>(rt: &impl Abort, table: &mut FlatTable, blank: Blank) -> Result<(), Fail>
    requires name { blank.name ≡ L.name }
    requires parts { blank.parts ≡ L.parts }
    requires some { 0 < L.parts }
{
    let mut steps = Steps::<L>::begin(blank);
    put_if(rt, table, &mut steps)
}

#[test]
fn puts_that_depend_on_a_stamp(rt: HostRuntime) -> Result<(), Fail> {
    let mut table = FlatTable::new(rt.alloc(), 1)?;
    put_once::<Brand>(&rt, &mut table, Blank::new(1))
}

const MESSAGES: &str =
    "the key is new, and the table has as many keys as it may have: delete one first
no stamp is left to give: put the pairs into a new table
the device failed: try again
the bytes of cell 87 spell no cell: the file is damaged
the next run of level 3 has no room: the file is damaged
";

#[test]
fn messages_of_puts(rt: HostRuntime) -> Result<(), Fail> {
    let mut text = String::new(rt.alloc());
    for fault in [
        PutFault::Full,
        PutFault::Worn,
        PutFault::Device,
        PutFault::BadCell(87),
        PutFault::Overfull(3),
    ] {
        writeln!(text, "{fault}")?;
    }
    assert!(rt; text.as_str() == MESSAGES);
    Ok(())
}
