// The limits from both sides, what a trim frees, and what is read back.
use crate::entry::Entry;
use crate::kind::Kind;
use crate::list::UndoList;
use places::faults::{Fault, Refusal, Refuses};
use places::record::Places;
use std::test::Fail;

// 512 entries in one group, and no more until it is dropped.
#[test]
fn most_entries(rt: HostRuntime) -> Result<(), Fail> {
    let mut list = UndoList::new(rt.alloc())?;
    for i in 0..512 {
        list.record_insertion(i, 1)?;
    }
    assert_eq!(rt; list.entries(), 512);
    let refused = Err(Refusal::UndoList.at(7));
    assert_eq!(rt; list.record_insertion(7, 1), refused);
    assert_eq!(rt; list.record_insertion(7, 0), Err(Refusal::Count.at(7)));
    assert_eq!(rt; list.record_insertion(7, 4097), Err(Refusal::Count.at(7)));
    assert_eq!(rt; list.check_group(1, 0, 7), refused);
    list.close();
    list.trim(1)?;
    assert_eq!(rt; list.entries(), 0);
    list.record_insertion(7, 4096)?;
    assert_eq!(rt; list.groups(), 1);
    Ok(())
}

// 16,384 kept bytes, and no more until a deletion is dropped.
#[test]
fn most_bytes(rt: HostRuntime) -> Result<(), Fail> {
    let mut list = UndoList::new(rt.alloc())?;
    let notes = Places::new(4096).note(0, 4096);
    let bytes = [7; 4096];
    for _ in 0..4 {
        list.record_deletion(0, &bytes, notes)?;
        list.close();
    }
    assert_eq!(rt; list.bytes(), 16384);
    let one = Places::new(1).note(0, 1);
    assert_eq!(rt;
        list.record_deletion(3, &[1], one),
        Err(Refusal::UndoList.at(3))
    );
    assert_eq!(rt;
        list.record_deletion(3, &[1], notes),
        Err(Refusal::Count.at(3))
    );
    list.trim(1)?;
    assert_eq!(rt; list.bytes(), 12288);
    list.record_deletion(0, &bytes, notes)?;
    assert_eq!(rt; list.bytes(), 16384);
    Ok(())
}

// 256 groups of one entry, and no more until one is dropped.
#[test]
fn most_groups(rt: HostRuntime) -> Result<(), Fail> {
    let mut list = UndoList::new(rt.alloc())?;
    for i in 0..256 {
        list.record_insertion(i, 1)?;
        list.close();
    }
    assert_eq!(rt; list.groups(), 256);
    let refused = Err(Refusal::UndoList.at(0));
    assert_eq!(rt; list.record_insertion(0, 1), refused);
    assert_eq!(rt; list.check_entry(0, 0), refused);
    assert_eq!(rt; list.start_group(0, 0, 0), refused);
    assert_eq!(rt; list.trim(0), Err(Refusal::Argument.at(0)));
    assert_eq!(rt; list.trim(257), Err(Refusal::Argument.at(0)));
    list.trim(255)?;
    assert_eq!(rt; list.trim(2), Err(Refusal::Presence.at(0)));
    list.record_insertion(9, 1)?;
    assert_eq!(rt; list.closed_groups(), 1);
    assert_eq!(rt; list.groups(), 2);
    Ok(())
}

// A deletion of "bcde" at 1 with a marker at 3 and one at 1, between two other edits, after a trim.
#[test]
fn read_back(rt: HostRuntime) -> Result<(), Fail> {
    let mut list = UndoList::new(rt.alloc())?;
    let notes = Places::new(6).set(3, 3)?.set(9, 1)?.note(1, 4);
    list.record_deletion(0, b"a", Places::new(1).note(0, 1))?;
    list.start_group(2, 4, 0)?;
    list.record_insertion(0, 6)?;
    list.record_deletion(1, b"bcde", notes)?;
    list.record_insertion(1, 2)?;
    list.trim(1)?;
    assert_eq!(rt; list.group_len(0), 3);
    let kept = list.read(0, 1).map(|reading| reading.kept.len());
    assert_eq!(rt; kept, Some(4));
    assert!(rt; list.read(0, 3).is_none());
    let entry = list.read(0, 1).map(|reading| reading.entry);
    assert_eq!(rt; noted(entry, 3), Some(2));
    assert_eq!(rt; noted(entry, 9), Some(0));
    assert_eq!(rt; noted(entry, 8), None);
    list.cut_back(1);
    assert_eq!(rt; list.bytes(), 0);
    assert_eq!(rt; list.group_len(0), 1);
    Ok(())
}

// What an entry notes of a marker.
fn noted(entry: Option<Entry>, marker: usize) -> Option<usize> {
    match entry?.kind {
        Kind::Deletion { distances } if marker < 16 => distances[marker],
        Kind::Deletion { .. } | Kind::Insertion => None,
    }
}
