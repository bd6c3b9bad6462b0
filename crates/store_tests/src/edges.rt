// Each refusal of a store, and the edges between a refusal and an acceptance.
use gap_buffer::GapBuffer;
use piece_table::PieceTable;
use std::process::Abort;
use std::test::Fail;
use store::checks::MAX_COUNT;
use store::faults::{Fault, Refusal, Refuses};
use store::text_store::TextStore;

// The capacity of the stores under test: two of the longest insertions.
const ROOM: usize = 8192;

#[derive(Clone, Copy)]
enum Edit {
    Insert,
    Delete,
    // into an area of so many bytes
    Copy { area: usize },
}

// An edit of so many bytes at a place, and which check refuses it, if any.
#[derive(Clone, Copy)]
struct Row {
    edit: Edit,
    place: usize,
    count: usize,
    refusal: Option<Refusal>,
}

impl Edit {
    fn at(self, place: usize, count: usize, refusal: Option<Refusal>) -> Row {
        Row {
            edit: self,
            place,
            count,
            refusal,
        }
    }
}

fn outcome<S: TextStore>(store: &mut S, row: Row, bytes: &[u8]) -> Option<Fault<Refusal>> {
    let mut area = [b'.'; 16];
    let count = row.count.min(bytes.len());
    let result = match row.edit {
        Edit::Insert => store.insert(row.place, &bytes[0..count]),
        Edit::Delete => store.delete(row.place, row.count),
        Edit::Copy { area: len } => store.copy(row.place, row.count, &mut area[0..len.min(16)]),
    };
    result.err()
}

// Does the rows in their order. A refusal holds the call's place.
fn run_rows<S: TextStore>(rt: &impl Abort, store: &mut S, rows: &[Row]) {
    let bytes = [b'a'; MAX_COUNT + 1];
    for row in rows {
        let expected = row.refusal.map(|refusal| refusal.at(row.place));
        assert_eq!(rt; outcome(store, *row, &bytes), expected);
    }
}

// The rows, from an empty text on.
fn refusals_and_edges<S: TextStore>(rt: &impl Abort, store: &mut S) {
    run_rows(
        rt,
        store,
        &[
            Edit::Insert.at(0, 0, Some(Refusal::Count)),
            Edit::Insert.at(9, 4097, Some(Refusal::Count)),
            Edit::Insert.at(1, 1, Some(Refusal::Place)),
            Edit::Delete.at(0, 1, Some(Refusal::Place)),
            Edit::Copy { area: 0 }.at(0, 0, None),
            Edit::Insert.at(0, 4096, None),
            Edit::Insert.at(4096, 4095, None),
            Edit::Insert.at(8191, 2, Some(Refusal::Capacity)),
            Edit::Insert.at(8191, 1, None),
        ],
    );
    assert_eq!(rt; store.len(), ROOM);
    run_rows(
        rt,
        store,
        &[
            Edit::Insert.at(0, 1, Some(Refusal::Capacity)),
            Edit::Insert.at(8193, 1, Some(Refusal::Place)),
            Edit::Insert.at(usize::MAX, 4096, Some(Refusal::Place)),
            Edit::Delete.at(3, 0, Some(Refusal::Count)),
            Edit::Delete.at(0, 4097, Some(Refusal::Count)),
            Edit::Delete.at(8192, 1, Some(Refusal::Place)),
            Edit::Delete.at(4097, 4096, Some(Refusal::Place)),
            Edit::Delete.at(usize::MAX, 1, Some(Refusal::Place)),
        ],
    );
    run_rows(
        rt,
        store,
        &[
            Edit::Copy { area: 9 }.at(8184, 9, Some(Refusal::Place)),
            Edit::Copy { area: 7 }.at(8184, 8, Some(Refusal::Area)),
            Edit::Copy { area: 8 }.at(8184, 8, None),
            Edit::Copy { area: 0 }.at(usize::MAX, 1, Some(Refusal::Place)),
            Edit::Copy { area: 0 }.at(8192, 0, None),
            Edit::Delete.at(4096, 4096, None),
            Edit::Delete.at(4095, 1, None),
        ],
    );
    assert_eq!(rt; store.len(), 4095);
    assert_eq!(rt; store.capacity(), ROOM);
}

// A copy writes the front of its area, and leaves the rest; a refused one leaves all of it.
fn areas<S: TextStore>(rt: &impl Abort, store: &mut S) -> Result<(), Fail> {
    store.insert(0, b"meter")?;
    let mut area = [b'.'; 6];
    store.copy(1, 3, &mut area)?;
    assert_eq!(rt; &area, b"ete...");
    assert!(rt; store.copy(0, 6, &mut area).is_err());
    assert!(rt; store.copy(0, 5, &mut area[0..4]).is_err());
    assert_eq!(rt; &area, b"ete...");
    assert_eq!(rt; store.byte_at(4), Some(b'r'));
    assert_eq!(rt; store.byte_at(5), None);
    assert_eq!(rt; store.byte_at(usize::MAX), None);
    Ok(())
}

// Each round leaves "-56" in front. Together the rounds have far more than 64 pieces, and append far
// more bytes than one half of this capacity holds.
fn many_pieces<S: TextStore>(rt: &impl Abort, store: &mut S) -> Result<(), Fail> {
    for _ in 0..40 {
        store.insert(0, b"0123456789")?;
        store.insert(5, b"-")?;
        store.delete(0, 5)?;
        store.delete(3, 3)?;
    }
    assert_eq!(rt; store.len(), 120);
    let mut area = [b'.'; 8];
    store.copy(0, 7, &mut area)?;
    assert_eq!(rt; &area, b"-56-56-.");
    assert_eq!(rt; store.byte_at(119), Some(b'6'));
    Ok(())
}

#[test]
fn gap_buffer_at_its_edges(rt: HostRuntime) -> Result<(), Fail> {
    let heap = rt.alloc();
    refusals_and_edges(&rt, &mut GapBuffer::new(vec![in heap; 0; ROOM]?));
    areas(&rt, &mut GapBuffer::new(vec![in heap; 0; 5]?))?;
    many_pieces(&rt, &mut GapBuffer::new(vec![in heap; 0; 200]?))?;
    assert_eq!(rt; GapBuffer::new(vec![in heap; 0; 40000]?).capacity(), 32768);
    Ok(())
}

#[test]
fn piece_table_at_its_edges(rt: HostRuntime) -> Result<(), Fail> {
    let heap = rt.alloc();
    refusals_and_edges(
        &rt,
        &mut PieceTable::new(heap, vec![in heap; 0; 2 * ROOM + 1]?)?,
    );
    areas(&rt, &mut PieceTable::new(heap, vec![in heap; 0; 11]?)?)?;
    many_pieces(&rt, &mut PieceTable::new(heap, vec![in heap; 0; 400]?)?)?;
    assert_eq!(rt;
        PieceTable::new(heap, vec![in heap; 0; 80000]?)?.capacity(),
        32768
    );
    Ok(())
}
