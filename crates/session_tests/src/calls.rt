// The calls of a session as values, and the run of a table of them.
use places::faults::Fault;
use session::session::Session;
use std::alloc::Global;
use std::process::Abort;
use std::test::Fail;
use store::checks::MAX_COUNT;
use store::text_store::TextStore;

// Bytes by their number alone, and areas by their length, so that a table stays one line to a call.
#[derive(Clone, Copy)]
pub enum Call {
    // so many bytes at a place
    Insert(usize, usize),
    Delete(usize, usize),
    // a marker, and its place
    Set(usize, usize),
    Boundary,
    Trim(usize),
    // from a place to a place
    Protect(usize, usize),
    Unprotect(usize, usize),
    Narrow(usize, usize),
    Widen,
    Marker(usize),
    // from a place so many bytes, into an area of so many
    Copy(usize, usize, usize),
}

// What the questions show: the text, filled up to eight bytes with dots; the markers; the window's
// counts; and how many spans, entries and groups there are.
pub type View = ([u8; 8], [usize; 16], (usize, usize), [usize; 3]);

// A session over the store, into which "abcdef" was put first.
pub fn session_over<S: TextStore + Drop>(heap: Global, mut store: S) -> Result<Session<S>, Fail> {
    store.insert(0, b"abcdef")?;
    Session::new(heap, store).map_err(|_| Fail::new("memory is wanting"))
}

pub fn view_of<S: TextStore>(session: &Session<S>) -> View {
    let mut text = [b'.'; 8];
    for (p, byte) in text.iter_mut().enumerate() {
        *byte = session.byte_at(p).unwrap_or(b'.');
    }
    let counts = [session.spans(), session.entries(), session.groups()];
    (text, session.markers(), session.window(), counts)
}

fn copy_fault<S: TextStore>(session: &Session<S>, p: usize, n: usize, len: usize) -> Option<Fault> {
    let mut area = [0; 8];
    let copied = session.copy(p, n, &mut area[0..len.min(8)]);
    copied.err().map(|fault| fault.lift())
}

// Does the call. Inserted bytes are all "x".
fn fault_of<S: TextStore>(session: &mut Session<S>, call: Call) -> Option<Fault> {
    let bytes = [b'x'; MAX_COUNT + 1];
    let answer = match call {
        Call::Insert(p, n) => session.insert(p, &bytes[0..n.min(MAX_COUNT + 1)]),
        Call::Delete(p, n) => session.delete(p, n),
        Call::Set(m, p) => session.set(m, p),
        Call::Boundary => session.boundary(),
        Call::Trim(k) => session.trim(k),
        Call::Protect(s, e) => session.protect(s, e),
        Call::Unprotect(s, e) => session.unprotect(s, e),
        Call::Narrow(s, e) => session.narrow(s, e),
        Call::Widen => session.widen(),
        Call::Marker(m) => return session.marker(m).err(),
        Call::Copy(p, n, len) => return copy_fault(session, p, n, len),
    };
    answer.err()
}

// Does the calls in their order, each with its fault if it is refused. A refused one changes nothing.
pub fn run<S: TextStore>(
    rt: &impl Abort,
    session: &mut Session<S>,
    rows: &[(Call, Option<Fault>)],
) {
    for (call, fault) in rows {
        let before = view_of(session);
        assert_eq!(rt; fault_of(session, *call), *fault);
        if fault.is_some() {
            assert_eq!(rt; view_of(session), before);
        }
    }
}
