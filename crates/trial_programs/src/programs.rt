//! Programs, and what their flows are given.

use flux_values::List;
use plain_journals::Given;
use std::alloc::Global;
use trial_ends::Trouble;

/// Flows that take nothing.
pub const FREE: &[u8] = b"Tick () => (int n);\nPass (int n) => (int n);\nsource Tick => Pass;\n";

/// All flows count in one cell.
pub const COUNTING: &[u8] =
    b"Tick () => (int n);\nAdd (int n) => (int n);\nsource Tick => Add;\natomic Add:{counter};\n";

/// Each flow counts in the cell of its session.
pub const SESSIONS: &[u8] =
    b"Tick () => (int n);\nBump (int n) => (int n);\nsource Tick => Bump;\nsession Tick => ByNumber;\natomic Bump:{visits(session)};\n";

/// All flows read one cell.
pub const READING: &[u8] =
    b"Tick () => (int n);\nRead (int n) => (int n);\nsource Tick => Read;\natomic Read:{counter?};\n";

/// Nested flows with cases, readers, writers and sessions, and a counter that all share: 23 events for a number, and 9 for 0.
pub const NESTED: &[u8] =
    b"Tick () => (int n);\nPass (int n) => (int n);\nAdd (int n) => (int n);\nBump (int n) => (int n);\ntypedef zero IsZero;\nsource Tick => Load;\nsession Tick => ByNumber;\nLoad:[zero] = Pass;\nLoad:[_] = Visit -> Add;\nVisit = Bump;\natomic Load:{aisle?};\natomic Visit:{zone?};\natomic Bump:{visits(session)};\natomic Add:{counter};\n";

/// The numbers of so many flows: each is seven more than the one before, without its tens.
pub fn numbers(alloc: Global, flows: u32) -> Result<List<Given>, Trouble> {
    let mut all = List::new(alloc);
    for flow in 0..flows {
        all.add(Given {
            source: 0,
            number: (3 + 7 * flow as i64) % 10,
        })?;
    }
    Ok(all)
}
