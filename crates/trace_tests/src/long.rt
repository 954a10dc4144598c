//! How much is read of an input that has no end. `tests/inputs.sh` tries the built program with 70 MB of empty lines, and with a
//! field of 70 MB.

use crate::ends::LongReader;
use device_model::{TraceFault, read_trace};

// the reader is asked for the header, for 100001 rows and what one read ahead takes, and for no more
#[test]
fn endless_input(rt: HostRuntime) {
    let mut given = 0;
    let reader = LongReader {
        front: b"moment,device,event,value\n0,1,open,4\n",
        again: b"1,1,rx,100\n",
        left: u64::MAX,
        given: &mut given,
    };
    let answer = read_trace(rt.alloc(), reader);
    assert_eq!(rt; answer.err(), Some(TraceFault::TooManyRows));
    let most = 26 + 11 * 100_001;
    assert!(rt; most <= given && given <= most + 16_384, "{given} bytes");
}
