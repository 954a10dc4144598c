//! Texts about the numbers that calls return, and the version, for callers that can't use the inline functions of C's header.
ghost use Rattle.std.specs.Prelude.{◌≡◌, ◌≤◌, codes, length};
ghost use Rattle.napi_c.specs.Names.{fault_name, refusal_texts, status_texts};
ghost use Rattle.napi_c.specs.Texts.{written};

/// Writes a text and a terminating 0, if there is room for both, and returns the text's length.
fn write(text: &[u8], to: &mut [u8]) -> usize
    ensures length { result ≡ length text.now }
    ensures written { to.new ≡ written text.now to.old }
    ensures kept { length to.new ≤ result → to.new ≡ to.old }
{
    if text.len() < to.len() {
        to[..text.len()].copy_from_slice(text);
        to[text.len()] = 0;
    }
    text.len()
}

/// Writes the library's version to an array, and returns its length. If there is no room for it and a terminating 0, the array
/// is unchanged.
#[unsafe(no_mangle)]
pub extern "C" fn fq_version(to: &mut [u8]) -> usize
    ensures length { result ≡ 5 }
    ensures written { to.new ≡ written (codes "3.0.0") to.old }
    ensures kept { length to.new ≤ result → to.new ≡ to.old }
{
    write(b"3.0.0", to)
}

/// Returns the library's version as a number, as FQ_VERSION_NUMBER of the header.
#[unsafe(no_mangle)]
pub extern "C" fn fq_version_number() -> u32
    ensures { result ≡ 30000 }
{
    30000
}

/// Writes the name of a status in the same way; "?" for an unknown number.
#[unsafe(no_mangle)]
pub extern "C" fn fq_status_text(status: u32, to: &mut [u8]) -> usize
    ensures length { result ≡ length (status_texts status).0 }
    ensures written { to.new ≡ written (status_texts status).0 to.old }
    ensures kept { length to.new ≤ result → to.new ≡ to.old }
{
    write(status_name(status), to)
}

/// Writes the message of a status, for people, in the same way; "?" for an unknown number.
#[unsafe(no_mangle)]
pub extern "C" fn fq_status_message(status: u32, to: &mut [u8]) -> usize
    ensures length { result ≡ length (status_texts status).1 }
    ensures written { to.new ≡ written (status_texts status).1 to.old }
    ensures kept { length to.new ≤ result → to.new ≡ to.old }
{
    write(status_message(status), to)
}

/// Writes the name of a trace's error in the same way; "?" for an unknown number.
#[unsafe(no_mangle)]
pub extern "C" fn fq_fault_text(fault: u32, to: &mut [u8]) -> usize
    ensures length { result ≡ length (fault_name fault) }
    ensures written { to.new ≡ written (fault_name fault) to.old }
    ensures kept { length to.new ≤ result → to.new ≡ to.old }
{
    write(fault_name(fault), to)
}

// Returns the name of a status.
fn status_name(status: u32) -> &'static [u8]
    ensures { result.now ≡ (status_texts status).0 }
{
    match status {
        0 => b"FQ_OK",
        1 => b"FQ_BAD_BOUNDS",
        2 => b"FQ_TOO_LARGE",
        3 => b"FQ_TOO_MUCH_IN_FLIGHT",
        4 => b"FQ_MORE_THAN_QUEUED",
        16 => b"FQ_GRANTED",
        17 => b"FQ_MISSED",
        18 => b"FQ_DISABLED",
        19 => b"FQ_TAKEN",
        20 => b"FQ_NOT_THERE",
        21 => b"FQ_RELEASED",
        22 => b"FQ_AGAIN",
        23 => b"FQ_HELD",
        24 => b"FQ_BUSY",
        25 => b"FQ_CHANGED",
        26 => b"FQ_FULL",
        27 => b"FQ_DONE",
        28 => b"FQ_STOPPED",
        30 => b"FQ_NOT_DUE",
        _ => refusal_name(status),
    }
}

// Returns the name of a status from 100 on.
fn refusal_name(status: u32) -> &'static [u8]
    ensures { result.now ≡ (refusal_texts status).0 }
{
    match status {
        100 => b"FQ_NOT_ALLOWED",
        101 => b"FQ_BAD_KIND",
        110 => b"FQ_BAD_HANDLE",
        111 => b"FQ_IN_USE",
        112 => b"FQ_OUT_OF_MEMORY",
        113 => b"FQ_BAD_CAPACITY",
        114 => b"FQ_BAD_WEIGHT",
        115 => b"FQ_NO_ROOM",
        116 => b"FQ_BAD_BUDGET",
        117 => b"FQ_BAD_COUNT",
        118 => b"FQ_BAD_NEXT",
        119 => b"FQ_BAD_WORK",
        120 => b"FQ_BAD_TRACE",
        121 => b"FQ_BAD_DEVICE",
        122 => b"FQ_BAD_SIZE",
        123 => b"FQ_BAD_SETTING",
        124 => b"FQ_BAD_ARRIVALS",
        125 => b"FQ_MORE_THAN_SENT",
        126 => b"FQ_NOT_REPORTED",
        _ => b"?",
    }
}

// Returns the message of a status.
fn status_message(status: u32) -> &'static [u8]
    ensures { result.now ≡ (status_texts status).1 }
{
    match status {
        0 => b"done",
        1 => b"min is above max, or max above 1879048192 bytes",
        2 => b"an object of more than 268435455 bytes",
        3 => b"more than 1073741823 bytes would be in flight",
        4 => b"more bytes are completed than are in flight",
        16 => b"the caller owns the instance, and has to queue it",
        17 => b"already scheduled: one more poll follows, unless the instance is disabled",
        18 => b"a disable is pending, and no poll was requested",
        19 => b"the caller owns the instance",
        20 => b"the instance is not queued there, or the number is not on the list",
        21 => b"no caller owns the instance any more",
        22 => b"a request was missed: the caller has to queue the instance again",
        23 => b"the caller keeps polling",
        24 => b"another caller owns the instance, or a run has the number",
        25 => b"another thread interfered, and nothing is decided: call again",
        26 => b"there is no room",
        27 => b"no poll is left in the run",
        28 => b"the limit has stopped the queue",
        30 => b"this is not due, and nothing has changed",
        _ => refusal_message(status),
    }
}

// Returns the message of a status from 100 on.
fn refusal_message(status: u32) -> &'static [u8]
    ensures { result.now ≡ (refusal_texts status).1 }
{
    match status {
        100 => b"the state of the object does not allow this call",
        101 => b"the kind is 0 (list) or 1 (thread)",
        110 => b"the handle has no object, or one of another kind",
        111 => b"the handle is set already, or the number is listed already",
        112 => b"out of memory",
        113 => b"the capacity of a ring is 1 to 65536",
        114 => b"a weight is 1 to 64 packets",
        115 => b"the array is too short",
        116 => b"budget and window are 1 to 65535",
        117 => b"a shared instance has 2 to 8 callers, a driver 1 to 64 devices",
        118 => b"how a poll ended is 0 to 4 (enum fq_next)",
        119 => b"a poll is reported with more packets than the weight",
        120 => b"the bytes are not a trace, or a row of it can't be processed",
        121 => b"the driver has no device with this number",
        122 => b"a struct's size is not one that the library knows",
        123 => b"a setting is out of its range, or doesn't go with another",
        124 => b"the bytes are not arrivals",
        125 => b"more packets are completed than were sent",
        126 => b"an action waits for its report, and this is not it",
        _ => b"?",
    }
}

fn fault_name(fault: u32) -> &'static [u8]
    ensures { result.now ≡ fault_name fault }
{
    match fault {
        1 => b"BadHeader",
        2 => b"BadFields",
        3 => b"BadNumber",
        4 => b"BadEvent",
        5 => b"OutOfRange",
        6 => b"UnknownDevice",
        7 => b"OpenTwice",
        8 => b"WrongState",
        9 => b"TooManyRows",
        10 => b"ReadFailed",
        11 => b"OutOfMemory",
        12 => b"Pending",
        _ => b"?",
    }
}
