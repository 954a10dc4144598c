//! Laws of a device with its card. Each is the contract of a function that does nothing.

ghost use Rattle.driver_core.specs.Steps.{CallsAreLegal};
ghost use Rattle.driver_core.specs.Turns.{MaskedFirstIsFetched, PolledInTurn, TurnsAreCalls};
ghost use Rattle.driver_core.specs.World.{ListedIsMasked, NoPacketWaitsUnseen};

/// Packets may arrive, the card may interrupt, the timer may expire, and the device may be opened and stopped, in any order, and
/// between any two steps of the thread that does what [`Driver::next`](crate::Driver::next) returns. Whenever the device is open
/// and at rest, and the thread has reported what it did, its card is unmasked, and has no packets or has an interrupt that isn't
/// reported yet; or its interrupt is deferred: then the card is masked, and the timer is set or its expiry isn't reported yet.
pub fn no_packet_waits_unseen()
    ensures { NoPacketWaitsUnseen }
{}

/// While a device is on the poll list, being polled, or closed, its card is masked, unless a fetch has unmasked it and isn't
/// reported yet.
pub fn listed_is_masked()
    ensures { ListedIsMasked }
{}

/// Each call on a device makes legal steps of its NAPI instance, with the replies of that object.
pub fn calls_are_legal()
    ensures { CallsAreLegal }
{}

/// A device that joins the line of those to be polled is polled after at most as many polls of others as the line has entries,
/// whatever calls are made. A device joins the line when its card is masked after an interrupt; one whose interrupt is deferred,
/// when the expiry of its timer is reported.
pub fn polled_in_turn()
    ensures { PolledInTurn }
{}

/// An action whose card has to be masked first is the fetch from that device.
pub fn masked_first_is_fetched()
    ensures { MaskedFirstIsFetched }
{}

/// A turn is a sequence of such calls, so that the other laws hold for it too.
pub fn turns_are_calls()
    ensures { TurnsAreCalls }
{}
