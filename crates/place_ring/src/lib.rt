//! A ring without copies, of places: it passes on who may use the elements of an array, and the packets stay in that array, which
//! is the caller's.
//!
//! Its two ends, [`PlaceIn`] and [`PlaceOut`], may be in different threads, and neither waits for the other. The input end
//! claims places, writes packets to them and publishes them; the output end looks at what was published, and releases it. So
//! AF_XDP's rings are used (`Documentation/networking/af_xdp.rst` of Linux 6.6: reserve and submit, peek and release).
//! `specs/Places.antt` defines what each end owns.
#![tactic(auto)]

mod ends;
mod pair;

pub use ends::{MOST_PLACES, PlaceIn, PlaceOut, Places};
pub use pair::{MAX_CAPACITY, PlaceFault, ends_are_apart, place_ring};
