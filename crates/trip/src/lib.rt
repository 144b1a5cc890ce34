// A driver and a device on one guest memory: requests are laid, served by calls of hd_step and read again.
#![tactic(auto)]

ghost use Rattle.std.specs.Prelude.{◌≡◌};
ghost use Rattle.trip.specs.Exchange.{done_number};
ghost use Rattle.trip.specs.declared.NotDone.TheVariants.{NotLaid, Strange};

use driver::{Driver, NotLaid, Strange};

pub mod exchange;
pub mod round_trip;
pub mod serve;

// A request was laid and answered: the driver afterwards, status and length.
#[derive(Clone, Copy)]
pub struct Done {
    pub driver: Driver,
    pub status: u8,
    pub len: usize,
}

// Laying refused the request; or it was laid, and its answer did not come (none yet), or is not one: as in reading answers, another request's,
// or without a status.
#[derive(Clone, Copy, Debug, PartialEq, Eq)]
pub enum NotDone {
    NotLaid(NotLaid),
    Unanswered,
    Strange(Strange),
    Another,
    NoStatus,
}

impl From<NotLaid> for NotDone {
    ghost from_gives = { λ e n. n ≡ NotLaid e };

    fn from(e: NotLaid) -> NotDone {
        NotDone::NotLaid(e)
    }
}

impl From<Strange> for NotDone {
    ghost from_gives = { λ e n. n ≡ Strange e };

    fn from(e: Strange) -> NotDone {
        NotDone::Strange(e)
    }
}

impl NotDone {
    // What programs print of it.
    pub fn number(self) -> usize
        ensures { result ≡ done_number self }
    {
        match self {
            NotDone::NotLaid(e) => e.number(),
            NotDone::Unanswered => 0,
            NotDone::Strange(e) => e.number(),
            NotDone::Another => 68,
            NotDone::NoStatus => 69,
        }
    }
}

// Both requests were answered: the status of the write and of the read.
#[derive(Clone, Copy)]
pub struct Trip {
    pub write: u8,
    pub read: u8,
}
