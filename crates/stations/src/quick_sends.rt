//! What a station sends for a message other than a change.
ghost use Rattle.std.specs.Prelude.{◌≡◌, None};

use msg_heap::OptionalMsg;

/// A job over a link, and a message to the station itself, in this order. Each may be none.
#[derive(Clone, Copy)]
pub struct QuickSends {
    pub link: OptionalMsg,
    pub own: OptionalMsg,
}

impl QuickSends {
    /// Nothing is sent.
    #[inline(always)]
    pub(crate) fn none() -> QuickSends
        ensures value { result ≡ record { link = None; own = None } }
    {
        QuickSends {
            link: OptionalMsg::none(),
            own: OptionalMsg::none(),
        }
    }
}
