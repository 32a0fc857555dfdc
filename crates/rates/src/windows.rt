//! The windows of each login and each firm.

ghost use Rattle.std.specs.Prelude.{◌≡◌, length};

use crate::window::Window;

/// What a window counts: entries accepted, contracts filled, or entries turned down for their price. Each has the number of the cause that
/// its window gives where it trips.
#[derive(Clone, Copy, Debug, PartialEq, Eq)]
pub enum Rate {
    Entries = 61,
    Fills = 62,
    TurnDowns = 63,
}

/// The windows of a login, or of a firm as a whole.
#[derive(Clone, Copy)]
pub struct ScopeWindows {
    pub(crate) entries: Window,
    pub(crate) fills: Window,
    pub(crate) turndowns: Window,
}

/// The windows of a firm: its own, and those of the logins.
#[derive(Clone, Copy)]
pub struct FirmWindows {
    pub(crate) own: ScopeWindows,
    pub(crate) logins: [ScopeWindows; 24],
}

/// The check of rates: it judges 0, and trips a login or a firm whose window comes to its limit.
#[derive(Drop)]
pub struct Rates {
    pub(crate) time: u64,
    pub(crate) firms: [FirmWindows; 8],
    ghost eight: { length firms ≡ 8 },
}
