// The numbers of refusals, as the enums that answers and responses use.
ghost use Rattle.std.specs.Prelude.{◌≡◌};
ghost use Rattle.abi.specs.Status.{grant_number, errno_number, house_number};

/// Xen's grant_table.h, GNTST_general_error to GNTST_bad_page.
#[derive(Clone, Copy, PartialEq, Eq, Debug)]
pub enum GrantStatus {
    GeneralError = -1,
    BadDomain = -2,
    BadGntref = -3,
    BadHandle = -4,
    BadVirtAddr = -5,
    BadDevAddr = -6,
    NoDeviceSpace = -7,
    PermissionDenied = -8,
    BadPage = -9,
}

impl GrantStatus {
    /// The number by which Xen's header writes it.
    pub fn number(self) -> i32
        ensures { result ≡ grant_number self }
    {
        self as i32
    }
}

/// The two values of Xen's errno.h that we use.
#[derive(Clone, Copy, PartialEq, Eq, Debug)]
pub enum Errno {
    Einval = -22,
    Enospc = -28,
}

impl Errno {
    /// The number, negated as a hypercall returns it.
    pub fn number(self) -> i32
        ensures { result ≡ errno_number self }
    {
        self as i32
    }
}

/// Refusals that Xen has no number for.
#[derive(Clone, Copy, PartialEq, Eq, Debug)]
pub enum HouseStatus {
    Busy = -41,
    BadRingIndex = -42,
}

impl HouseStatus {
    /// Our number for it.
    pub fn number(self) -> i32
        ensures { result ≡ house_number self }
    {
        self as i32
    }
}
