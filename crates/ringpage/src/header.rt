// The header of a ring page.
ghost use Rattle.std.specs.Prelude.{◌≡◌};
ghost use Rattle.ringpage.specs.Header.{header_of};

use crate::slot::copy_message;
use abi::{PAGE_SIZE, RingHeader};

/// The header that a page begins with.
pub fn header_of(page: &[u8; PAGE_SIZE]) -> RingHeader
    ensures { result ≡ header_of page.now }
{
    copy_message(page, 0)
}
