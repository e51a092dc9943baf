// Copying bytes out of a row that may end before the copy does.
ghost use Rattle.std.specs.Prelude.{◌≡◌, ◌-◌, ◌≤◌, ◌++◌, length, take, drop, replicate};
ghost use Rattle.device.specs.Row.{row_at};

/// Copies the bytes over the front of the part.
fn copy_front(part: &mut [u8], bytes: &[u8])
    requires { length bytes.now ≤ length part.old }
    ensures { part.new ≡ bytes.now ++ drop (length bytes.now) part.old }
{
    let count = bytes.len();
    part[0..count].copy_from_slice(bytes);
}

/// Writes zeros into the part from `start` on.
fn zero_from(part: &mut [u8], start: usize)
    requires { start ≤ length part.old }
    ensures { part.new ≡ take start part.old ++ replicate (length part.old - start) 0 }
{
    let end = part.len();
    part[start..end].fill(0);
}

/// Copies the row's bytes from `at` on into the part, and zeros past the row's end.
pub fn copy_row(row: &[u8], at: usize, part: &mut [u8])
    ensures { part.new ≡ row_at row.now at (length part.old) }
{
    let start = at.min(row.len());
    let count = (row.len() - start).min(part.len());
    copy_front(part, &row[start..start + count]);
    zero_from(part, count);
}
