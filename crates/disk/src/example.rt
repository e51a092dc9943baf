// An example of what fits.
ghost use Rattle.disk.specs.Example.{EightOnThirtyTwo};

/// Names the example: on a disk of 32 sectors an order of 8 sectors fits at place 24, and not at 25.
pub fn eight_sectors_on_thirty_two()
    ensures { EightOnThirtyTwo }
{}
