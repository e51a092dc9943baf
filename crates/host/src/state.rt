// The host itself.
use backend::Tables;

/// A host: all its tables. The memory and the devices are lent to each call.
#[derive(Drop)]
pub struct Host {
    pub(crate) tables: Tables,
}
